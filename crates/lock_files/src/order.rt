// Pairs in the order of their keys, path entries in that of their paths.
ghost use Rattle.std.specs.Prelude.{◌≡◌, map, take, IfOk};
ghost use Rattle.yaml_nodes.specs.Part.{key_of};
ghost use Rattle.lock_files.specs.Order.{in_order};
ghost use Rattle.lock_files.specs.Value.{path_at};

use crate::{PathEntries, PathEntry};
use dvc_base::{NoMemory, Pair, Plain};
use std::alloc::Global;

/// References to pairs, in the order of their keys.
pub fn by_key<'a>(alloc: Global, pairs: &'a [Pair]) -> Result<Vec<&'a Pair>, NoMemory>
    ensures exact { IfOk result (λ sorted. map (λ p. p.now) sorted.items ≡ in_order key_of pairs.now) }
{
    let mut sorted = Vec::new(alloc);
    for pair in pairs {
        sorted.push(pair)?;
    }
    sorted.sort_by(|a, b| a.key.as_str().cmp(b.key.as_str()))?;
    Ok(sorted)
}

/// Path entries in the order of their paths.
pub fn by_path(alloc: Global, entries: &[PathEntry]) -> Result<PathEntries, NoMemory>
    ensures exact { IfOk result (λ sorted. sorted ≡ in_order path_at entries.now) }
{
    let sorted = refs_by_path(alloc, entries)?;
    copies_of(alloc, sorted.as_slice())
}

fn refs_by_path<'a>(alloc: Global, entries: &'a [PathEntry]) -> Result<Vec<&'a PathEntry>, NoMemory>
    ensures exact { IfOk result (λ sorted. map (λ e. e.now) sorted.items ≡ in_order path_at entries.now) }
{
    let mut sorted = Vec::new(alloc);
    for entry in entries {
        sorted.push(entry)?;
    }
    sorted.sort_by(|a, b| a.path.as_str().cmp(b.path.as_str()))?;
    Ok(sorted)
}

fn copies_of(alloc: Global, entries: &[&PathEntry]) -> Result<PathEntries, NoMemory>
    ensures exact { IfOk result (λ copies. copies ≡ map (λ e. e.now) entries.now) }
{
    let mut copies = PathEntries::new(alloc);
    for entry in entries {
        copies.push(entry.copy(alloc)?)?;
    }
    Ok(copies)
}
