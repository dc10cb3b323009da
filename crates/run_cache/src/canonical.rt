// The entry of a run with canonical parameters, of which its record and its key are made.
ghost use Rattle.std.specs.Prelude.{◌≡◌, map, IfOk};
ghost use Rattle.yaml_print.specs.Print.{value_of};
ghost use Rattle.yaml_print.specs.Sound.{Each, IsSound};
ghost use Rattle.lock_files.specs.Form.{IsEntry, IsKeyed};
ghost use Rattle.run_cache.specs.Records as spec;

use dvc_base::{KeyValues, NoMemory, Pair, ParamFile, ParamFiles, Plain};
use lock_files::Entry;
use params::canon;
use std::alloc::Global;

/// The entry with the canonical node of each parameter.
pub fn canonical_entry(alloc: Global, entry: &Entry) -> Result<Entry, NoMemory>
    requires { IsEntry entry.now }
    ensures exact { IfOk result (λ made. made ≡ spec.canonical_entry entry.now) }
    ensures form { IfOk result IsEntry }
{
    let params = canonical_files(alloc, entry.params.as_slice())?;
    Ok(Entry {
        commands: entry.commands.copy(alloc)?,
        deps: entry.deps.copy(alloc)?,
        params,
        outs: entry.outs.copy(alloc)?,
    })
}

fn canonical_files(alloc: Global, files: &[ParamFile]) -> Result<ParamFiles, NoMemory>
    ensures exact { Each (λ f. IsKeyed f.keys) files.now
        → IfOk result (λ made. made ≡ map spec.canonical_file files.now) }
{
    let mut made = ParamFiles::new(alloc);
    for file in files {
        made.push(canonical_file(alloc, file)?)?;
    }
    Ok(made)
}

fn canonical_file(alloc: Global, file: &ParamFile) -> Result<ParamFile, NoMemory>
    ensures exact { IsKeyed file.now.keys
        → IfOk result (λ made. made ≡ spec.canonical_file file.now) }
{
    Ok(ParamFile {
        file: file.file.copy(alloc)?,
        keys: canonical_keys(alloc, file.keys.as_slice())?,
    })
}

fn canonical_keys(alloc: Global, keys: &[Pair]) -> Result<KeyValues, NoMemory>
    ensures exact { Each (λ p. IsSound 59 (value_of p)) keys.now
        → IfOk result (λ made. made ≡ map spec.canonical_pair keys.now) }
{
    let mut made = KeyValues::new(alloc);
    for pair in keys {
        made.push(canonical_pair(alloc, pair)?)?;
    }
    Ok(made)
}

fn canonical_pair(alloc: Global, pair: &Pair) -> Result<Pair, NoMemory>
    ensures exact { IsSound 59 (value_of pair.now)
        → IfOk result (λ made. made ≡ spec.canonical_pair pair.now) }
{
    Ok(Pair {
        key: pair.key.copy(alloc)?,
        value: canon(alloc, &pair.value)?,
    })
}
