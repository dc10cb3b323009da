// Whether an entry tells what is seen of a stage.
ghost use Rattle.std.specs.Prelude.{◌≡◌, bytes_eq};
ghost use Rattle.std.specs.Cmp.Lexicographic.{pointwise};
ghost use Rattle.yaml_print.specs.Sound.{Each};
ghost use Rattle.change_check.specs.Same as spec;
ghost use Rattle.change_check.specs.Sound.{IsSoundPair, IsCanonicalPair, AreSound, AreCanonical};

use crate::seen::{Seen, SeenPath};
use dvc_base::{Pair, ParamFile, Text};
use file_hash::Named;
use lock_files::{Entry, PathEntry};
use params::same_value;

/// Whether the entry tells just what is seen: the commands, each path with the name of what stands there, and the
/// parameters by value.
pub fn same_entry(entry: &Entry, seen: &Seen) -> bool
    requires sound { AreSound entry.now.params }
    requires canonical { AreCanonical seen.now.params }
    ensures exact { result ≡ spec.same_entry entry.now seen.now }
{
    same_inputs(entry, seen) && same_paths(entry.outs.as_slice(), seen.outs.as_slice())
}

/// Whether the entry tells what is seen but for the names of outputs, which may be others or missing.
pub fn agrees(entry: &Entry, seen: &Seen) -> bool
    requires sound { AreSound entry.now.params }
    requires canonical { AreCanonical seen.now.params }
    ensures exact { result ≡ spec.agrees entry.now seen.now }
{
    same_inputs(entry, seen) && same_places(entry.outs.as_slice(), seen.outs.as_slice())
}

fn same_inputs(entry: &Entry, seen: &Seen) -> bool
    requires sound { AreSound entry.now.params }
    requires canonical { AreCanonical seen.now.params }
    ensures exact { result ≡ spec.same_inputs entry.now seen.now }
{
    same_texts(entry.commands.as_slice(), seen.commands.as_slice())
        && same_paths(entry.deps.as_slice(), seen.deps.as_slice())
        && same_files(entry.params.as_slice(), seen.params.as_slice())
}

pub(crate) fn same_texts(a: &[Text], b: &[Text]) -> bool
    ensures exact { result ≡ pointwise bytes_eq a.now b.now }
{
    if a.len() != b.len() {
        return false;
    }
    for at in 0..a.len() {
        if a[at].as_str() != b[at].as_str() {
            return false;
        }
    }
    true
}

// ---- paths

fn same_paths(entries: &[PathEntry], seen: &[SeenPath]) -> bool
    ensures exact { result ≡ pointwise spec.same_path entries.now seen.now }
{
    if entries.len() != seen.len() {
        return false;
    }
    for at in 0..entries.len() {
        if !same_path(&entries[at], &seen[at]) {
            return false;
        }
    }
    true
}

fn same_path(entry: &PathEntry, seen: &SeenPath) -> bool
    ensures exact { result ≡ spec.same_path entry.now seen.now }
{
    same_place(entry, seen) && is_named(entry, &seen.named)
}

// Whether the paths are the same, whatever stands there.
fn same_places(entries: &[PathEntry], seen: &[SeenPath]) -> bool
    ensures exact { result ≡ pointwise (λ p o. bytes_eq p.path o.path) entries.now seen.now }
{
    if entries.len() != seen.len() {
        return false;
    }
    for at in 0..entries.len() {
        if !same_place(&entries[at], &seen[at]) {
            return false;
        }
    }
    true
}

fn same_place(entry: &PathEntry, seen: &SeenPath) -> bool
    ensures exact { result ≡ bytes_eq entry.now.path seen.now.path }
{
    entry.path.as_str() == seen.path.as_str()
}

/// Whether the entry tells the name of what stands there.
pub fn is_named(entry: &PathEntry, seen: &Option<Named>) -> bool
    ensures exact { result ≡ spec.is_named (spec.told_of entry.now) seen.now }
{
    match seen {
        Some(named) => has_name(entry, named),
        None => false,
    }
}

pub(crate) fn has_name(entry: &PathEntry, named: &Named) -> bool
    ensures exact { result ≡ spec.same_named (spec.told_of entry.now) named.now }
{
    entry.name == named.name && entry.size == named.size && entry.nfiles == named.nfiles
}

// ---- parameters, by value

fn same_files(files: &[ParamFile], seen: &[ParamFile]) -> bool
    requires sound { AreSound files.now }
    requires canonical { AreCanonical seen.now }
    ensures exact { result ≡ pointwise (λ f g. spec.same_file (spec.canonical_file f) g) files.now seen.now }
{
    if files.len() != seen.len() {
        return false;
    }
    for at in 0..files.len() {
        if !same_file(&files[at], &seen[at]) {
            return false;
        }
    }
    true
}

fn same_file(file: &ParamFile, seen: &ParamFile) -> bool
    requires sound { Each IsSoundPair file.now.keys }
    requires canonical { Each IsCanonicalPair seen.now.keys }
    ensures exact { result ≡ spec.same_file (spec.canonical_file file.now) seen.now }
{
    file.file.as_str() == seen.file.as_str()
        && same_pairs(file.keys.as_slice(), seen.keys.as_slice())
}

fn same_pairs(pairs: &[Pair], seen: &[Pair]) -> bool
    requires sound { Each IsSoundPair pairs.now }
    requires canonical { Each IsCanonicalPair seen.now }
    ensures exact { result ≡ pointwise (λ p q. spec.same_pair (spec.canonical_pair p) q) pairs.now seen.now }
{
    if pairs.len() != seen.len() {
        return false;
    }
    for at in 0..pairs.len() {
        if !same_pair(&pairs[at], &seen[at]) {
            return false;
        }
    }
    true
}

fn same_pair(pair: &Pair, seen: &Pair) -> bool
    requires sound { IsSoundPair pair.now }
    requires canonical { IsCanonicalPair seen.now }
    ensures exact { result ≡ spec.same_pair (spec.canonical_pair pair.now) seen.now }
{
    pair.key.as_str() == seen.key.as_str() && same_value(&pair.value, &seen.value)
}
