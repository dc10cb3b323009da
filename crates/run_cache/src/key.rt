// The key of a run, by which its records are found.
ghost use Rattle.std.specs.Prelude.{◌≡◌, IfOk};
ghost use Rattle.lock_files.specs.Form.{IsEntry};
ghost use Rattle.run_cache.specs.Records as spec;

use crate::canonical::canonical_entry;
use crate::digits::digits_of;
use dvc_base::{Key, NoMemory};
use lock_files::{Entry, print_key};
use std::alloc::Global;

/// The key of an entry: the SHA-256 of what its outputs were made of.
pub fn key_of(alloc: Global, entry: &Entry) -> Result<Key, NoMemory>
    requires { IsEntry entry.now }
    ensures exact { IfOk result (λ key. key ≡ spec.key_of entry.now) }
{
    let canonical = canonical_entry(alloc, entry)?;
    key_of_canonical(alloc, &canonical)
}

/// The same, where the entry's parameters are canonical.
pub fn key_of_canonical(alloc: Global, entry: &Entry) -> Result<Key, NoMemory>
    requires { IsEntry entry.now }
    ensures exact { IfOk result (λ key. key ≡ spec.key_of_canonical entry.now) }
{
    let text = print_key(alloc, entry)?;
    let digits = digits_of(text.as_slice());
    Ok(Key { digits })
}
