// A run record kept.
ghost use Rattle.std.specs.Prelude.{◌≡◌, Some, IsTrue, IfOk, IfErr, OnOk, IsErrOf};
ghost use Rattle.world_api.specs.Calls.{parent};
ghost use Rattle.world_api.specs.Outside.{tree_of, PassesFrom};
ghost use Rattle.world_api.specs.History.{IsCaused};
ghost use Rattle.world_api.specs.Writes.{IsNewFile};
ghost use Rattle.lock_files.specs.Form.{IsEntry};
ghost use Rattle.object_cache.specs.Giving.{InGive};
ghost use Rattle.object_cache.specs.Due.{fault_of, IsDue, IsOnRoad, not_folder};
ghost use Rattle.object_cache.specs.declared.fault.CacheFault.TheVariants.{Failed as Blamed};
ghost use Rattle.run_cache.specs.Records as spec;
ghost use Rattle.run_cache.specs.Find.{IsFindable};

use crate::canonical::canonical_entry;
use crate::digits::digits_of;
use crate::key::key_of_canonical;
use crate::paths::{below, key_folder};
use dvc_base::{Bytes, NoMemory, Rel};
use lock_files::{Entry, print_entry};
use object_cache::{CacheFault, put_text};
use std::alloc::Global;
use world_api::Files;

/// Keeps what is remembered of a run: the entry's record is put at its place, where a folder is cleared first.
pub fn keep<F: Files>(alloc: Global, files: &mut F, entry: &Entry) -> Result<(), CacheFault>
    requires { IsEntry entry.now }
    ensures answer { IsTrue F.tells → IsDue (fault_of result)
        (not_folder (tree_of (F.history files.old)) (parent (spec.record_path entry.now))) }
    ensures kept { IsTrue F.tells → OnOk result (IsNewFile (spec.record_path entry.now)
        (spec.record_text entry.now) (F.history files.new).present) }
    ensures findable { IsTrue F.tells → OnOk result (IsFindable entry.now (tree_of (F.history files.new))) }
    ensures moments { IsTrue F.tells → PassesFrom
        (InGive (spec.record_path entry.now) (Some (spec.record_text entry.now)))
        (F.history files.old) (F.history files.new) }
    ensures told { IfErr result (IsOnRoad (parent (spec.record_path entry.now))) }
    ensures cause { IsCaused (F.faults files.old) (F.faults files.new) (IsErrOf result Blamed) }
{
    let canonical = canonical_entry(alloc, entry)?;
    let text = print_entry(alloc, &canonical)?;
    let path = path_of(alloc, &canonical, &text)?;
    put_text(alloc, files, text.as_slice(), &path)
}

// Where the record of an entry with canonical parameters stands, which has this text.
fn path_of(alloc: Global, canonical: &Entry, text: &Bytes) -> Result<Rel, NoMemory>
    requires { IsEntry canonical.now }
    ensures exact { IfOk result (λ path. path ≡ spec.place_of (spec.key_of_canonical canonical.now) text.now) }
{
    let key = key_of_canonical(alloc, canonical)?;
    let folder = key_folder(alloc, &key)?;
    below(alloc, &folder, &digits_of(text.as_slice()))
}
