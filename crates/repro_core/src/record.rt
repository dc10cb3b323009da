// Remembering what a run has read and written.
ghost use Rattle.std.specs.Prelude.{◌≡◌, List, [], map, Some, IsTrue, IfOk, OnOk, IsErrOf, Err};
ghost use Rattle.dvc_base.specs.declared.fault.Fault.TheVariants.{NoMemory as Starved, WorldFault};
ghost use Rattle.dvc_base.specs.Answer.{fault_in};
ghost use Rattle.dvc_base.specs.Fault.{MayBe};
ghost use Rattle.world_api.specs.History.{Passes, IsCaused};
ghost use Rattle.world_api.specs.Outside.{tree_of, PassesFrom};
ghost use Rattle.world_api.specs.Writes.{CanWrite};
ghost use Rattle.world_api.specs.Layout.{lock_path};
ghost use Rattle.lock_files.specs.Book.{set};
ghost use Rattle.lock_files.specs.Form.{IsEntry, IsBook};
ghost use Rattle.change_check.specs.declared.seen.SeenPath.{SeenPath as ASeenPath};
ghost use Rattle.repro_laws.specs.Stage.{out_text, IsStage};
ghost use Rattle.repro_laws.specs.Entries.{all_named, path_named};
ghost use Rattle.repro_laws.specs.Moments.{IsNewLock};
ghost use Rattle.repro_core.specs.Steps.{AreNamed, IsGoodSeen, InRecord, record_kinds};
ghost use Rattle.lock_files.specs.declared.entry.PathEntry.{PathEntry as APathEntry};

use crate::choose::Chosen;
use change_check::SeenPath;
use dvc_base::{Fault, NoMemory, Plain, Rel, Text};
use file_bytes::write_bytes;
use file_hash::Named;
use lock_files::{Entry, LockBook, PathEntries, PathEntry, print_lock};
use repro_laws::Stage;
use std::alloc::Global;
use world_api::Files;

/// The entry of a run, by the names of what it has read and made. Its parameters are as they stand in their files.
pub(crate) fn entry_of_run(
    alloc: Global,
    stage: &Stage,
    chosen: &Chosen,
    outs: PathEntries,
) -> Result<Entry, NoMemory>
    requires stage { IsStage stage.now }
    requires good { IsGoodSeen stage.now chosen.now.params chosen.now.seen }
    requires outs { AreNamed (map out_text stage.now.made) outs }
    ensures deps { IfOk result (λ entry. all_named chosen.now.seen.deps ≡ Some entry.deps) }
    ensures others { IfOk result (λ entry.
        (entry.commands ≡ stage.now.commands) × (entry.params ≡ chosen.now.params) × (entry.outs ≡ outs)) }
    ensures form { IfOk result IsEntry }
{
    Ok(Entry {
        commands: stage.commands.copy(alloc)?,
        deps: path_entries(alloc, chosen.seen.deps.as_slice())?,
        params: chosen.params.copy(alloc)?,
        outs,
    })
}

// The entries of paths that each have a name.
fn path_entries(alloc: Global, seen: &[SeenPath]) -> Result<PathEntries, NoMemory>
    requires { (entries : List APathEntry) × (all_named seen.now ≡ Some entries) }
    ensures exact { IfOk result (λ entries. all_named seen.now ≡ Some entries) }
{
    let mut entries = PathEntries::new(alloc);
    for at in 0..seen.len() {
        match seen[at].named {
            Some(named) => entries.push(path_entry(alloc, &seen[at].path, named)?)?,
            None => {}
        }
    }
    Ok(entries)
}

fn path_entry(alloc: Global, path: &Text, named: Named) -> Result<PathEntry, NoMemory>
    ensures exact { IfOk result (λ entry. path_named path.now (Some named) ≡ Some entry) }
{
    Ok(PathEntry {
        path: path.copy(alloc)?,
        name: named.name,
        size: named.size,
        nfiles: named.nfiles,
    })
}

/// Sets the entry of the stage of this name, and publishes the lock as a whole.
pub(crate) fn record<F: Files>(
    alloc: Global,
    files: &mut F,
    lock: &mut LockBook,
    at: &Rel,
    name: &Text,
    entry: Entry,
) -> Result<(), Fault>
    requires at { at.now ≡ lock_path }
    requires place { IsTrue F.tells → CanWrite lock_path (tree_of (F.history files.old)) }
    requires form { IsBook lock.old }
    requires entry { IsEntry entry }
    ensures set { OnOk result (lock.new ≡ set lock.old name.now entry) }
    ensures form { IsBook lock.new }
    ensures written { IsTrue F.tells → OnOk result
        (IsNewLock (set lock.old name.now entry) (F.history files.new).present) }
    ensures moments { IsTrue F.tells →
        PassesFrom (InRecord (set lock.old name.now entry)) (F.history files.old) (F.history files.new) }
    // Want of memory comes before anything is touched.
    ensures untouched { IsTrue F.tells → result ≡ Err Starved → F.history files.new ≡ F.history files.old }
    ensures kinds { MayBe record_kinds (fault_in result) }
    ensures cause { IsCaused (F.faults files.old) (F.faults files.new) (IsErrOf result WorldFault) }
{
    lock.set(alloc, name.as_str(), entry)?;
    let text = print_lock(alloc, lock)?;
    match write_bytes(files, at, text.as_slice()) {
        Ok(()) => Ok(()),
        Err(_) => Err(Fault::WorldFault),
    }
}
