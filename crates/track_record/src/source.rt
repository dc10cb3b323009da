// What stands at an out of a track file, put into the cache.
ghost use Rattle.std.specs.Prelude.{◌≡◌, true, Some, IsTrue, IfOk, IsErrOf};
ghost use Rattle.dvc_base.specs.Answer.{fault_in};
ghost use Rattle.dvc_base.specs.Fault.{MayBe, IsHonest};
ghost use Rattle.dvc_base.specs.declared.fault.Fault.TheVariants.{WorldFault};
ghost use Rattle.world_api.specs.Tree.{value_at};
ghost use Rattle.world_api.specs.History.{IsCaused};
ghost use Rattle.world_api.specs.Outside.{tree_of, PassesFrom};
ghost use Rattle.file_hash.specs.Naming.{named_of, IsGoodName};
ghost use Rattle.object_cache.specs.Objects.{is_stored};
ghost use Rattle.lock_files.specs.Form.{is_path_entry};
ghost use Rattle.repro_laws.specs.Headline.{IsApart};
ghost use Rattle.repro_laws.specs.Moments.{is_own};
ghost use Rattle.repro_laws.specs.Sound.{IsAnswerAt};
ghost use Rattle.repro_core.specs.Steps.{InStored};
ghost use Rattle.track_record.specs.Sources.{source_path, source_due, source_fault, source_told, entry_with, entry_now, is_same_source};
ghost use Rattle.track_record.specs.Records.{source_kinds, TellsSource};

use change_check::is_named;
use dvc_base::{Fault, NoMemory, Plain, Rel};
use file_hash::Named;
use lock_files::PathEntry;
use object_cache::{CacheFault, put_from};
use stage_graph::path_from;
use std::alloc::Global;
use world_api::Files;

/// An out with the name of what stands there.
#[derive(Drop)]
pub(crate) struct PutEntry {
    pub(crate) out: PathEntry,
    /// Whether that is the name that its entry has.
    pub(crate) same: bool,
}

/// Puts what stands at the out of an entry into the cache. `dir` is the folder from which its path is read.
pub(crate) fn put_entry<F: Files>(
    alloc: Global,
    files: &mut F,
    dir: &Rel,
    entry: &PathEntry,
) -> Result<PutEntry, Fault>
    requires apart { IsApart is_own (source_path dir.now entry.now) }
    ensures out { IsTrue F.tells → IfOk result (λ put.
        put.out ≡ entry_now dir.now (tree_of (F.history files.old)) entry.now) }
    ensures same { IsTrue F.tells → IfOk result (λ put.
        put.same ≡ is_same_source dir.now (tree_of (F.history files.old)) entry.now) }
    ensures good { IfOk result (λ put. (put.out.path ≡ entry.now.path) × IsTrue (is_path_entry put.out)) }
    ensures stored { IsTrue F.tells → IfOk result (λ _. is_stored (tree_of (F.history files.new))
        (value_at (tree_of (F.history files.old)) (source_path dir.now entry.now)) ≡ true) }
    ensures answer { IsTrue F.tells → IsAnswerAt (tree_of (F.history files.new)) (fault_in result)
        (source_fault dir.now (tree_of (F.history files.old)) entry.now) }
    ensures moments { IsTrue F.tells → PassesFrom InStored (F.history files.old) (F.history files.new) }
    ensures told { TellsSource (source_path dir.now entry.now) (fault_in result) }
    ensures kinds { MayBe source_kinds (fault_in result) }
    ensures honest { IsHonest F.tells (fault_in result) }
    ensures cause { IsCaused (F.faults files.old) (F.faults files.new) (IsErrOf result WorldFault) }
{
    let at = path_from(alloc, dir, entry.path.as_str())?;
    let named = put_source(alloc, files, &at)?;
    Ok(PutEntry {
        out: renamed(alloc, entry, named)?,
        same: is_named(entry, &Some(named)),
    })
}

// The entry with another name.
fn renamed(alloc: Global, entry: &PathEntry, named: Named) -> Result<PathEntry, NoMemory>
    ensures exact { IfOk result (λ renamed. renamed ≡ entry_with entry.now (Some named)) }
    ensures good { IsGoodName named → IfOk result (λ renamed.
        (renamed.path ≡ entry.now.path) × IsTrue (is_path_entry renamed)) }
{
    Ok(PathEntry {
        path: entry.path.copy(alloc)?,
        name: named.name,
        size: named.size,
        nfiles: named.nfiles,
    })
}

// Names what stands at the path of an out, and puts it into the cache.
fn put_source<F: Files>(alloc: Global, files: &mut F, at: &Rel) -> Result<Named, Fault>
    requires apart { IsApart is_own at.now }
    ensures answer { IsTrue F.tells → IsAnswerAt (tree_of (F.history files.new)) (fault_in result)
        (source_due at.now (value_at (tree_of (F.history files.old)) at.now)) }
    ensures named { IsTrue F.tells → IfOk result (λ named.
        named_of (value_at (tree_of (F.history files.old)) at.now) ≡ Some named) }
    ensures good { IfOk result IsGoodName }
    ensures stored { IsTrue F.tells → IfOk result (λ _.
        is_stored (tree_of (F.history files.new)) (value_at (tree_of (F.history files.old)) at.now) ≡ true) }
    ensures moments { IsTrue F.tells → PassesFrom InStored (F.history files.old) (F.history files.new) }
    ensures told { TellsSource at.now (fault_in result) }
    ensures kinds { MayBe source_kinds (fault_in result) }
    ensures honest { IsHonest F.tells (fault_in result) }
    ensures cause { IsCaused (F.faults files.old) (F.faults files.new) (IsErrOf result WorldFault) }
{
    match put_from(alloc, files, at) {
        Ok(named) => Ok(named),
        Err(why) => Err(told(alloc, at, why)?),
    }
}

// A refusal of the cache, told of the out at this path.
fn told(alloc: Global, at: &Rel, why: CacheFault) -> Result<Fault, NoMemory>
    ensures exact { IfOk result (λ fault. fault ≡ source_told at.now why) }
{
    match why {
        CacheFault::Absent { name } => Ok(Fault::NotInCache {
            path: at.copy(alloc)?,
            name,
        }),
        CacheFault::Missing => Ok(Fault::MissingSource {
            path: at.copy(alloc)?,
        }),
        CacheFault::Changed { path, told, found } => Ok(Fault::Changed { path, told, found }),
        CacheFault::TooLarge { what, limit } => Ok(Fault::TooLarge { what, limit }),
        CacheFault::NotFolder { path } => Ok(Fault::NotFolder { path }),
        CacheFault::Failed => Ok(Fault::WorldFault),
        CacheFault::NoMemory => Ok(Fault::NoMemory),
    }
}
