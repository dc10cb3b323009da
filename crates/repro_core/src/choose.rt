// What a turn sees and chooses, by what is remembered and what stands there.
ghost use Rattle.std.specs.Prelude.{◌≡◌, false, not, ◌&&◌, ◌||◌, None, Ok, IsTrue, IfOk, IsErrOf};
ghost use Rattle.dvc_base.specs.Answer.{fault_in, IsAnswer};
ghost use Rattle.dvc_base.specs.Fault.{MayBe, IsHonest};
ghost use Rattle.dvc_base.specs.declared.fault.Fault.TheVariants.{WorldFault};
ghost use Rattle.world_api.specs.History.{IsCaused};
ghost use Rattle.world_api.specs.Outside.{tree_of, IsUntouched};
ghost use Rattle.lock_files.specs.Book.{entry_of};
ghost use Rattle.lock_files.specs.Form.{IsBook};
ghost use Rattle.change_check.specs.Sound.{AreCanonical};
ghost use Rattle.repro_laws.specs.Stage.{params_at, IsStage};
ghost use Rattle.repro_laws.specs.Entries.{seen_at};
ghost use Rattle.repro_laws.specs.Choices.{is_same_as};
ghost use Rattle.repro_laws.specs.Refusals.{see_fault};
ghost use Rattle.repro_laws.specs.Due.{standing_of, choice_at};
ghost use Rattle.repro_core.specs.Steps.{choice_if, IsGoodSeen, see_kinds};
ghost use Rattle.repro_core.specs.Telling.{TellsOwn};

use crate::see::see;
use change_check::{Seen, same_entry};
use dvc_base::{Fault, ParamFiles};
use lock_files::LockBook;
use repro_laws::{Flags, Stage};
use std::alloc::Global;
use world_api::ReadFiles;

/// What a turn has seen, with the parameters as they stand in their files, and whether it skips the stage or runs it.
#[derive(Drop)]
pub(crate) struct Chosen {
    pub(crate) skips: bool,
    pub(crate) seen: Seen,
    pub(crate) params: ParamFiles,
}

/// Looks at what stands at the stage's paths, and chooses. The first that is refused ends it: a dependency, in the order
/// in which they are written, a parameter, and then an output.
pub(crate) fn choose_turn<F: ReadFiles>(
    alloc: Global,
    files: &mut F,
    lock: &LockBook,
    stage: &Stage,
    flags: Flags,
) -> Result<Chosen, Fault>
    requires stage { IsStage stage.now }
    requires form { IsBook lock.now }
    // nothing is restored yet
    requires no_restore { flags.run_cache ≡ false }
    ensures answer { IsTrue F.tells → IsAnswer (fault_in result) (see_fault stage.now (tree_of (F.history files.old))) }
    ensures read { IsTrue F.tells → IfOk result (λ chosen.
        params_at stage.now (tree_of (F.history files.old)) ≡ Ok chosen.params) }
    ensures seen { IsTrue F.tells → IfOk result (λ chosen.
        chosen.seen ≡ seen_at stage.now chosen.params (tree_of (F.history files.old))) }
    ensures chosen { IsTrue F.tells → IfOk result (λ chosen.
        choice_at flags stage.now chosen.params (standing_of (tree_of (F.history files.old)) lock.now)
        ≡ (choice_if chosen.skips, None)) }
    ensures good { IfOk result (λ chosen. IsGoodSeen stage.now chosen.params chosen.seen) }
    ensures unchanged { IsUntouched F.tells (F.history files.old) (F.history files.new) }
    ensures told { TellsOwn stage.now (fault_in result) }
    ensures kinds { MayBe see_kinds (fault_in result) }
    ensures honest { IsHonest F.tells (fault_in result) }
    ensures cause { IsCaused (F.faults files.old) (F.faults files.new) (IsErrOf result WorldFault) }
{
    let looked = see(alloc, files, stage)?;
    let skips = can_skip(lock, stage, flags, &looked.seen);
    Ok(Chosen {
        skips,
        seen: looked.seen,
        params: looked.params,
    })
}

// Whether nothing is forced, the stage doesn't always count as changed, and its entry tells just what is seen.
fn can_skip(lock: &LockBook, stage: &Stage, flags: Flags, seen: &Seen) -> bool
    requires form { IsBook lock.now }
    requires canonical { AreCanonical seen.now.params }
    ensures exact { result ≡
        (not (flags.force || stage.now.always) && is_same_as (entry_of lock.now stage.now.name) seen.now) }
{
    if flags.force || stage.always {
        return false;
    }
    match lock.get(stage.name.as_str()) {
        Some(entry) => same_entry(entry, seen),
        None => false,
    }
}
