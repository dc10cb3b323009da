// The run of a stage, up to the lock with its entry.
ghost use Rattle.std.specs.Prelude.{◌≡◌, ◌∷◌, [], true, None, Some, Ok, IsTrue, OnOk, IsErrOf};
ghost use Rattle.dvc_base.specs.Answer.{fault_in};
ghost use Rattle.dvc_base.specs.Fault.{MayBe, IsHonest};
ghost use Rattle.dvc_base.specs.declared.fault.Fault.TheVariants.{WorldFault};
ghost use Rattle.world_api.specs.History.{IsCaused};
ghost use Rattle.world_api.specs.Outside.{tree_of, WithEffect};
ghost use Rattle.world_api.specs.Writes.{CanWrite};
ghost use Rattle.world_api.specs.Layout.{lock_path};
ghost use Rattle.lock_files.specs.Form.{IsBook};
ghost use Rattle.repro_laws.specs.Stage.{params_at, job_with, IsStage};
ghost use Rattle.repro_laws.specs.Entries.{seen_at};
ghost use Rattle.repro_laws.specs.Refusals.{see_fault};
ghost use Rattle.repro_laws.specs.Due.{standing_of, choice_at};
ghost use Rattle.repro_laws.specs.Headline.{is_ordered, IsKept};
ghost use Rattle.repro_laws.specs.Moments.{is_own};
ghost use Rattle.repro_laws.specs.Sound.{lock_of};
ghost use Rattle.repro_laws.specs.declared.stage.Choice.TheVariants.{Run};
ghost use Rattle.repro_core.specs.Steps.{IsPrepared, IsGoodSeen, run_kinds};
ghost use Rattle.repro_core.specs.Telling.{TellsOwn};
ghost use Rattle.repro_core.specs.Turning.{Turned};

use crate::choose::Chosen;
use crate::prepared::{Prepared, prepared_of};
use crate::record::{entry_of_run, record};
use crate::store::store_made;
use crate::work::run_anew;
use dvc_base::Fault;
use lock_files::LockBook;
use repro_laws::{Flags, Stage};
use std::alloc::Global;
use world_api::World;

/// Runs the stage, puts what it has made into the cache, and remembers it with what was seen of its dependencies and
/// parameters.
pub(crate) fn run_and_record<W: World>(
    alloc: Global,
    world: &mut W,
    lock: &mut LockBook,
    stage: &Stage,
    flags: Flags,
    chosen: &Chosen,
) -> Result<(), Fault>
    requires stage { IsStage stage.now }
    requires kept { IsKept is_own stage.now }
    requires ordered { is_ordered (stage.now ∷ []) ≡ true }
    requires form { IsBook lock.old }
    requires lock { IsTrue W.tells → lock_of (tree_of (W.history world.old)) ≡ Some lock.old }
    requires place { IsTrue W.tells → CanWrite lock_path (tree_of (W.history world.old)) }
    requires chosen { IsTrue W.tells →
        choice_at flags stage.now chosen.now.params (standing_of (tree_of (W.history world.old)) lock.old) ≡ (Run, None) }
    requires seen { IsTrue W.tells → see_fault stage.now (tree_of (W.history world.old)) ≡ None }
    requires read { IsTrue W.tells → params_at stage.now (tree_of (W.history world.old)) ≡ Ok chosen.now.params }
    requires told { IsTrue W.tells →
        chosen.now.seen ≡ seen_at stage.now chosen.now.params (tree_of (W.history world.old)) }
    requires good { IsGoodSeen stage.now chosen.now.params chosen.now.seen }
    ensures turned { WithEffect W.tells (W.history world.old) (λ effect.
        Turned flags effect stage.now Run lock.old lock.new (fault_in result) (W.history world.old) (W.history world.new)) }
    // After Ok the lock is that of the tree, and can be written again.
    ensures remembered { IsTrue W.tells → OnOk result (lock_of (tree_of (W.history world.new)) ≡ Some lock.new) }
    ensures place { IsTrue W.tells → OnOk result (CanWrite lock_path (tree_of (W.history world.new))) }
    ensures form { IsBook lock.new }
    ensures told { TellsOwn stage.now (fault_in result) }
    ensures kinds { MayBe run_kinds (fault_in result) }
    ensures honest { IsHonest W.tells (fault_in result) }
    ensures cause { IsCaused (W.faults world.old) (W.faults world.new) (IsErrOf result WorldFault) }
{
    let prepared = prepared_of(alloc, stage, chosen)?;
    run_prepared(alloc, world, lock, stage, flags, chosen, &prepared)
}

// The run, with all at hand that it needs memory for before its first change.
fn run_prepared<W: World>(
    alloc: Global,
    world: &mut W,
    lock: &mut LockBook,
    stage: &Stage,
    flags: Flags,
    chosen: &Chosen,
    prepared: &Prepared,
) -> Result<(), Fault>
    requires stage { IsStage stage.now }
    requires kept { IsKept is_own stage.now }
    requires ordered { is_ordered (stage.now ∷ []) ≡ true }
    requires form { IsBook lock.old }
    requires lock { IsTrue W.tells → lock_of (tree_of (W.history world.old)) ≡ Some lock.old }
    requires place { IsTrue W.tells → CanWrite lock_path (tree_of (W.history world.old)) }
    requires chosen { IsTrue W.tells →
        choice_at flags stage.now chosen.now.params (standing_of (tree_of (W.history world.old)) lock.old) ≡ (Run, None) }
    requires seen { IsTrue W.tells → see_fault stage.now (tree_of (W.history world.old)) ≡ None }
    requires read { IsTrue W.tells → params_at stage.now (tree_of (W.history world.old)) ≡ Ok chosen.now.params }
    requires told { IsTrue W.tells →
        chosen.now.seen ≡ seen_at stage.now chosen.now.params (tree_of (W.history world.old)) }
    requires good { IsGoodSeen stage.now chosen.now.params chosen.now.seen }
    requires prepared { IsPrepared stage.now prepared.now }
    requires job { prepared.now.job ≡ job_with stage.now chosen.now.params }
    ensures turned { WithEffect W.tells (W.history world.old) (λ effect.
        Turned flags effect stage.now Run lock.old lock.new (fault_in result) (W.history world.old) (W.history world.new)) }
    ensures remembered { IsTrue W.tells → OnOk result (lock_of (tree_of (W.history world.new)) ≡ Some lock.new) }
    ensures place { IsTrue W.tells → OnOk result (CanWrite lock_path (tree_of (W.history world.new))) }
    ensures form { IsBook lock.new }
    ensures told { TellsOwn stage.now (fault_in result) }
    ensures kinds { MayBe run_kinds (fault_in result) }
    ensures honest { IsHonest W.tells (fault_in result) }
    ensures cause { IsCaused (W.faults world.old) (W.faults world.new) (IsErrOf result WorldFault) }
{
    run_anew(alloc, world, stage, prepared)?;
    let outs = store_made(alloc, world, stage)?;
    let entry = entry_of_run(alloc, stage, chosen, outs)?;
    record(alloc, world, lock, &prepared.lock, &stage.name, entry)
}
