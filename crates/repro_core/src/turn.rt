// The turn of a stage: what stands there is named, a skip or a run is chosen, its lines are put, the outputs are put into the
// cache, and a run is remembered once it has ended.
ghost use Rattle.std.specs.Prelude.{◌≡◌, ◌++◌, ◌∷◌, [], true, false, IsTrue, IfOk, OnOk, IsErrOf, IsSome, Some, None, Ok};
ghost use Rattle.dvc_base.specs.Answer.{fault_in, GainsFront};
ghost use Rattle.dvc_base.specs.Fault.{MayBe, IsHonest};
ghost use Rattle.dvc_base.specs.declared.fault.Fault.TheVariants.{WorldFault, OutFault};
ghost use Rattle.world_api.specs.History.{IsCaused};
ghost use Rattle.world_api.specs.Outside.{tree_of, WithEffect};
ghost use Rattle.world_api.specs.Writes.{CanWrite};
ghost use Rattle.world_api.specs.Layout.{lock_path};
ghost use Rattle.lock_files.specs.Form.{IsBook};
ghost use Rattle.repro_laws.specs.Stage.{params_at, IsStage};
ghost use Rattle.repro_laws.specs.Refusals.{see_fault};
ghost use Rattle.repro_laws.specs.Entries.{seen_at};
ghost use Rattle.repro_laws.specs.Due.{standing_of, choice_at, lines_of};
ghost use Rattle.repro_laws.specs.Headline.{is_ordered, IsKept};
ghost use Rattle.repro_laws.specs.Moments.{is_own};
ghost use Rattle.repro_laws.specs.Sound.{lock_of};
ghost use Rattle.repro_laws.specs.declared.stage.Choice.{Choice as AChoice};
ghost use Rattle.repro_core.specs.Steps.{choice_if, IsGoodSeen, run_kinds, turn_kinds};
ghost use Rattle.repro_core.specs.Telling.{TellsOwn};
ghost use Rattle.repro_core.specs.Turning.{Turned, ReportsDue};

use crate::choose::{Chosen, choose_turn};
use crate::lines::put_choice;
use crate::run::run_and_record;
use crate::store::keep_outputs;
use dvc_base::Fault;
use lock_files::LockBook;
use repro_laws::{Choice, Flags, Stage};
use std::alloc::Global;
use world_api::{Sink, World};

/// Takes the turn of one stage, and answers what it has chosen: a skip where what is remembered of the stage is the same as
/// what stands there and nothing is forced, and else a run, after which the lock is published with the stage's entry. After
/// both of them the cached outputs are whole in the cache.
///
/// It answers `MissingDependency` with the first dependency, as they are written, that is missing; `NoFile`, `Yaml`, `Schema`
/// and `NoKey` of a file of parameters; `TooLarge` with the limit that one of these or an output passes; and of a run
/// `NotFolder` with a file that stands at or above the stage's folder or above an output, `CommandFailed` with a code that
/// isn't 0, and `MissingOutput` with the first output that is missing.
/// `NotFolder` and `TooLarge` come too where a file or an object is in the way of the cache.
#[inline(never)]
pub fn take_turn<W: World, K: Sink>(
    alloc: Global,
    world: &mut W,
    lock: &mut LockBook,
    stage: &Stage,
    flags: Flags,
    out: &mut K,
) -> Result<Choice, Fault>
    requires stage { IsStage stage.now }
    requires kept { IsKept is_own stage.now }
    requires ordered { is_ordered (stage.now ∷ []) ≡ true }
    requires form { IsBook lock.old }
    requires lock { IsTrue W.tells → lock_of (tree_of (W.history world.old)) ≡ Some lock.old }
    requires place { IsTrue W.tells → CanWrite lock_path (tree_of (W.history world.old)) }
    // nothing is restored yet
    requires no_restore { flags.run_cache ≡ false }

    // It answers the refusal that is due, where one is, and else Ok, which leaves a turn of the choice. The job has run where it
    // is due. In each moment only the outputs, the folders that a run needs and the tool's own files are touched, no whole
    // object is lost, and the lock is as it was, or has the entry of a run that has ended.
    ensures turned { WithEffect W.tells (W.history world.old) (λ effect. (choice : AChoice)
        × IfOk result (λ chosen. chosen ≡ choice)
        × Turned flags effect stage.now choice lock.old lock.new (fault_in result) (W.history world.old) (W.history world.new)) }
    // After Ok the lock is that of the tree, and can be written again.
    ensures remembered { IsTrue W.tells → OnOk result (lock_of (tree_of (W.history world.new)) ≡ Some lock.new) }
    ensures place { IsTrue W.tells → OnOk result (CanWrite lock_path (tree_of (W.history world.new))) }
    // The lines are the report of what is due.
    ensures report { IsTrue W.tells → IsTrue K.tells → ReportsDue flags stage.now lock.old (fault_in result)
        (W.history world.old) (W.history world.new) (K.taken out.old) (K.taken out.new) }
    // Over a world that tells nothing the lines are still those of the choice.
    ensures lines { IsTrue K.tells → IfOk result (λ choice.
        K.taken out.new ≡ K.taken out.old ++ lines_of stage.now choice) }
    ensures front { IsTrue K.tells → (choice : AChoice)
        × GainsFront (K.taken out.old) (lines_of stage.now choice) (K.taken out.new) }
    // What is refused by what is seen, and an output that fails, come before anything is touched.
    ensures refused_first { IsTrue W.tells → IsSome (see_fault stage.now (tree_of (W.history world.old))) →
        W.history world.new ≡ W.history world.old }
    ensures lines_first { IsTrue W.tells → fault_in result ≡ Some OutFault → W.history world.new ≡ W.history world.old }
    // The lock stays one that can be printed.
    ensures form { IsBook lock.new }
    // The outside is blamed only where it has counted a failure.
    ensures world_cause { IsCaused (W.faults world.old) (W.faults world.new) (IsErrOf result WorldFault) }
    ensures out_cause { IsCaused (K.faults out.old) (K.faults out.new) (IsErrOf result OutFault) }
    // What a refusal tells of is the stage's own, or the cache's.
    ensures told { TellsOwn stage.now (fault_in result) }
    ensures kinds { MayBe turn_kinds (fault_in result) }
    ensures honest { IsHonest W.tells (fault_in result) }
{
    let chosen = choose_turn(alloc, world, lock, stage, flags)?;
    end_turn(alloc, world, lock, stage, flags, &chosen, out)
}

// The turn by what was seen and chosen: its lines come before anything is touched.
fn end_turn<W: World, K: Sink>(
    alloc: Global,
    world: &mut W,
    lock: &mut LockBook,
    stage: &Stage,
    flags: Flags,
    chosen: &Chosen,
    out: &mut K,
) -> Result<Choice, Fault>
    requires stage { IsStage stage.now }
    requires kept { IsKept is_own stage.now }
    requires ordered { is_ordered (stage.now ∷ []) ≡ true }
    requires form { IsBook lock.old }
    requires lock { IsTrue W.tells → lock_of (tree_of (W.history world.old)) ≡ Some lock.old }
    requires place { IsTrue W.tells → CanWrite lock_path (tree_of (W.history world.old)) }
    requires seen { IsTrue W.tells → see_fault stage.now (tree_of (W.history world.old)) ≡ None }
    requires read { IsTrue W.tells → params_at stage.now (tree_of (W.history world.old)) ≡ Ok chosen.now.params }
    requires told { IsTrue W.tells →
        chosen.now.seen ≡ seen_at stage.now chosen.now.params (tree_of (W.history world.old)) }
    requires chosen { IsTrue W.tells →
        choice_at flags stage.now chosen.now.params (standing_of (tree_of (W.history world.old)) lock.old)
        ≡ (choice_if chosen.now.skips, None) }
    requires good { IsGoodSeen stage.now chosen.now.params chosen.now.seen }
    ensures turned { WithEffect W.tells (W.history world.old) (λ effect. (choice : AChoice)
        × IfOk result (λ chosen. chosen ≡ choice)
        × Turned flags effect stage.now choice lock.old lock.new (fault_in result) (W.history world.old) (W.history world.new)) }
    ensures remembered { IsTrue W.tells → OnOk result (lock_of (tree_of (W.history world.new)) ≡ Some lock.new) }
    ensures place { IsTrue W.tells → OnOk result (CanWrite lock_path (tree_of (W.history world.new))) }
    ensures report { IsTrue W.tells → IsTrue K.tells → ReportsDue flags stage.now lock.old (fault_in result)
        (W.history world.old) (W.history world.new) (K.taken out.old) (K.taken out.new) }
    ensures lines { IsTrue K.tells → IfOk result (λ choice.
        K.taken out.new ≡ K.taken out.old ++ lines_of stage.now choice) }
    ensures front { IsTrue K.tells → (choice : AChoice)
        × GainsFront (K.taken out.old) (lines_of stage.now choice) (K.taken out.new) }
    ensures refused_first { IsTrue W.tells → IsSome (see_fault stage.now (tree_of (W.history world.old))) →
        W.history world.new ≡ W.history world.old }
    ensures lines_first { IsTrue W.tells → fault_in result ≡ Some OutFault → W.history world.new ≡ W.history world.old }
    ensures form { IsBook lock.new }
    ensures world_cause { IsCaused (W.faults world.old) (W.faults world.new) (IsErrOf result WorldFault) }
    ensures out_cause { IsCaused (K.faults out.old) (K.faults out.new) (IsErrOf result OutFault) }
    ensures told { TellsOwn stage.now (fault_in result) }
    ensures kinds { MayBe turn_kinds (fault_in result) }
    ensures honest { IsHonest W.tells (fault_in result) }
{
    put_choice(alloc, stage, choice_by(chosen.skips), out)?;
    take_choice(alloc, world, lock, stage, flags, chosen)
}

fn choice_by(skips: bool) -> Choice
    ensures { result ≡ choice_if skips }
{
    if skips { Choice::Skip } else { Choice::Run }
}

// What is chosen is done: after a skip and a run the cached outputs are whole in the cache.
fn take_choice<W: World>(
    alloc: Global,
    world: &mut W,
    lock: &mut LockBook,
    stage: &Stage,
    flags: Flags,
    chosen: &Chosen,
) -> Result<Choice, Fault>
    requires stage { IsStage stage.now }
    requires kept { IsKept is_own stage.now }
    requires ordered { is_ordered (stage.now ∷ []) ≡ true }
    requires form { IsBook lock.old }
    requires lock { IsTrue W.tells → lock_of (tree_of (W.history world.old)) ≡ Some lock.old }
    requires place { IsTrue W.tells → CanWrite lock_path (tree_of (W.history world.old)) }
    requires seen { IsTrue W.tells → see_fault stage.now (tree_of (W.history world.old)) ≡ None }
    requires read { IsTrue W.tells → params_at stage.now (tree_of (W.history world.old)) ≡ Ok chosen.now.params }
    requires told { IsTrue W.tells →
        chosen.now.seen ≡ seen_at stage.now chosen.now.params (tree_of (W.history world.old)) }
    requires chosen { IsTrue W.tells →
        choice_at flags stage.now chosen.now.params (standing_of (tree_of (W.history world.old)) lock.old)
        ≡ (choice_if chosen.now.skips, None) }
    requires good { IsGoodSeen stage.now chosen.now.params chosen.now.seen }
    ensures turned { WithEffect W.tells (W.history world.old) (λ effect.
        Turned flags effect stage.now (choice_if chosen.now.skips) lock.old lock.new (fault_in result)
        (W.history world.old) (W.history world.new)) }
    ensures taken { IfOk result (λ choice. choice ≡ choice_if chosen.now.skips) }
    ensures remembered { IsTrue W.tells → OnOk result (lock_of (tree_of (W.history world.new)) ≡ Some lock.new) }
    ensures place { IsTrue W.tells → OnOk result (CanWrite lock_path (tree_of (W.history world.new))) }
    ensures form { IsBook lock.new }
    ensures cause { IsCaused (W.faults world.old) (W.faults world.new) (IsErrOf result WorldFault) }
    ensures told { TellsOwn stage.now (fault_in result) }
    ensures kinds { MayBe run_kinds (fault_in result) }
    ensures honest { IsHonest W.tells (fault_in result) }
{
    if chosen.skips {
        keep_outputs(alloc, world, stage, chosen.seen.outs.as_slice())?;
        Ok(Choice::Skip)
    } else {
        run_and_record(alloc, world, lock, stage, flags, chosen)?;
        Ok(Choice::Run)
    }
}
