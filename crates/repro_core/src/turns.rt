// The turns of stages, one after another.
ghost use Rattle.std.specs.Prelude.{◌≡◌, ◌<◌, ◌^◌, [], false, length, IsTrue, IfOk, IfErr, OnOk, IsErrOf, Some};
ghost use Rattle.dvc_base.specs.Answer.{fault_in};
ghost use Rattle.dvc_base.specs.Fault.{MayBe, IsHonest};
ghost use Rattle.dvc_base.specs.declared.fault.Fault.TheVariants.{WorldFault, OutFault};
ghost use Rattle.world_api.specs.History.{Passes, IsCaused};
ghost use Rattle.world_api.specs.Outside.{tree_of, jobs_of, WithEffect};
ghost use Rattle.world_api.specs.Writes.{CanWrite};
ghost use Rattle.world_api.specs.Layout.{lock_path};
ghost use Rattle.lock_files.specs.Form.{IsBook};
ghost use Rattle.repro_laws.specs.Due.{standing_of, due, fault_of, report, jobs};
ghost use Rattle.repro_laws.specs.Turns.{state};
ghost use Rattle.repro_laws.specs.Headline.{IsPlanned, LeavesAnew};
ghost use Rattle.repro_laws.specs.Moments.{is_own, InTurns};
ghost use Rattle.repro_laws.specs.Sound.{lock_of, AreReliable, IsAnswerAt, GainsAt, AreHalted, IsReport};
ghost use Rattle.repro_core.specs.Steps.{turn_kinds};
ghost use Rattle.repro_core.specs.Summaries.{summary_of, total};
ghost use Rattle.repro_core.specs.Telling.{TellsOfOne};
ghost use Rattle.repro_core.specs.Turning.{JobsGain, AreTaken};

use crate::summary::Summary;
use crate::turn::take_turn;
use dvc_base::Fault;
use lock_files::LockBook;
use repro_laws::{Flags, Stage};
use std::alloc::Global;
use world_api::{Sink, World};

/// Takes the turn of each stage in order. The lock is that of the workspace.
///
/// The first refusal ends it, and is answered: those of `take_turn`.
pub fn take_turns<W: World, K: Sink>(
    alloc: Global,
    world: &mut W,
    lock: &mut LockBook,
    stages: &[Stage],
    flags: Flags,
    out: &mut K,
) -> Result<Summary, Fault>
    requires planned { IsPlanned is_own stages.now }
    requires few { length stages.now < 2 ^ 32 }
    requires form { IsBook lock.old }
    requires lock { IsTrue W.tells → lock_of (tree_of (W.history world.old)) ≡ Some lock.old }
    requires place { IsTrue W.tells → CanWrite lock_path (tree_of (W.history world.old)) }
    // nothing is restored yet
    requires no_restore { flags.run_cache ≡ false }

    // Ok leaves the outputs and the lock's entries of running every stage anew, and all else as before but for folders on the
    // stages' ways: where what was remembered is true, and no two contents met share an MD5.
    ensures headline { OnOk result (WithEffect W.tells (W.history world.old) (λ effect.
        AreReliable effect stages.now lock.old (W.history world.old).present (W.history world.new).present →
        LeavesAnew is_own effect stages.now
        (state (tree_of (W.history world.old)) lock.old) (state (tree_of (W.history world.new)) lock.new))) }
    // Whatever was remembered, Ok leaves turns of all stages, whose jobs have run.
    ensures taken { IfOk result (λ summary. WithEffect W.tells (W.history world.old) (λ effect.
        (turns : AreTaken flags effect stages.now lock.old lock.new (W.history world.old).present (W.history world.new).present)
        × (summary ≡ summary_of turns.ended))) }
    ensures counted { IfOk result (λ summary. total summary ≡ length stages.now) }
    ensures remembered { IsTrue W.tells → OnOk result (lock_of (tree_of (W.history world.new)) ≡ Some lock.new) }
    ensures form { IsBook lock.new }

    // It answers the refusal that is due, where one is, and else Ok; the jobs and the lines are those that are due.
    ensures answer { WithEffect W.tells (W.history world.old) (λ effect.
        AreReliable effect stages.now lock.old (W.history world.old).present (W.history world.new).present →
        IsAnswerAt (tree_of (W.history world.new)) (fault_in result)
        (fault_of flags effect stages.now (standing_of (tree_of (W.history world.old)) lock.old))) }
    ensures ran { WithEffect W.tells (W.history world.old) (λ effect.
        AreReliable effect stages.now lock.old (W.history world.old).present (W.history world.new).present →
        JobsGain (tree_of (W.history world.new)) (fault_in result) (jobs_of (W.history world.old))
        (jobs (due flags effect stages.now (standing_of (tree_of (W.history world.old)) lock.old)))
        (jobs_of (W.history world.new))) }
    ensures report { IsTrue K.tells → WithEffect W.tells (W.history world.old) (λ effect.
        AreReliable effect stages.now lock.old (W.history world.old).present (W.history world.new).present →
        GainsAt (tree_of (W.history world.new)) (fault_in result) (K.taken out.old)
        (report (due flags effect stages.now (standing_of (tree_of (W.history world.old)) lock.old))) (K.taken out.new)) }

    // Over a world that tells nothing the lines are still those of a choice for each stage, or a front of them.
    ensures lines { IsTrue K.tells → IsReport stages.now (fault_in result) (K.taken out.old) (K.taken out.new) }

    // Where no turn is due nothing is touched.
    ensures untouched { WithEffect W.tells (W.history world.old) (λ effect.
        due flags effect stages.now (standing_of (tree_of (W.history world.old)) lock.old) ≡ [] →
        W.history world.new ≡ W.history world.old) }

    // After any other answer the lock has the entries of the turns that ended, and that of the next one only where a
    // call to the world failed.
    ensures halted { IfErr result (λ fault. WithEffect W.tells (W.history world.old) (λ effect.
        AreHalted flags effect stages.now lock.old fault (W.history world.old).present (W.history world.new).present)) }

    // In each moment only the outputs, the folders that runs need and the tool's own files are touched, no whole object is
    // lost, and the lock is as it was, or has the entries of runs that have ended, in order and none skipped.
    ensures moments { WithEffect W.tells (W.history world.old) (λ effect.
        Passes (InTurns flags effect stages.now lock.old (W.history world.old).present (W.history world.new).present)
        (W.history world.old) (W.history world.new)) }

    // The outside is blamed only where it has counted a failure.
    ensures world_cause { IsCaused (W.faults world.old) (W.faults world.new) (IsErrOf result WorldFault) }
    ensures out_cause { IsCaused (K.faults out.old) (K.faults out.new) (IsErrOf result OutFault) }
    // What a refusal tells of is one of the stages, and its own.
    ensures told { IfErr result (λ fault. TellsOfOne stages.now (Some fault)) }
    ensures kinds { MayBe turn_kinds (fault_in result) }
    ensures honest { IsHonest W.tells (fault_in result) }
{
    let mut summary = Summary::none();
    for stage in stages {
        let choice = take_turn(alloc, world, lock, stage, flags, out)?;
        summary.count(choice);
    }
    Ok(summary)
}
