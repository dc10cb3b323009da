// The turn of a single stage of a plan.
ghost use Rattle.std.specs.Prelude.{◌≡◌, ◌<◌, ◌++◌, length, false, Some, IsTrue, IfOk, OnOk, IsErrOf};
ghost use Rattle.dvc_base.specs.Answer.{fault_in, GainsFront};
ghost use Rattle.dvc_base.specs.Fault.{MayBe, IsHonest};
ghost use Rattle.dvc_base.specs.declared.fault.Fault.TheVariants.{WorldFault, OutFault};
ghost use Rattle.world_api.specs.History.{IsCaused};
ghost use Rattle.world_api.specs.Outside.{tree_of, WithEffect};
ghost use Rattle.world_api.specs.Writes.{CanWrite};
ghost use Rattle.world_api.specs.Layout.{lock_path};
ghost use Rattle.lock_files.specs.Form.{IsBook};
ghost use Rattle.repro_laws.specs.Due.{lines_of};
ghost use Rattle.repro_laws.specs.Sound.{lock_of};
ghost use Rattle.repro_laws.specs.declared.stage.Choice.{Choice as AChoice};
ghost use Rattle.repro_core.specs.Steps.{turn_kinds};
ghost use Rattle.repro_core.specs.Telling.{TellsOwn};
ghost use Rattle.repro_core.specs.Turning.{Turned, ReportsDue};
ghost use Rattle.stage_plan.specs.Plan.{stage_at};
ghost use Rattle.plan_turns.specs.Repro.{CanTurnAlone};

use dvc_base::Fault;
use repro_core::take_turn;
use repro_laws::{Choice, Flags};
use stage_plan::Plan;
use std::alloc::Global;
use world_api::{Sink, World};

/// Takes the turn of one stage of a plan, and answers what it has chosen. A dependency is told as one that a stage makes where
/// it lies inside an output of any stage of the plan that has turns.
///
/// It refuses as `take_turn` does.
pub fn run_stage<W: World, K: Sink>(
    alloc: Global,
    world: &mut W,
    plan: &mut Plan,
    stage: u32,
    flags: Flags,
    out: &mut K,
) -> Result<Choice, Fault>
    requires there { stage < length plan.old.stages }
    requires alone { CanTurnAlone (stage_at plan.old stage) }
    requires form { IsBook plan.old.lock }
    requires lock { IsTrue W.tells → lock_of (tree_of (W.history world.old)) ≡ Some plan.old.lock }
    requires place { IsTrue W.tells → CanWrite lock_path (tree_of (W.history world.old)) }
    // nothing is restored yet
    requires no_restore { flags.run_cache ≡ false }
    ensures turned { WithEffect W.tells (W.history world.old) (λ effect. (choice : AChoice)
        × IfOk result (λ chosen. chosen ≡ choice)
        × Turned flags effect (stage_at plan.old stage) choice plan.old.lock plan.new.lock (fault_in result)
        (W.history world.old) (W.history world.new)) }
    ensures remembered { IsTrue W.tells → OnOk result (lock_of (tree_of (W.history world.new)) ≡ Some plan.new.lock) }
    ensures place { IsTrue W.tells → OnOk result (CanWrite lock_path (tree_of (W.history world.new))) }
    ensures report { IsTrue W.tells → IsTrue K.tells → ReportsDue flags (stage_at plan.old stage) plan.old.lock (fault_in result)
        (W.history world.old) (W.history world.new) (K.taken out.old) (K.taken out.new) }
    ensures lines { IsTrue K.tells → IfOk result (λ choice.
        K.taken out.new ≡ K.taken out.old ++ lines_of (stage_at plan.old stage) choice) }
    ensures front { IsTrue K.tells → (choice : AChoice)
        × GainsFront (K.taken out.old) (lines_of (stage_at plan.old stage) choice) (K.taken out.new) }
    // Of the plan nothing changes but what is remembered.
    ensures kept { plan.new ≡ record {
      stages = plan.old.stages;
      tracks = plan.old.tracks;
      lock = plan.new.lock;
      graph = plan.old.graph;
    } }
    ensures form { IsBook plan.new.lock }
    ensures world_cause { IsCaused (W.faults world.old) (W.faults world.new) (IsErrOf result WorldFault) }
    ensures out_cause { IsCaused (K.faults out.old) (K.faults out.new) (IsErrOf result OutFault) }
    ensures told { TellsOwn (stage_at plan.old stage) (fault_in result) }
    ensures kinds { MayBe turn_kinds (fault_in result) }
    ensures honest { IsHonest W.tells (fault_in result) }
{
    let stage = plan.stage(alloc, stage)?;
    take_turn(alloc, world, &mut plan.lock, &stage, flags, out)
}
