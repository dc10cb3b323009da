// All turns of a plan.
ghost use Rattle.std.specs.Prelude.{◌≡◌, ◌+◌, length, false, IsTrue, IfOk, IsErrOf};
ghost use Rattle.dvc_base.specs.Answer.{fault_in};
ghost use Rattle.dvc_base.specs.Fault.{MayBe, IsHonest};
ghost use Rattle.dvc_base.specs.declared.fault.Fault.TheVariants.{WorldFault, OutFault};
ghost use Rattle.world_api.specs.History.{IsCaused};
ghost use Rattle.world_api.specs.Outside.{tree_of};
ghost use Rattle.lock_files.specs.Form.{IsBook};
ghost use Rattle.repro_laws.specs.Sound.{IsReport};
ghost use Rattle.repro_core.specs.Summaries.{total};
ghost use Rattle.stage_plan.specs.Plan.{turns_at};
ghost use Rattle.plan_turns.specs.Repro.{CanTurn, IsReady, Takes, plan_turn_kinds};

use dvc_base::Fault;
use repro_core::{Summary, take_turns};
use repro_laws::Flags;
use stage_plan::{Chosen, Plan};
use std::alloc::Global;
use track_record::record_tracks;
use world_api::{Sink, World};

/// Records the chosen track files of a plan, and takes the turn of each chosen stage in order. It answers how many ran, were
/// restored and were skipped.
///
/// The first refusal ends it, and is answered: those of `record_tracks`, and then those of `take_turns`.
pub fn repro<W: World, K: Sink>(
    alloc: Global,
    world: &mut W,
    plan: &mut Plan,
    chosen: &Chosen,
    flags: Flags,
    out: &mut K,
) -> Result<Summary, Fault>
    requires plan { CanTurn (turns_at plan.old chosen.now) plan.old.lock }
    requires ready { IsTrue W.tells → IsReady (turns_at plan.old chosen.now) plan.old.lock (tree_of (W.history world.old)) }
    // nothing is restored yet
    requires no_restore { flags.run_cache ≡ false }
    ensures takes { IsTrue W.tells → Takes flags (turns_at plan.old chosen.now) plan.old.lock plan.new.lock result
        (W.history world.old) (W.history world.new) K.tells (K.taken out.old) (K.taken out.new) }
    // Over any world the lines are those of a choice for each stage, or a front of them, and each stage is counted.
    ensures lines { IsTrue K.tells →
        IsReport (turns_at plan.old chosen.now).stages (fault_in result) (K.taken out.old) (K.taken out.new) }
    ensures counted { IfOk result (λ summary. total summary ≡ length (turns_at plan.old chosen.now).stages) }
    // Of the plan nothing changes but what is remembered.
    ensures kept { plan.new ≡ record {
      stages = plan.old.stages;
      tracks = plan.old.tracks;
      lock = plan.new.lock;
      graph = plan.old.graph;
    } }
    ensures form { IsBook plan.new.lock }
    ensures world_cause { IsCaused (W.faults world.old) (W.faults world.new) (IsErrOf result WorldFault) }
    ensures out_cause { IsCaused (K.faults out.old) (K.faults out.new) (IsErrOf result OutFault) }
    ensures kinds { MayBe plan_turn_kinds (fault_in result) }
    ensures honest { IsHonest W.tells (fault_in result) }
{
    let turns = plan.turns(alloc, chosen)?;
    record_tracks(alloc, world, turns.tracks.as_slice())?;
    take_turns(
        alloc,
        world,
        &mut plan.lock,
        turns.stages.as_slice(),
        flags,
        out,
    )
}
