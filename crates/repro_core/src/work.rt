// The work of a run, up to the look at what it left: the way is looked at, the outputs are cleared, folders made, and the
// job run.
ghost use Rattle.std.specs.Prelude.{◌≡◌, ◌∷◌, [], true, None, IsTrue, OnOk, IsErrOf};
ghost use Rattle.dvc_base.specs.Answer.{fault_in};
ghost use Rattle.dvc_base.specs.Fault.{MayBe, IsHonest};
ghost use Rattle.dvc_base.specs.declared.fault.Fault.TheVariants.{WorldFault};
ghost use Rattle.world_api.specs.Tree.{value_at};
ghost use Rattle.world_api.specs.History.{IsCaused};
ghost use Rattle.world_api.specs.Outside.{tree_of, WithEffect, PassesFrom};
ghost use Rattle.world_api.specs.Writes.{IsNoFileAt};
ghost use Rattle.world_api.specs.Layout.{dvc_path};
ghost use Rattle.repro_laws.specs.Stage.{IsStage};
ghost use Rattle.repro_laws.specs.Refusals.{first_of, see_fault, refused_out};
ghost use Rattle.repro_laws.specs.Headline.{is_ordered, IsKept};
ghost use Rattle.repro_laws.specs.Moments.{is_own};
ghost use Rattle.repro_core.specs.Steps.{IsPrepared, InWorks, MakesOuts, RunsJob, work_kinds};
ghost use Rattle.repro_core.specs.Telling.{TellsOwn};
ghost use Rattle.repro_core.specs.Ways.{IsLaneFirst};

use crate::folders::make_ready;
use crate::job::{look_at_made, run_job};
use crate::prepared::Prepared;
use crate::road::look_at_roads;
use dvc_base::Fault;
use repro_laws::Stage;
use std::alloc::Global;
use world_api::World;

/// Runs the stage's job in folders that are made for it, with its outputs cleared before, and looks at what it left. A
/// file in the way of a folder, and a lane that can't be begun, are told before anything is cleared.
pub(crate) fn run_anew<W: World>(
    alloc: Global,
    world: &mut W,
    stage: &Stage,
    prepared: &Prepared,
) -> Result<(), Fault>
    requires stage { IsStage stage.now }
    requires kept { IsKept is_own stage.now }
    requires ordered { is_ordered (stage.now ∷ []) ≡ true }
    requires prepared { IsPrepared stage.now prepared.now }
    requires seen { IsTrue W.tells → see_fault stage.now (tree_of (W.history world.old)) ≡ None }
    requires no_file { IsTrue W.tells → IsNoFileAt (tree_of (W.history world.old)) dvc_path }
    ensures made { WithEffect W.tells (W.history world.old) (λ effect.
        MakesOuts effect stage.now prepared.now.job (fault_in result)
        (W.history world.old).present (W.history world.new).present) }
    ensures there { IsTrue W.tells → OnOk result (first_of (λ o.
        refused_out stage.now.name o (value_at (tree_of (W.history world.new)) o.path)) stage.now.outs ≡ None) }
    ensures ran { IsTrue W.tells →
        RunsJob prepared.now.job (fault_in result) (W.history world.old).present (W.history world.new).present }
    ensures lane_first { IsTrue W.tells →
        PassesFrom (IsLaneFirst stage.now) (W.history world.old) (W.history world.new) }
    ensures moments { IsTrue W.tells → PassesFrom (InWorks stage.now) (W.history world.old) (W.history world.new) }
    ensures told { TellsOwn stage.now (fault_in result) }
    ensures kinds { MayBe work_kinds (fault_in result) }
    ensures honest { IsHonest W.tells (fault_in result) }
    ensures cause { IsCaused (W.faults world.old) (W.faults world.new) (IsErrOf result WorldFault) }
{
    look_at_roads(alloc, world, prepared.roads.as_slice())?;
    let Ok(()) = make_ready(world, stage, prepared) else {
        return Err(Fault::WorldFault);
    };
    run_job(alloc, world, stage, &prepared.job)?;
    look_at_made(alloc, world, stage)
}
