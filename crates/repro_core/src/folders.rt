// What a run clears, and the folders that it makes.
ghost use Rattle.std.specs.Prelude.{◌≡◌, ◌∷◌, [], true, map, None, IsTrue, OnOk};
ghost use Rattle.world_api.specs.Effect.{is_in_any};
ghost use Rattle.world_api.specs.History.{HasCause, Keeps};
ghost use Rattle.world_api.specs.Outside.{tree_of, PassesFrom};
ghost use Rattle.world_api.specs.Writes.{IsNoFileAt};
ghost use Rattle.world_api.specs.Layout.{dvc_path, lane_path};
ghost use Rattle.world_api.specs.Calls.{are_apart, IsFileAt};
ghost use Rattle.repro_laws.specs.Stage.{out_path, IsStage};
ghost use Rattle.repro_laws.specs.Refusals.{see_fault, way_fault};
ghost use Rattle.repro_laws.specs.Headline.{is_ordered, IsKept};
ghost use Rattle.repro_laws.specs.Moments.{is_own};
ghost use Rattle.repro_core.specs.Steps.{IsClear, IsPrepared, InWork};
ghost use Rattle.repro_core.specs.Ways.{HaveRoads, AreFolders, InFolders, IsReadied, IsLaneFirst};

use crate::prepared::Prepared;
use dvc_base::{Failed, Rel};
use file_bytes::begin_write;
use repro_laws::{Out, Stage};
use world_api::Files;

/// Clears the stage's outputs, and makes the folders that its job needs. A lane that can't be begun is told before anything is
/// cleared.
pub(crate) fn make_ready<F: Files>(
    files: &mut F,
    stage: &Stage,
    prepared: &Prepared,
) -> Result<(), Failed>
    requires stage { IsStage stage.now }
    requires kept { IsKept is_own stage.now }
    requires ordered { is_ordered (stage.now ∷ []) ≡ true }
    requires prepared { IsPrepared stage.now prepared.now }
    requires seen { IsTrue F.tells → see_fault stage.now (tree_of (F.history files.old)) ≡ None }
    requires way { IsTrue F.tells → way_fault stage.now (tree_of (F.history files.old)) ≡ None }
    requires no_file { IsTrue F.tells → IsNoFileAt (tree_of (F.history files.old)) dvc_path }
    ensures ready { IsTrue F.tells →
        OnOk result (IsReadied prepared.now.job (F.history files.old).present (F.history files.new).present) }
    ensures begun { IsTrue F.tells → OnOk result (IsFileAt (tree_of (F.history files.new)) (lane_path 0)) }
    ensures lane_first { IsTrue F.tells →
        PassesFrom (IsLaneFirst stage.now) (F.history files.old) (F.history files.new) }
    ensures moments { IsTrue F.tells → PassesFrom (InWork stage.now []) (F.history files.old) (F.history files.new) }
    ensures cause { HasCause (F.faults files.old) (F.faults files.new) result }
{
    begin_write(files)?;
    clear_outputs(files, stage.made.as_slice())?;
    make_folders(files, prepared.roads.as_slice())
}

fn clear_outputs<F: Files>(files: &mut F, outs: &[Out]) -> Result<(), Failed>
    requires { are_apart (map out_path outs.now) ≡ true }
    ensures cleared { IsTrue F.tells → OnOk result (IsClear (tree_of (F.history files.new)) (map out_path outs.now)) }
    ensures moments { IsTrue F.tells →
        PassesFrom (Keeps (is_in_any (map out_path outs.now))) (F.history files.old) (F.history files.new) }
    ensures cause { HasCause (F.faults files.old) (F.faults files.new) result }
{
    for out in outs {
        files.clear(&out.path)?;
    }
    Ok(())
}

fn make_folders<F: Files>(files: &mut F, roads: &[Rel]) -> Result<(), Failed>
    requires { IsTrue F.tells → HaveRoads roads.now (tree_of (F.history files.old)) }
    ensures made { IsTrue F.tells → OnOk result (AreFolders (tree_of (F.history files.new)) roads.now) }
    ensures moments { IsTrue F.tells → PassesFrom (InFolders roads.now) (F.history files.old) (F.history files.new) }
    ensures cause { HasCause (F.faults files.old) (F.faults files.new) result }
{
    for road in roads {
        files.make_folder(road)?;
    }
    Ok(())
}
