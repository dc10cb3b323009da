// The lane put at a path, in place of what stood there.
ghost use Rattle.std.specs.Prelude.{◌≡◌, ◌≢◌, ℕ, List, [], Option, None, Some, IsTrue, IfErr, OnOk, IsErrOf};
ghost use Rattle.world_api.specs.Tree.{item_at, folder};
ghost use Rattle.world_api.specs.Layout.{lane_path};
ghost use Rattle.world_api.specs.Calls.{parent};
ghost use Rattle.world_api.specs.Outside.{tree_of, PassesFrom};
ghost use Rattle.world_api.specs.History.{HasCause, IsCaused};
ghost use Rattle.world_api.specs.Writes.{IsNoScratch, IsNewFile, HasRoad, IsFolderAt, IsSameUnder};
ghost use Rattle.object_cache.specs.Copying.{IsInLane};
ghost use Rattle.object_cache.specs.Giving.{InGive};
ghost use Rattle.object_cache.specs.Due.{IsFree};
ghost use Rattle.object_cache.specs.declared.fault.CacheFault.TheVariants.{Failed as Blamed};

use crate::CacheFault;
use crate::copy::LANE;
use crate::paths::above;
use dvc_base::{Failed, Rel};
use std::alloc::Global;
use world_api::{Files, Kind};

// Publishes the lane at the path: a folder there is cleared first, and the folders above it are made.
pub(crate) fn publish_at<F: Files>(alloc: Global, files: &mut F, at: &Rel) -> Result<(), CacheFault>
    requires apart { IsNoScratch at.now }
    requires below_root { at.now ≢ [] }
    requires lane { IsTrue F.tells → (bytes : List ℕ) × IsInLane bytes (F.history files.old).present }
    requires road { IsTrue F.tells → HasRoad (parent at.now) (tree_of (F.history files.old)) }
    ensures published { IsTrue F.tells → (bytes : List ℕ) → IsInLane bytes (F.history files.old).present →
        OnOk result (IsNewFile at.now bytes (F.history files.new).present) }
    ensures moments { IsTrue F.tells → (bytes : List ℕ) → IsInLane bytes (F.history files.old).present →
        PassesFrom (InGive at.now (Some bytes)) (F.history files.old) (F.history files.new) }
    ensures free { IfErr result IsFree }
    ensures cause { IsCaused (F.faults files.old) (F.faults files.new) (IsErrOf result Blamed) }
{
    let folder = above(alloc, at)?;
    clear_folder(files, at)?;
    files.make_folder(&folder)?;
    files.publish(LANE, at)?;
    Ok(())
}

// Clears a folder at the path.
pub(crate) fn clear_folder<F: Files>(files: &mut F, at: &Rel) -> Result<(), Failed>
    requires apart { IsNoScratch at.now }
    requires below_root { at.now ≢ [] }
    ensures cleared { IsTrue F.tells → OnOk result
        (item_at (tree_of (F.history files.new)) at.now ≢ Some folder) }
    ensures lane { IsTrue F.tells → IsSameUnder (lane_path 0)
        (F.history files.old).present (F.history files.new).present }
    ensures moments { IsTrue F.tells →
        PassesFrom (InGive at.now None) (F.history files.old) (F.history files.new) }
    ensures cause { HasCause (F.faults files.old) (F.faults files.new) result }
{
    let kind = files.kind(at)?;
    match kind {
        Kind::Folder => files.clear(at),
        _ => Ok(()),
    }
}
