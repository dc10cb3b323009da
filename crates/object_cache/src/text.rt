// A text put at a path of the cache that isn't an object's.
ghost use Rattle.std.specs.Prelude.{◌≡◌, ◌≢◌, [], true, Some, IsTrue, IfErr, OnOk, IsErrOf};
ghost use Rattle.dvc_base.specs.Path.{under};
ghost use Rattle.world_api.specs.Layout.{dvc_path};
ghost use Rattle.world_api.specs.Calls.{parent};
ghost use Rattle.world_api.specs.Outside.{tree_of, PassesFrom};
ghost use Rattle.world_api.specs.History.{IsCaused};
ghost use Rattle.world_api.specs.Writes.{IsNoScratch, IsNewFile, HasRoad};
ghost use Rattle.object_cache.specs.Giving.{InGive};
ghost use Rattle.object_cache.specs.Due.{fault_of, IsDue, IsFree, IsOnRoad, HasHonestSizes, not_folder};
ghost use Rattle.object_cache.specs.declared.fault.CacheFault.TheVariants.{Failed as Blamed};

use crate::CacheFault;
use crate::paths::above;
use crate::publish::clear_folder;
use crate::road::find_road;
use dvc_base::Rel;
use file_bytes::write_bytes;
use std::alloc::Global;
use world_api::Files;

/// Puts a text at a path in `.dvc`, in place of what stands there: a folder is cleared first, and the folders above are made.
pub fn put_text<F: Files>(
    alloc: Global,
    files: &mut F,
    text: &[u8],
    at: &Rel,
) -> Result<(), CacheFault>
    requires apart { IsNoScratch at.now }
    requires inside { under dvc_path (parent at.now) ≡ true }
    ensures answer { IsTrue F.tells → IsDue (fault_of result)
        (not_folder (tree_of (F.history files.old)) (parent at.now)) }
    ensures put { IsTrue F.tells → OnOk result (IsNewFile at.now text.now (F.history files.new).present) }
    ensures moments { IsTrue F.tells → PassesFrom
        (InGive at.now (Some text.now)) (F.history files.old) (F.history files.new) }
    ensures told { IfErr result (IsOnRoad (parent at.now)) }
    ensures cause { IsCaused (F.faults files.old) (F.faults files.new) (IsErrOf result Blamed) }
{
    match find_road(alloc, files, at) {
        Ok(()) => replace_at(alloc, files, text, at),
        Err(fault) => Err(fault),
    }
}

// The same, where no file is in the way.
fn replace_at<F: Files>(
    alloc: Global,
    files: &mut F,
    text: &[u8],
    at: &Rel,
) -> Result<(), CacheFault>
    requires apart { IsNoScratch at.now }
    requires inside { under dvc_path (parent at.now) ≡ true }
    requires road { IsTrue F.tells → HasRoad (parent at.now) (tree_of (F.history files.old)) }
    ensures put { IsTrue F.tells → OnOk result (IsNewFile at.now text.now (F.history files.new).present) }
    ensures moments { IsTrue F.tells → PassesFrom
        (InGive at.now (Some text.now)) (F.history files.old) (F.history files.new) }
    ensures free { IfErr result IsFree }
    ensures cause { IsCaused (F.faults files.old) (F.faults files.new) (IsErrOf result Blamed) }
{
    let folder = above(alloc, at)?;
    clear_folder(files, at)?;
    files.make_folder(&folder)?;
    write_bytes(files, at, text)?;
    Ok(())
}
