// An object given out of the cache.
ghost use Rattle.std.specs.Prelude.{◌≡◌, ◌<◌, false, length, IsTrue, IfErr, OnOk, IsErrOf};
ghost use Rattle.dvc_base.specs.Path.{overlap};
ghost use Rattle.world_api.specs.Tree.{item_at};
ghost use Rattle.world_api.specs.Layout.{dvc_path};
ghost use Rattle.world_api.specs.Outside.{tree_of, PassesFrom};
ghost use Rattle.world_api.specs.History.{IsCaused};
ghost use Rattle.world_api.specs.Writes.{InScratch};
ghost use Rattle.file_bytes.specs.Reading.{IsTold};
ghost use Rattle.object_cache.specs.Objects.{object_path, object_at};
ghost use Rattle.object_cache.specs.Copying.{HasObject};
ghost use Rattle.object_cache.specs.Giving.{IsGivenFile, InGive};
ghost use Rattle.object_cache.specs.Due.{fault_of, IsDue, HasHonestSizes, object_fault, give_fault};
ghost use Rattle.object_cache.specs.declared.fault.CacheFault.TheVariants.{Failed as Blamed};

use crate::CacheFault;
use crate::copy::{copy_file, has_digest};
use crate::paths::object_path;
use crate::publish::publish_at;
use crate::road::find_road;
use dvc_base::{Name, Rel, What};
use md5::{Digest, Md5};
use std::alloc::Global;
use world_api::{Files, Kind};

/// Puts a file object at a path, in place of what stands there. Its bytes are hashed as they are copied, and none that
/// don't have the name are given out.
pub fn give_to<F: Files>(
    alloc: Global,
    files: &mut F,
    name: &Name,
    at: &Rel,
) -> Result<(), CacheFault>
    requires file { name.now.dir ≡ false }
    requires apart { overlap at.now dvc_path ≡ false }
    ensures answer { IsTrue F.tells → IsDue (fault_of result)
        (give_fault (tree_of (F.history files.old)) name.now at.now) }
    ensures given { IsTrue F.tells → OnOk result (IsGivenFile at.now
        (object_at (tree_of (F.history files.old)) name.now) (F.history files.new).present) }
    ensures moments { IsTrue F.tells → PassesFrom
        (InGive at.now (object_at (tree_of (F.history files.old)) name.now))
        (F.history files.old) (F.history files.new) }
    ensures honest { IfErr result (HasHonestSizes F.tells) }
    ensures cause { IsCaused (F.faults files.old) (F.faults files.new) (IsErrOf result Blamed) }
{
    copy_object(alloc, files, name)?;
    match find_road(alloc, files, at) {
        Ok(()) => publish_at(alloc, files, at),
        Err(fault) => Err(fault),
    }
}

// Copies the object into the lane, where it is whole.
fn copy_object<F: Files>(alloc: Global, files: &mut F, name: &Name) -> Result<(), CacheFault>
    ensures copied { IsTrue F.tells → OnOk result
        (HasObject (tree_of (F.history files.old)) name.now (F.history files.new).present) }
    ensures answer { IsTrue F.tells → IsDue (fault_of result)
        (object_fault (tree_of (F.history files.old)) name.now) }
    ensures honest { IfErr result (HasHonestSizes F.tells) }
    ensures moments { IsTrue F.tells → PassesFrom InScratch (F.history files.old) (F.history files.new) }
    ensures cause { IsCaused (F.faults files.old) (F.faults files.new) (IsErrOf result Blamed) }
{
    let place = object_path(alloc, name)?;
    copy_at(alloc, files, name, &place)
}

// The same, at the object's place.
fn copy_at<F: Files>(
    alloc: Global,
    files: &mut F,
    name: &Name,
    place: &Rel,
) -> Result<(), CacheFault>
    requires { place.now ≡ object_path name.now }
    ensures copied { IsTrue F.tells → OnOk result
        (HasObject (tree_of (F.history files.old)) name.now (F.history files.new).present) }
    ensures answer { IsTrue F.tells → IsDue (fault_of result)
        (object_fault (tree_of (F.history files.old)) name.now) }
    ensures honest { IfErr result (HasHonestSizes F.tells) }
    ensures moments { IsTrue F.tells → PassesFrom InScratch (F.history files.old) (F.history files.new) }
    ensures cause { IsCaused (F.faults files.old) (F.faults files.new) (IsErrOf result Blamed) }
{
    let kind = files.kind(place)?;
    match kind {
        Kind::File { size } => copy_whole(alloc, files, name, place, size),
        _ => Err(CacheFault::Absent { name: *name }),
    }
}

// The same, where the object's file was told to have this size.
fn copy_whole<F: Files>(
    alloc: Global,
    files: &mut F,
    name: &Name,
    place: &Rel,
    size: u64,
) -> Result<(), CacheFault>
    requires place { place.now ≡ object_path name.now }
    requires told { IsTrue F.tells → IsTold (item_at (tree_of (F.history files.old)) place.now) size }
    ensures copied { IsTrue F.tells → OnOk result
        (HasObject (tree_of (F.history files.old)) name.now (F.history files.new).present) }
    ensures answer { IsTrue F.tells → IsDue (fault_of result)
        (object_fault (tree_of (F.history files.old)) name.now) }
    ensures honest { IfErr result (HasHonestSizes F.tells) }
    ensures moments { IsTrue F.tells → PassesFrom InScratch (F.history files.old) (F.history files.new) }
    ensures cause { IsCaused (F.faults files.old) (F.faults files.new) (IsErrOf result Blamed) }
{
    if size > What::FileSize.limit() {
        return Err(CacheFault::TooLarge {
            what: What::FileSize,
            limit: What::FileSize.limit(),
        });
    }
    let mut hasher = Md5::new();
    copy_file(alloc, files, place, size, &mut hasher)?;
    let digest = hasher.finalize();
    if !has_digest(name, &digest) {
        return Err(CacheFault::Absent { name: *name });
    }
    Ok(())
}
