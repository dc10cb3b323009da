// A value stored in the cache: each of its objects that isn't whole is put at its place.
ghost use Rattle.std.specs.Prelude.{◌≡◌, [], ◌∷◌, true, false, is_some, None, Some, IfSome, IsTrue, IfOk, IfErr, OnOk, IsErrOf, ⊤};
ghost use Rattle.world_api.specs.Tree.{item_at, file};
ghost use Rattle.world_api.specs.Calls.{IsFileAt};
ghost use Rattle.world_api.specs.Layout.{dvc_path};
ghost use Rattle.world_api.specs.Outside.{tree_of, IsUntouched, PassesFrom};
ghost use Rattle.world_api.specs.History.{IsCaused, HasCause};
ghost use Rattle.world_api.specs.Writes.{IsNoFileAt, IsNoScratch, InScratch};
ghost use Rattle.object_cache.specs.Objects.{object_path, object_at, has_name};
ghost use Rattle.object_cache.specs.Copying.{HasNamed, IsCopied, IsInLane};
ghost use Rattle.object_cache.specs.Store.{InStore};
ghost use Rattle.object_cache.specs.Due.{fault_of, IsDue, HasHonestSizes, IsToldInCache, IsToldAt, IsToldOf, HasPlace, KeepsPlaces, IsLeft, has_fault, place_fault, size_fault};
ghost use Rattle.object_cache.specs.declared.fault.CacheFault.TheVariants.{Failed as Blamed};

use crate::CacheFault;
use crate::copy::{LANE, Unhashed, copy_file};
use crate::look::has_at;
use crate::paths::object_path;
use crate::publish::publish_at;
use crate::road::find_road;
use dvc_base::{Failed, Name, Rel};
use file_bytes::Piece;
use std::alloc::Global;
use world_api::{Files, Kind, ReadFiles};

// Stores a file as the object of its name, where that isn't whole.
pub(crate) fn store_file<F: Files>(
    alloc: Global,
    files: &mut F,
    from: &Rel,
    name: &Name,
    piece: &mut Piece,
) -> Result<(), CacheFault>
    requires apart { IsNoScratch from.now }
    requires known { IsTrue F.tells → HasNamed name.now (item_at (tree_of (F.history files.old)) from.now) }
    ensures stored { IsTrue F.tells → OnOk result
        (is_some (object_at (tree_of (F.history files.new)) name.now) ≡ true) }
    ensures answer { IsTrue F.tells → IsDue (fault_of result)
        (place_fault (tree_of (F.history files.old)) name.now) }
    ensures kept { IsTrue F.tells → OnOk result
        (KeepsPlaces (tree_of (F.history files.old)) (tree_of (F.history files.new))) }
    ensures refused { IsTrue F.tells → IfErr result
        (IsLeft (tree_of (F.history files.old)) (tree_of (F.history files.new))) }
    ensures moments { IsTrue F.tells → PassesFrom
        (InStore (name.now ∷ [])) (F.history files.old) (F.history files.new) }
    ensures told { IfErr result (IsToldAt from.now) }
    ensures honest { IfErr result (HasHonestSizes F.tells) }
    ensures cause { IsCaused (F.faults files.old) (F.faults files.new) (IsErrOf result Blamed) }
{
    match place_for(alloc, files, name, piece) {
        Ok(None) => Ok(()),
        Ok(Some(place)) => store_at(alloc, files, from, name, &place),
        Err(fault) => Err(fault),
    }
}

// Puts a file whose bytes have the name at the place of its object.
fn store_at<F: Files>(
    alloc: Global,
    files: &mut F,
    from: &Rel,
    name: &Name,
    place: &Rel,
) -> Result<(), CacheFault>
    requires apart { IsNoScratch from.now }
    requires known { IsTrue F.tells → HasNamed name.now (item_at (tree_of (F.history files.old)) from.now) }
    requires place { place.now ≡ object_path name.now }
    requires free { IsTrue F.tells → HasPlace (tree_of (F.history files.old)) name.now }
    ensures stored { IsTrue F.tells → OnOk result
        (is_some (object_at (tree_of (F.history files.new)) name.now) ≡ true) }
    ensures kept { IsTrue F.tells → OnOk result
        (KeepsPlaces (tree_of (F.history files.old)) (tree_of (F.history files.new))) }
    ensures moments { IsTrue F.tells → PassesFrom
        (InStore (name.now ∷ [])) (F.history files.old) (F.history files.new) }
    ensures answer { IsTrue F.tells → IsDue (fault_of result) None }
    ensures told { IfErr result (IsToldAt from.now) }
    ensures honest { IfErr result (HasHonestSizes F.tells) }
    ensures cause { IsCaused (F.faults files.old) (F.faults files.new) (IsErrOf result Blamed) }
{
    fill(alloc, files, from)?;
    publish_at(alloc, files, place)
}

// Where the object is to be put; nowhere, where it is whole.
fn place_for<F: ReadFiles>(
    alloc: Global,
    files: &mut F,
    name: &Name,
    piece: &mut Piece,
) -> Result<Option<Rel>, CacheFault>
    ensures whole { IsTrue F.tells → IfOk result (λ place.
        place ≡ None → is_some (object_at (tree_of (F.history files.old)) name.now) ≡ true) }
    ensures free { IsTrue F.tells → IfOk result (λ place.
        place ≡ Some (object_path name.now) → HasPlace (tree_of (F.history files.old)) name.now) }
    ensures exact { IfOk result (λ place. IfSome place (λ path. path ≡ object_path name.now)) }
    ensures answer { IsTrue F.tells → IsDue (fault_of result)
        (place_fault (tree_of (F.history files.old)) name.now) }
    ensures told { IfErr result IsToldInCache }
    ensures honest { IfErr result (HasHonestSizes F.tells) }
    ensures unchanged { IsUntouched F.tells (F.history files.old) (F.history files.new) }
    ensures cause { IsCaused (F.faults files.old) (F.faults files.new) (IsErrOf result Blamed) }
{
    let place = object_path(alloc, name)?;
    if is_free(alloc, files, name, &place, piece)? {
        return Ok(Some(place));
    }
    Ok(None)
}

// Whether the object isn't whole, and no file is in the way of its place.
fn is_free<F: ReadFiles>(
    alloc: Global,
    files: &mut F,
    name: &Name,
    place: &Rel,
    piece: &mut Piece,
) -> Result<bool, CacheFault>
    requires { place.now ≡ object_path name.now }
    ensures exact { IsTrue F.tells → IfOk result (λ free.
        (IsTrue free → HasPlace (tree_of (F.history files.old)) name.now)
        × (free ≡ false → is_some (object_at (tree_of (F.history files.old)) name.now) ≡ true)) }
    ensures answer { IsTrue F.tells → IsDue (fault_of result)
        (place_fault (tree_of (F.history files.old)) name.now) }
    ensures told { IfErr result IsToldInCache }
    ensures honest { IfErr result (HasHonestSizes F.tells) }
    ensures unchanged { IsUntouched F.tells (F.history files.old) (F.history files.new) }
    ensures cause { IsCaused (F.faults files.old) (F.faults files.new) (IsErrOf result Blamed) }
{
    if is_whole(alloc, files, name, place, piece)? {
        return Ok(false);
    }
    match find_road(alloc, files, place) {
        Ok(()) => Ok(true),
        Err(fault) => Err(fault),
    }
}

// Whether the object is whole. One that changes while it is read isn't.
fn is_whole<F: ReadFiles>(
    alloc: Global,
    files: &mut F,
    name: &Name,
    place: &Rel,
    piece: &mut Piece,
) -> Result<bool, CacheFault>
    requires { place.now ≡ object_path name.now }
    ensures exact { IsTrue F.tells → IfOk result (λ whole.
        whole ≡ is_some (object_at (tree_of (F.history files.old)) name.now)) }
    ensures answer { IsTrue F.tells → IsDue (fault_of result)
        (has_fault (tree_of (F.history files.old)) name.now) }
    ensures told { IfErr result IsToldInCache }
    ensures honest { IfErr result (HasHonestSizes F.tells) }
    ensures unchanged { IsUntouched F.tells (F.history files.old) (F.history files.new) }
    ensures cause { IsCaused (F.faults files.old) (F.faults files.new) (IsErrOf result Blamed) }
{
    match has_at(alloc, files, name, place, piece) {
        Ok(whole) => Ok(whole),
        Err(CacheFault::Changed { .. }) => Ok(false),
        Err(fault) => Err(fault),
    }
}

// Copies a file into the lane.
fn fill<F: Files>(alloc: Global, files: &mut F, from: &Rel) -> Result<(), CacheFault>
    requires apart { IsNoScratch from.now }
    requires file { IsTrue F.tells → IsFileAt (tree_of (F.history files.old)) from.now }
    requires no_file { IsTrue F.tells → IsNoFileAt (tree_of (F.history files.old)) dvc_path }
    ensures copied { IsTrue F.tells → OnOk result (IsCopied (λ bytes. ⊤)
        (item_at (tree_of (F.history files.old)) from.now) (F.history files.new).present) }
    ensures answer { IsTrue F.tells → IsDue (fault_of result) None }
    ensures told { IfErr result (IsToldOf from.now) }
    ensures honest { IfErr result (HasHonestSizes F.tells) }
    ensures moments { IsTrue F.tells → PassesFrom InScratch (F.history files.old) (F.history files.new) }
    ensures cause { IsCaused (F.faults files.old) (F.faults files.new) (IsErrOf result Blamed) }
{
    let kind = files.kind(from)?;
    match kind {
        Kind::File { size } => copy_file(alloc, files, from, size, &mut Unhashed),
        _ => Err(CacheFault::Missing),
    }
}

// Stores a text as the object of its name, where that isn't whole.
pub(crate) fn store_text<F: Files>(
    alloc: Global,
    files: &mut F,
    text: &[u8],
    name: &Name,
    piece: &mut Piece,
) -> Result<(), CacheFault>
    requires named { has_name name.now text.now ≡ true }
    requires small { IsTrue F.tells → size_fault (Some (file text.now)) ≡ None }
    ensures stored { IsTrue F.tells → OnOk result
        (is_some (object_at (tree_of (F.history files.new)) name.now) ≡ true) }
    ensures answer { IsTrue F.tells → IsDue (fault_of result)
        (place_fault (tree_of (F.history files.old)) name.now) }
    ensures refused { IsTrue F.tells → IfErr result
        (IsLeft (tree_of (F.history files.old)) (tree_of (F.history files.new))) }
    ensures moments { IsTrue F.tells → PassesFrom
        (InStore (name.now ∷ [])) (F.history files.old) (F.history files.new) }
    ensures told { IfErr result IsToldInCache }
    ensures honest { IfErr result (HasHonestSizes F.tells) }
    ensures cause { IsCaused (F.faults files.old) (F.faults files.new) (IsErrOf result Blamed) }
{
    match place_for(alloc, files, name, piece) {
        Ok(None) => Ok(()),
        Ok(Some(place)) => store_text_at(alloc, files, text, name, &place),
        Err(fault) => Err(fault),
    }
}

// Puts a text at the place of its object.
fn store_text_at<F: Files>(
    alloc: Global,
    files: &mut F,
    text: &[u8],
    name: &Name,
    place: &Rel,
) -> Result<(), CacheFault>
    requires named { has_name name.now text.now ≡ true }
    requires small { IsTrue F.tells → size_fault (Some (file text.now)) ≡ None }
    requires place { place.now ≡ object_path name.now }
    requires free { IsTrue F.tells → HasPlace (tree_of (F.history files.old)) name.now }
    ensures stored { IsTrue F.tells → OnOk result
        (is_some (object_at (tree_of (F.history files.new)) name.now) ≡ true) }
    ensures moments { IsTrue F.tells → PassesFrom
        (InStore (name.now ∷ [])) (F.history files.old) (F.history files.new) }
    ensures answer { IsTrue F.tells → IsDue (fault_of result) None }
    ensures told { IfErr result IsToldInCache }
    ensures honest { IfErr result (HasHonestSizes F.tells) }
    ensures cause { IsCaused (F.faults files.old) (F.faults files.new) (IsErrOf result Blamed) }
{
    fill_text(files, text)?;
    publish_at(alloc, files, place)
}

// Puts a text into the lane.
fn fill_text<F: Files>(files: &mut F, text: &[u8]) -> Result<(), Failed>
    requires no_file { IsTrue F.tells → IsNoFileAt (tree_of (F.history files.old)) dvc_path }
    ensures filled { IsTrue F.tells → OnOk result (IsInLane text.now (F.history files.new).present) }
    ensures moments { IsTrue F.tells → PassesFrom InScratch (F.history files.old) (F.history files.new) }
    ensures cause { HasCause (F.faults files.old) (F.faults files.new) result }
{
    files.begin(LANE)?;
    files.append(LANE, text)?;
    files.settle(LANE)
}
