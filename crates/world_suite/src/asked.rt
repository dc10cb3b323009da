// What a world is asked before a call, since a world that tells what it holds wants the call's conditions.
ghost use Rattle.std.specs.Prelude.{◌≡◌, ◌≢◌, ◌<◌, true, false, length, IsTrue, IfOk};
ghost use Rattle.dvc_base.specs.Path.{under};
ghost use Rattle.world_api.specs.declared.files.Kind.TheVariants.{Folder};
ghost use Rattle.world_api.specs.Calls.{IsFileAt, parent};
ghost use Rattle.world_api.specs.Writes.{dvc_path, lane_path, IsNoFileAt, HasRoom, IsFirmLane};

use dvc_base::{Rel, is_at_or_below};
use std::alloc::Global;
use std::test::Fail;
use world_api::{Kind, World, dvc_path, lane_path};

// The most bytes that a name of a real file can have.
const NAME_MAX: usize = 255;

pub(crate) fn is_file<W: World>(world: &mut W, at: &Rel) -> Result<bool, Fail>
    ensures file { IfOk result (λ is. is ≡ true → IsTrue W.tells → IsFileAt (W.history world.new).present.tree at.now) }
{
    let kind = world.kind(at)?;
    Ok(matches!(kind, Kind::File { .. }))
}

pub(crate) fn is_lane<W: World>(alloc: Global, world: &mut W, lane: u32) -> Result<bool, Fail>
    ensures file { IfOk result (λ is. is ≡ true → IsTrue W.tells
        → IsFileAt (W.history world.new).present.tree (lane_path lane)) }
{
    let at = lane_path(alloc, lane)?;
    is_file(world, &at)
}

pub(crate) fn may_begin<W: World>(alloc: Global, world: &mut W) -> Result<bool, Fail>
    ensures room { IfOk result (λ is. is ≡ true → IsTrue W.tells
        → IsNoFileAt (W.history world.new).present.tree dvc_path) }
{
    let at = dvc_path(alloc)?;
    let kind = world.kind(&at)?;
    Ok(!matches!(kind, Kind::File { .. }))
}

/// Settles the lane, if it is one.
pub(crate) fn settle<W: World>(alloc: Global, world: &mut W, lane: u32) -> Result<bool, Fail>
    ensures firm { IfOk result (λ is. is ≡ true → IsTrue W.tells → IsFirmLane lane (W.history world.new).present) }
{
    if !is_lane(alloc, world, lane)? {
        return Ok(false);
    }
    world.settle(lane)?;
    Ok(true)
}

/// Whether the folder above the path stands, and no folder at it.
pub(crate) fn has_room<W: World>(alloc: Global, world: &mut W, at: &Rel) -> Result<bool, Fail>
    ensures room { IfOk result (λ is. is ≡ true → IsTrue W.tells → HasRoom at.now (W.history world.new).present.tree) }
    ensures unchanged { IfOk result (λ _. IsTrue W.tells → W.history world.new ≡ W.history world.old) }
{
    if at.parts().is_empty() {
        return Ok(false);
    }
    let above = at.join(alloc, "..")?;
    if !is_just_below(at, &above) {
        return Ok(false);
    }
    let folder = world.kind(&above)?;
    let kind = world.kind(at)?;
    Ok(is_room(folder, kind))
}

/// Whether the path isn't the lane's, and each of its names may be that of a real file.
pub(crate) fn may_publish(alloc: Global, at: &Rel, lane: u32) -> Result<bool, Fail>
    ensures apart { IfOk result (λ is. is ≡ true → under (lane_path lane) at.now ≡ false) }
{
    let own = lane_path(alloc, lane)?;
    Ok(!is_at_or_below(at, &own) && is_as_long_as_names(at))
}

/// Whether none of the path's names is longer than one of a real file can be.
pub(crate) fn is_as_long_as_names(at: &Rel) -> bool {
    at.parts()
        .iter()
        .all(|name| name.as_str().len() <= NAME_MAX)
}

fn is_room(above: Kind, kind: Kind) -> bool
    ensures room { result ≡ true → (above ≡ Folder) × (kind ≢ Folder) }
{
    above == Kind::Folder && kind != Kind::Folder
}

/// Whether the second path is the folder above the first.
#[tactic(auto, using(crate::proofs::PlaceLemmas::parent_of))]
pub(crate) fn is_just_below(at: &Rel, above: &Rel) -> bool
    ensures parent { result ≡ true → parent at.now ≡ above.now }
    ensures less { result ≡ true → length above.now < length at.now }
{
    let depth = at.parts().len();
    let folders = above.parts().len();
    is_at_or_below(at, above) && depth > folders && depth - folders == 1
}
