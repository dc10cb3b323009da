// Folders, as any world lists and makes them.
ghost use Rattle.std.specs.Prelude.{◌≡◌, true, IsTrue, IfOk};
ghost use Rattle.world_api.specs.Outside.{tree_of};
ghost use Rattle.world_api.specs.Writes.{IsNoFileAt, IsFolderAt, HasRoad};

use crate::asked::{is_as_long_as_names, is_just_below};
use crate::told::Told;
use dvc_base::Rel;
use std::alloc::Global;
use std::test::Fail;
use world_api::{Kind, World};

/// The names in the folder, if one stands there.
pub(crate) fn list<W: World>(at: &Rel, told: &mut Told, world: &mut W) -> Result<(), Fail> {
    let text = at.text();
    if !is_folder(world, at)? {
        return told.note(format_args!("list {text:?}: no folder"));
    }
    let names = world.list(told.alloc, at)?;
    told.note(format_args!("list {text:?}: {names:?}"))
}

/// Makes the folder, if no file stands there or above.
pub(crate) fn make<W: World>(at: &Rel, told: &mut Told, world: &mut W) -> Result<(), Fail> {
    let text = at.text();
    if !is_as_long_as_names(at) || !has_road(told.alloc, world, at)? {
        return told.note(format_args!("make {text:?}: no road"));
    }
    world.make_folder(at)?;
    told.note(format_args!("make {text:?}"))
}

fn is_folder<W: World>(world: &mut W, at: &Rel) -> Result<bool, Fail>
    ensures folder { IfOk result (λ is. is ≡ true → IsTrue W.tells → IsFolderAt (tree_of (W.history world.new)) at.now) }
{
    let kind = world.kind(at)?;
    Ok(kind == Kind::Folder)
}

// Whether no file stands at the path or above it.
fn has_road<W: World>(alloc: Global, world: &mut W, at: &Rel) -> Result<bool, Fail>
    ensures road { IfOk result (λ is. is ≡ true → IsTrue W.tells → HasRoad at.now (tree_of (W.history world.new))) }
    ensures unchanged { IfOk result (λ _. IsTrue W.tells → W.history world.new ≡ W.history world.old) }
{
    if !is_no_file(world, at)? {
        return Ok(false);
    }
    if at.parts().is_empty() {
        return Ok(true);
    }
    let above = at.join(alloc, "..")?;
    if !is_just_below(at, &above) {
        return Ok(false);
    }
    has_road(alloc, world, &above)
}

fn is_no_file<W: World>(world: &mut W, at: &Rel) -> Result<bool, Fail>
    ensures none { IfOk result (λ is. is ≡ true → IsTrue W.tells → IsNoFileAt (tree_of (W.history world.new)) at.now) }
    ensures unchanged { IfOk result (λ _. IsTrue W.tells → W.history world.new ≡ W.history world.old) }
{
    let kind = world.kind(at)?;
    Ok(!matches!(kind, Kind::File { .. }))
}
