// What the tests put into the world, and how they look at it.
ghost use Rattle.std.specs.Prelude.{◌≡◌, false, IfOk};
ghost use Rattle.dvc_base.specs.Path.{overlap};
ghost use Rattle.world_api.specs.Layout.{dvc_path};
ghost use Rattle.object_cache.specs.Store.{IsOutside};

use dvc_base::{Bytes, Name, Rel};
use object_cache::object_path;
use sim_world::{FileMap, Pipe, SimWorld, Value};
use std::alloc::Global;
use std::test::Fail;

// The name of a file with the one byte `a`.
pub(crate) const FILE: &[u8] = b"0cc175b9c0f1b6a831c399e269772661";

// The path of all values that are stored here.
#[tactic(auto, unfolding(world_api::specs::Layout::dvc_path, world_api::specs::Layout::tmp_path))]
pub(crate) fn value_path(alloc: Global) -> Result<Rel, Fail>
    ensures outside { IfOk result IsOutside }
    ensures apart { IfOk result (λ at. overlap at dvc_path ≡ false) }
{
    let at = Rel::root(alloc).join(alloc, "d")?;
    Ok(at)
}

pub(crate) fn name_of(text: &[u8]) -> Result<Name, Fail> {
    match Name::parse(text) {
        Some(name) => Ok(name),
        None => Err(Fail::new("the text is no name")),
    }
}

// Puts a folder at the path, with one file `a.txt` of the one byte `a`.
pub(crate) fn edit_folder(alloc: Global, world: &mut SimWorld<Pipe>, at: &Rel) -> Result<(), Fail> {
    let value = Value::Files(one_file(alloc)?);
    edit(world, at, &value)
}

pub(crate) fn edit_file(
    alloc: Global,
    world: &mut SimWorld<Pipe>,
    at: &Rel,
    bytes: &[u8],
) -> Result<(), Fail> {
    let value = Value::File(Bytes::of(alloc, bytes)?);
    edit(world, at, &value)
}

// Puts the value at the path, which isn't the root.
pub(crate) fn edit(world: &mut SimWorld<Pipe>, at: &Rel, value: &Value) -> Result<(), Fail> {
    if at.parts().is_empty() {
        return Err(Fail::new("nothing is put at the root"));
    }
    world.edit(at, value)?;
    Ok(())
}

fn one_file(alloc: Global) -> Result<FileMap, Fail> {
    let mut files = FileMap::new(alloc);
    add_file(alloc, &mut files)?;
    Ok(files)
}

fn add_file(alloc: Global, files: &mut FileMap) -> Result<(), Fail> {
    let at = Rel::root(alloc).join(alloc, "a.txt")?;
    if !files.is_free(&at) {
        return Err(Fail::new("a map without a file has room"));
    }
    files.put(at, Bytes::of(alloc, b"a")?)?;
    Ok(())
}

// Whether the object's file has just these bytes.
pub(crate) fn object_is(
    alloc: Global,
    world: &SimWorld<Pipe>,
    name: &Name,
    bytes: &[u8],
) -> Result<bool, Fail> {
    let place = object_path(alloc, name)?;
    Ok(file_is(world, &place, bytes))
}

pub(crate) fn file_is(world: &SimWorld<Pipe>, at: &Rel, bytes: &[u8]) -> bool {
    match world.tree().file(at) {
        Some(found) => found == bytes,
        None => false,
    }
}
