// A folder in the memory world: its listing, and that it is met.
ghost use Rattle.std.specs.Prelude.{◌≡◌, true, IfOk};
ghost use Rattle.world_api.specs.Outside.{tree_of};
ghost use Rattle.world_api.specs.Writes.{IsFolderAt};
ghost use Rattle.sim_world.specs.World.{history_in};

use dvc_base::{Bytes, Rel};
use file_hash::{listing_at, print_listing};
use sim_world::{FileMap, Pipe, SimWorld, Tree, Value};
use std::alloc::Global;
use std::process::Abort;
use std::test::Fail;
use world_api::{Kind, ReadFiles};

const LISTING: &str = r#"[{"md5": "0cc175b9c0f1b6a831c399e269772661", "relpath": "a.txt"}]"#;

#[test]
fn a_folder_is_listed_and_met(rt: HostRuntime) -> Result<(), Fail> {
    let mut world = SimWorld::new(rt.alloc(), Tree::new(rt.alloc()))?;
    list_and_meet(&rt, rt.alloc(), &mut world)
}

fn list_and_meet(rt: &impl Abort, alloc: Global, world: &mut SimWorld<Pipe>) -> Result<(), Fail> {
    let at = Rel::root(alloc).join(alloc, "d")?;
    put_folder(alloc, world, &at)?;
    assert!(rt; has_listing(alloc, world, &at)?);
    world.meet(&at)?;
    assert_eq!(rt; world.starved(), 0);
    Ok(())
}

// Puts a folder at the path, which isn't the root.
fn put_folder(alloc: Global, world: &mut SimWorld<Pipe>, at: &Rel) -> Result<(), Fail> {
    if at.parts().is_empty() {
        return Err(Fail::new("no folder is put at the root"));
    }
    let value = Value::Files(one_file(alloc)?);
    world.edit(at, &value)?;
    Ok(())
}

fn one_file(alloc: Global) -> Result<FileMap, Fail> {
    let mut files = FileMap::new(alloc);
    add_file(alloc, &mut files)?;
    Ok(files)
}

fn add_file(alloc: Global, files: &mut FileMap) -> Result<(), Fail> {
    let at = Rel::root(alloc).join(alloc, "a.txt")?;
    if !files.is_free(&at) {
        return Err(Fail::new("a map without a file has room"));
    }
    files.put(at, Bytes::of(alloc, b"a")?)?;
    Ok(())
}

fn has_listing(alloc: Global, world: &mut SimWorld<Pipe>, at: &Rel) -> Result<bool, Fail> {
    if !is_folder(world, at)? {
        return Ok(false);
    }
    match listing_at(alloc, world, at) {
        Ok(list) => Ok(print_listing(alloc, &list)?.as_slice() == LISTING.as_bytes()),
        Err(_) => Ok(false),
    }
}

fn is_folder(world: &mut SimWorld<Pipe>, at: &Rel) -> Result<bool, Fail>
    ensures folder { IfOk result (λ is. is ≡ true → IsFolderAt (tree_of (history_in world.new)) at.now) }
{
    let kind = world.kind(at)?;
    Ok(kind == Kind::Folder)
}
