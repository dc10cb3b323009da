// What stands in the way of an object: a folder at its place gives way, a file above it doesn't.
ghost use Rattle.object_cache.specs.Store.{IsOutside};

use crate::values::{FILE, edit_file, edit_folder, name_of, object_is, value_path};
use dvc_base::Rel;
use object_cache::{CacheFault, object_path, put_from};
use sim_world::{Pipe, SimWorld, Tree};
use std::alloc::Global;
use std::process::Abort;
use std::test::Fail;

const ABOVE: &str = ".dvc/cache/files";

const PLACE: &str = ".dvc/cache/files/md5/0c/c175b9c0f1b6a831c399e269772661";

#[test]
fn a_folder_at_the_place_of_an_object_gives_way(rt: HostRuntime) -> Result<(), Fail> {
    let mut world = SimWorld::new(rt.alloc(), Tree::new(rt.alloc()))?;
    store_over_folder(&rt, rt.alloc(), &mut world)
}

fn store_over_folder(
    rt: &impl Abort,
    alloc: Global,
    world: &mut SimWorld<Pipe>,
) -> Result<(), Fail> {
    let name = name_of(FILE)?;
    let place = object_path(alloc, &name)?;
    assert!(rt; place.text() == PLACE);
    edit_folder(alloc, world, &place)?;
    assert!(rt; is_file_put(alloc, world)?);
    assert!(rt; object_is(alloc, world, &name, b"a")?);
    assert_eq!(rt; world.starved(), 0);
    Ok(())
}

fn is_file_put(alloc: Global, world: &mut SimWorld<Pipe>) -> Result<bool, Fail> {
    let at = value_path(alloc)?;
    edit_file(alloc, world, &at, b"a")?;
    Ok(put_from(alloc, world, &at).is_ok())
}

#[test]
fn a_file_above_the_objects_is_in_the_way(rt: HostRuntime) -> Result<(), Fail> {
    let mut world = SimWorld::new(rt.alloc(), Tree::new(rt.alloc()))?;
    store_below_file(&rt, rt.alloc(), &mut world)
}

fn store_below_file(
    rt: &impl Abort,
    alloc: Global,
    world: &mut SimWorld<Pipe>,
) -> Result<(), Fail> {
    let above = Rel::root(alloc).join(alloc, ABOVE)?;
    edit_file(alloc, world, &above, b"b")?;
    assert!(rt; is_in_the_way(alloc, world)?);
    Ok(())
}

fn is_in_the_way(alloc: Global, world: &mut SimWorld<Pipe>) -> Result<bool, Fail> {
    let at = value_path(alloc)?;
    edit_file(alloc, world, &at, b"a")?;
    Ok(is_refused(alloc, world, &at))
}

fn is_refused(alloc: Global, world: &mut SimWorld<Pipe>, at: &Rel) -> bool
    requires outside { IsOutside at.now }
{
    match put_from(alloc, world, at) {
        Err(CacheFault::NotFolder { path }) => path.text() == ABOVE,
        _ => false,
    }
}
