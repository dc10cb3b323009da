// A folder and a file stored: what is there then, what is whole, and what is given out.
ghost use Rattle.std.specs.Prelude.{◌≡◌, false};
ghost use Rattle.dvc_base.specs.Path.{overlap};
ghost use Rattle.world_api.specs.Layout.{dvc_path};
ghost use Rattle.object_cache.specs.Store.{IsOutside};

use crate::values::{FILE, edit, edit_file, edit_folder, file_is, name_of, object_is, value_path};
use dvc_base::{Name, Rel};
use file_hash::{Listing, Named, print_listing};
use object_cache::{CacheFault, give_to, has, listing_of, object_path, put_from, whole};
use sim_world::{Pipe, SimWorld, Tree, Value};
use std::alloc::Global;
use std::process::Abort;
use std::test::Fail;
use world_api::{Kind, tmp_path};

// The listing of a folder with one file `a.txt` of the one byte `a`, and its name.
const LISTING: &str = r#"[{"md5": "0cc175b9c0f1b6a831c399e269772661", "relpath": "a.txt"}]"#;

const FOLDER: &[u8] = b"1710014904e6b7e979d3965269bd0f83.dir";

#[test]
fn a_stored_folder_is_whole_until_a_byte_of_a_member_changes(rt: HostRuntime) -> Result<(), Fail> {
    let mut world = SimWorld::new(rt.alloc(), Tree::new(rt.alloc()))?;
    store_and_spoil(&rt, rt.alloc(), &mut world)
}

fn store_and_spoil(rt: &impl Abort, alloc: Global, world: &mut SimWorld<Pipe>) -> Result<(), Fail> {
    let at = value_path(alloc)?;
    edit_folder(alloc, world, &at)?;
    assert!(rt; is_put(alloc, world, &at, &folder_named()?)?);
    assert!(rt; is_folder_stored(alloc, world)?);
    spoil(alloc, world)?;
    assert!(rt; is_member_absent(alloc, world, &at)?);
    world.meet(&at)?;
    assert_eq!(rt; world.starved(), 0);
    Ok(())
}

// What is told of the folder by its name.
fn folder_named() -> Result<Named, Fail> {
    let name = name_of(FOLDER)?;
    Ok(Named {
        name,
        size: 1,
        nfiles: Some(1),
    })
}

fn put(alloc: Global, world: &mut SimWorld<Pipe>, at: &Rel) -> Result<Named, Fail>
    requires outside { IsOutside at.now }
{
    match put_from(alloc, world, at) {
        Ok(named) => Ok(named),
        Err(why) => Err(refused(why)),
    }
}

fn refused(_: CacheFault) -> Fail {
    Fail::new("nothing is in the way of the value")
}

// Whether the value is put, and has this name.
fn is_put(alloc: Global, world: &mut SimWorld<Pipe>, at: &Rel, named: &Named) -> Result<bool, Fail>
    requires outside { IsOutside at.now }
{
    let found = put(alloc, world, at)?;
    Ok(is_same(&found, named))
}

fn is_same(a: &Named, b: &Named) -> bool {
    a.name.digits() == b.name.digits()
        && a.name.dir == b.name.dir
        && a.size == b.size
        && a.nfiles == b.nfiles
}

fn is_folder_stored(alloc: Global, world: &mut SimWorld<Pipe>) -> Result<bool, Fail> {
    let (folder, file) = (name_of(FOLDER)?, name_of(FILE)?);
    Ok(
        is_there(alloc, world, &folder)
            && is_there(alloc, world, &file)
            && is_whole(alloc, world, &folder)
            && has_listing(alloc, world, &folder)
            && object_is(alloc, world, &folder, LISTING.as_bytes())?
            && object_is(alloc, world, &file, b"a")?,
    )
}

fn is_there(alloc: Global, world: &mut SimWorld<Pipe>, name: &Name) -> bool {
    matches!(has(alloc, world, name), Ok(true))
}

fn is_whole(alloc: Global, world: &mut SimWorld<Pipe>, name: &Name) -> bool {
    matches!(whole(alloc, world, name), Ok(true))
}

fn has_listing(alloc: Global, world: &mut SimWorld<Pipe>, name: &Name) -> bool {
    match listing_of(alloc, world, name) {
        Ok(listing) => is_printed(alloc, &listing),
        Err(_) => false,
    }
}

fn is_printed(alloc: Global, listing: &Listing) -> bool {
    match print_listing(alloc, listing) {
        Ok(text) => text.as_slice() == LISTING.as_bytes(),
        Err(_) => false,
    }
}

// Changes the last byte of the member's object.
fn spoil(alloc: Global, world: &mut SimWorld<Pipe>) -> Result<(), Fail> {
    let place = object_path(alloc, &name_of(FILE)?)?;
    edit_file(alloc, world, &place, b"b")
}

// Whether the listing is there and not whole, and the member isn't given out.
fn is_member_absent(alloc: Global, world: &mut SimWorld<Pipe>, at: &Rel) -> Result<bool, Fail>
    requires apart { overlap at.now dvc_path ≡ false }
{
    let (folder, file) = (name_of(FOLDER)?, name_of(FILE)?);
    Ok(
        is_there(alloc, world, &folder)
            && matches!(whole(alloc, world, &folder), Ok(false))
            && is_not_given(alloc, world, &file, at),
    )
}

fn is_not_given(alloc: Global, world: &mut SimWorld<Pipe>, name: &Name, at: &Rel) -> bool
    requires apart { overlap at.now dvc_path ≡ false }
{
    if name.dir {
        return false;
    }
    match give_to(alloc, world, name, at) {
        Ok(()) => false,
        Err(why) => is_absent(&why, name),
    }
}

fn is_absent(why: &CacheFault, name: &Name) -> bool {
    match why {
        CacheFault::Absent { name: absent } => absent.digits() == name.digits(),
        _ => false,
    }
}

#[test]
fn a_stored_file_is_given_out_in_place_of_a_folder(rt: HostRuntime) -> Result<(), Fail> {
    let mut world = SimWorld::new(rt.alloc(), Tree::new(rt.alloc()))?;
    store_and_give(&rt, rt.alloc(), &mut world)
}

fn store_and_give(rt: &impl Abort, alloc: Global, world: &mut SimWorld<Pipe>) -> Result<(), Fail> {
    let at = value_path(alloc)?;
    edit_file(alloc, world, &at, b"a")?;
    assert!(rt; is_put(alloc, world, &at, &file_named()?)?);
    edit_folder(alloc, world, &at)?;
    assert!(rt; is_given(alloc, world, &at)?);
    assert!(rt; file_is(world, &at, b"a"));
    assert_eq!(rt; world.starved(), 0);
    Ok(())
}

// What is told of the file by its name.
fn file_named() -> Result<Named, Fail> {
    let name = name_of(FILE)?;
    Ok(Named {
        name,
        size: 1,
        nfiles: None,
    })
}

fn is_given(alloc: Global, world: &mut SimWorld<Pipe>, at: &Rel) -> Result<bool, Fail>
    requires apart { overlap at.now dvc_path ≡ false }
{
    let name = name_of(FILE)?;
    if name.dir {
        return Ok(false);
    }
    Ok(is_whole(alloc, world, &name) && give_to(alloc, world, &name, at).is_ok())
}

#[test]
fn a_whole_value_is_stored_again_without_a_write(rt: HostRuntime) -> Result<(), Fail> {
    let mut world = SimWorld::new(rt.alloc(), Tree::new(rt.alloc()))?;
    store_twice(&rt, rt.alloc(), &mut world)
}

// What is written begins in the folder of lanes, which would be there again.
fn store_twice(rt: &impl Abort, alloc: Global, world: &mut SimWorld<Pipe>) -> Result<(), Fail> {
    let at = value_path(alloc)?;
    edit_folder(alloc, world, &at)?;
    assert!(rt; is_put(alloc, world, &at, &folder_named()?)?);
    let lanes = tmp_path(alloc)?;
    assert!(rt; world.tree().kind(&lanes) == Kind::Folder);
    edit(world, &lanes, &Value::Nothing)?;
    assert!(rt; is_put(alloc, world, &at, &folder_named()?)?);
    assert!(rt; world.tree().kind(&lanes) == Kind::Missing);
    assert!(rt; is_folder_stored(alloc, world)?);
    Ok(())
}
