// Runs remembered: where a record stands, what is found, and what is passed over.
ghost use Rattle.std.specs.Prelude.{IfOk};
ghost use Rattle.lock_files.specs.Form.{IsEntry};

use crate::values::{edit_file, edit_folder, file_is};
use dvc_base::{Key, Rel};
use lock_files::{Entry, print_entry, read_entry};
use run_cache::{find, keep, key_of};
use sim_world::{Pipe, SimWorld, Tree};
use std::alloc::Global;
use std::process::Abort;
use std::test::Fail;

// A run as a lock has it.
const RUN: &[u8] = b"cmd: train
deps:
- path: data
  hash: md5
  md5: 900150983cd24fb0d6963f7d28e17f72
  size: 3
params:
  params.yaml:
    rate: 0.10
    steps:
      b: 20
      a: 1.0
outs:
- path: model
  hash: md5
  md5: 0cc175b9c0f1b6a831c399e269772661
  size: 1
";

// The text that is kept of it.
const RECORD: &[u8] = b"cmd: train
deps:
- path: data
  hash: md5
  md5: 900150983cd24fb0d6963f7d28e17f72
  size: 3
params:
  params.yaml:
    rate: 1e-1
    steps:
      a: 1e0
      b: 2e1
outs:
- path: model
  hash: md5
  md5: 0cc175b9c0f1b6a831c399e269772661
  size: 1
";

// What another run of the same gave.
const OTHER: &[u8] = b"cmd: train
deps:
- path: data
  hash: md5
  md5: 900150983cd24fb0d6963f7d28e17f72
  size: 3
params:
  params.yaml:
    rate: 1e-1
    steps:
      a: 1e0
      b: 2e1
outs:
- path: model
  hash: md5
  md5: 92eb5ffee6ae2fec3ad71c777531578f
  size: 1
";

// What `sha256sum` says of the record's text with `outs:` and `- model` for its outputs.
const KEY: &[u8] = b"f04ce731995ff7134f75de5d2acf4b6c4e00580b8374de971e11add226c3141a";

// The folder of the key, and in it what `sha256sum` says of each text.
const PLACE: &str =
    ".dvc/cache/runs/f0/f04ce731995ff7134f75de5d2acf4b6c4e00580b8374de971e11add226c3141a/e4b3f01334adb97988c21bd033779d006ed77f94a5cfb71450d23757c4cc1364";

const OTHER_PLACE: &str =
    ".dvc/cache/runs/f0/f04ce731995ff7134f75de5d2acf4b6c4e00580b8374de971e11add226c3141a/8c6fafff1b84d66c7725e54860a6154a9e2d40b769c7a3e794a2bf0f16f10a0c";

#[test]
fn a_run_is_kept_in_canonical_form_and_found_by_its_key(rt: HostRuntime) -> Result<(), Fail> {
    let mut world = SimWorld::new(rt.alloc(), Tree::new(rt.alloc()))?;
    keep_and_find(&rt, rt.alloc(), &mut world)
}

fn keep_and_find(rt: &impl Abort, alloc: Global, world: &mut SimWorld<Pipe>) -> Result<(), Fail> {
    assert!(rt; finds_none(alloc, world)?);
    assert!(rt; has_key(alloc, RUN)?);
    assert!(rt; is_kept(alloc, world, RUN)?);
    let place = place_of(alloc, PLACE)?;
    assert!(rt; file_is(world, &place, RECORD));
    assert!(rt; finds(alloc, world, RECORD)?);
    assert_eq!(rt; world.starved(), 0);
    Ok(())
}

#[test]
fn the_first_of_two_records_is_found(rt: HostRuntime) -> Result<(), Fail> {
    let mut world = SimWorld::new(rt.alloc(), Tree::new(rt.alloc()))?;
    keep_two(&rt, rt.alloc(), &mut world)
}

fn keep_two(rt: &impl Abort, alloc: Global, world: &mut SimWorld<Pipe>) -> Result<(), Fail> {
    assert!(rt; is_kept(alloc, world, RUN)?);
    assert!(rt; is_kept(alloc, world, OTHER)?);
    assert!(rt; finds(alloc, world, OTHER)?);
    Ok(())
}

#[test]
fn a_record_with_its_last_byte_gone_is_passed_over(rt: HostRuntime) -> Result<(), Fail> {
    let mut world = SimWorld::new(rt.alloc(), Tree::new(rt.alloc()))?;
    spoil_the_first(&rt, rt.alloc(), &mut world)
}

fn spoil_the_first(rt: &impl Abort, alloc: Global, world: &mut SimWorld<Pipe>) -> Result<(), Fail> {
    assert!(rt; is_kept(alloc, world, RUN)?);
    let place = place_of(alloc, OTHER_PLACE)?;
    edit_file(alloc, world, &place, without_last(OTHER))?;
    assert!(rt; finds(alloc, world, RECORD)?);
    Ok(())
}

fn without_last(bytes: &[u8]) -> &[u8] {
    match bytes {
        [front @ .., _] => front,
        [] => bytes,
    }
}

#[test]
fn a_folder_at_the_place_of_a_record_gives_way(rt: HostRuntime) -> Result<(), Fail> {
    let mut world = SimWorld::new(rt.alloc(), Tree::new(rt.alloc()))?;
    keep_over_folder(&rt, rt.alloc(), &mut world)
}

fn keep_over_folder(
    rt: &impl Abort,
    alloc: Global,
    world: &mut SimWorld<Pipe>,
) -> Result<(), Fail> {
    let place = place_of(alloc, PLACE)?;
    edit_folder(alloc, world, &place)?;
    assert!(rt; finds_none(alloc, world)?);
    assert!(rt; is_kept(alloc, world, RUN)?);
    assert!(rt; file_is(world, &place, RECORD));
    assert!(rt; finds(alloc, world, RECORD)?);
    Ok(())
}

// ---- what the tests ask

fn place_of(alloc: Global, text: &str) -> Result<Rel, Fail> {
    let place = Rel::root(alloc).join(alloc, text)?;
    Ok(place)
}

fn the_key() -> Result<Key, Fail> {
    match Key::parse(KEY) {
        Some(key) => Ok(key),
        None => Err(Fail::new("the text is a key")),
    }
}

// The entry of a short text.
fn entry_of(alloc: Global, text: &[u8]) -> Result<Entry, Fail>
    ensures form { IfOk result IsEntry }
{
    if text.len() > 1_000 {
        return Err(Fail::new("the text is short"));
    }
    match read_entry(alloc, text) {
        Ok(entry) => Ok(entry),
        Err(_) => Err(Fail::new("the text is an entry's")),
    }
}

fn has_key(alloc: Global, text: &[u8]) -> Result<bool, Fail> {
    let entry = entry_of(alloc, text)?;
    let key = key_of(alloc, &entry)?;
    Ok(key.digits.as_slice() == KEY)
}

fn is_kept(alloc: Global, world: &mut SimWorld<Pipe>, text: &[u8]) -> Result<bool, Fail> {
    let entry = entry_of(alloc, text)?;
    Ok(keep(alloc, world, &entry).is_ok())
}

// Whether the key finds no record.
fn finds_none(alloc: Global, world: &mut SimWorld<Pipe>) -> Result<bool, Fail> {
    let key = the_key()?;
    Ok(matches!(find(alloc, world, &key), Ok(None)))
}

// Whether the key finds the record with this text.
fn finds(alloc: Global, world: &mut SimWorld<Pipe>, text: &[u8]) -> Result<bool, Fail> {
    let key = the_key()?;
    match find(alloc, world, &key) {
        Ok(Some(entry)) => is_printed(alloc, &entry, text),
        _ => Ok(false),
    }
}

fn is_printed(alloc: Global, entry: &Entry, text: &[u8]) -> Result<bool, Fail>
    requires { IsEntry entry.now }
{
    let printed = print_entry(alloc, entry)?;
    Ok(printed.as_slice() == text)
}
