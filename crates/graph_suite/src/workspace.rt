// A small workspace in the memory world: what a walk over it finds, and what is read of what it found.
use dvc_base::{Bytes, Fault, Rel};
use sim_world::{Pipe, SimWorld, Tree, Value};
use stage_graph::TrackFile;
use std::alloc::Global;
use std::process::Abort;
use std::test::Fail;
use workspace_files::{Found, check_ignores, find, read_tracks};

// Files of the workspace. The first three are found, and the tracks in another order.
const FILES: [&str; 7] = [
    "a/.dvcignore",
    "a/z.dvc",
    "a.dvc",
    "a/.dvc",
    "a/dvc",
    ".git/kept.dvc",
    ".hg/.dvcignore",
];

const TRACK: &str = "outs:
- md5: 0cc175b9c0f1b6a831c399e269772661
  size: 1
  hash: md5
  path: a
";

#[test]
fn a_walk_finds_two_kinds_of_files(rt: HostRuntime) -> Result<(), Fail> {
    let mut world = SimWorld::new(rt.alloc(), Tree::new(rt.alloc()))?;
    walk_over(&rt, rt.alloc(), &mut world)
}

fn walk_over(rt: &impl Abort, alloc: Global, world: &mut SimWorld<Pipe>) -> Result<(), Fail> {
    for path in FILES {
        put(alloc, world, path, "")?;
    }
    assert!(rt; finds_three(alloc, world));
    Ok(())
}

#[test]
fn a_rule_is_refused(rt: HostRuntime) -> Result<(), Fail> {
    let mut world = SimWorld::new(rt.alloc(), Tree::new(rt.alloc()))?;
    look_for_rules(&rt, rt.alloc(), &mut world)
}

fn look_for_rules(rt: &impl Abort, alloc: Global, world: &mut SimWorld<Pipe>) -> Result<(), Fail> {
    put(alloc, world, "a/.dvcignore", "# nothing\r\n\r\n  \n")?;
    assert!(rt; !refuses_rules(alloc, world));
    put(alloc, world, "a/.dvcignore", "# nothing\r\n\r\n*.tmp \n")?;
    assert!(rt; refuses_rules(alloc, world));
    Ok(())
}

#[test]
fn a_track_file_is_read(rt: HostRuntime) -> Result<(), Fail> {
    let mut world = SimWorld::new(rt.alloc(), Tree::new(rt.alloc()))?;
    read_one(&rt, rt.alloc(), &mut world)
}

fn read_one(rt: &impl Abort, alloc: Global, world: &mut SimWorld<Pipe>) -> Result<(), Fail> {
    put(alloc, world, "a.dvc", TRACK)?;
    assert!(rt; reads_one(alloc, world));
    put(alloc, world, "b.dvc", "outs: []\n")?;
    assert!(rt; refuses_outs(alloc, world));
    Ok(())
}

fn finds_three(alloc: Global, world: &mut SimWorld<Pipe>) -> bool {
    match find(alloc, world) {
        Ok(found) => are_three(&found),
        Err(_) => false,
    }
}

fn are_three(found: &Found) -> bool {
    match (found.ignores.as_slice(), found.tracks.as_slice()) {
        ([rules], [first, second]) => is_at(rules, "a/.dvcignore")
            && is_at(first, "a.dvc")
            && is_at(second, "a/z.dvc"),
        _ => false,
    }
}

fn is_at(path: &Rel, text: &str) -> bool {
    path.text() == text
}

fn refuses_rules(alloc: Global, world: &mut SimWorld<Pipe>) -> bool {
    let Ok(found) = find(alloc, world) else {
        return false;
    };
    match check_ignores(alloc, world, found.ignores.as_slice()) {
        Err(Fault::IgnoreRules { file }) => is_at(&file, "a/.dvcignore"),
        _ => false,
    }
}

fn reads_one(alloc: Global, world: &mut SimWorld<Pipe>) -> bool {
    let Ok(found) = find(alloc, world) else {
        return false;
    };
    match read_tracks(alloc, world, found.tracks.as_slice()) {
        Ok(tracks) => is_one(tracks.as_slice()),
        Err(_) => false,
    }
}

fn is_one(tracks: &[TrackFile]) -> bool {
    match tracks {
        [only] => is_at(&only.file, "a.dvc") && only.track.outs.as_slice().len() == 1,
        _ => false,
    }
}

fn refuses_outs(alloc: Global, world: &mut SimWorld<Pipe>) -> bool {
    let Ok(found) = find(alloc, world) else {
        return false;
    };
    match read_tracks(alloc, world, found.tracks.as_slice()) {
        Err(Fault::Schema { file, key }) => is_at(&file, "b.dvc") && key.as_str() == "outs",
        _ => false,
    }
}

// Puts a file at the path, which isn't the root.
fn put(alloc: Global, world: &mut SimWorld<Pipe>, path: &str, text: &str) -> Result<(), Fail> {
    let at = Rel::root(alloc).join(alloc, path)?;
    if at.parts().is_empty() {
        return Err(Fail::new("no file is the root"));
    }
    let value = Value::File(Bytes::of(alloc, text.as_bytes())?);
    world.edit(&at, &value)?;
    Ok(())
}
