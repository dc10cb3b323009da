// What stands in both worlds before the first call, and the paths that the calls speak of.
use dvc_base::{Bytes, Rel};
use real_world::RealWorld;
use sim_world::{Pipe, SimWorld, Tree, Value};
use std::alloc::Global;
use std::fs;
use std::test::Fail;

// Each file has its own path for its bytes, but for the empty one.
const FILES: &[&str] = &[
    "in",
    "d/e",
    "d/deep/f",
    "d/deep/g/h",
    "two/x",
    "g/\u{e9}/i",
    "w x/y",
    "n/b",
    "n/a/deep",
    "n/a-",
    "n/a b",
    "n/B",
    "n/.hidden",
    "n/\u{e9}",
    "n/\u{1f600}",
    "n/\u{ffff}",
    "n/-rf",
    "n/a line\nand another",
    "n/\"q\" \\",
];

const PATHS: &[&str] = &[
    ".",
    "in",
    "in/below",
    "out",
    "two",
    "two/x",
    "d",
    "d/e",
    "d/e/below",
    "d/new",
    "d/deep",
    "d/deep/f",
    "d/deep/g/new",
    "g/\u{e9}",
    "g/\u{e9}/i",
    "w x/y",
    "w x/ y ",
    "missing/below",
    "missing/below/it/and more",
    "n",
    "n/a",
    "n/b/below",
    "n/a/deep/below/more",
    ".dvc",
    ".dvc/config",
    ".dvc/tmp",
    ".dvc/tmp/new-0",
    ".dvc/tmp/new-1/below",
    "it's",
    "\"q\" \\ `$HOME` * ~",
    "a line\nand another\n",
    "na\u{ef}ve \u{65e5}\u{672c} \u{1f600}",
    "-rf",
    "...",
    "\u{7f}\u{1}",
];

/// The paths, and names of as many bytes as a file's can have and of more.
pub(crate) fn paths(alloc: Global) -> Result<Vec<Rel>, Fail> {
    let mut paths = Vec::new(alloc);
    for text in PATHS {
        paths.push(Rel::root(alloc).join(alloc, text)?)?;
    }
    for bytes in [255, 256, 1_000] {
        paths.push(Rel::root(alloc).join(alloc, long_name(alloc, bytes)?.as_str())?)?;
    }
    paths.push(long_path(alloc)?)?;
    Ok(paths)
}

/// So many letters.
pub(crate) fn long_name(alloc: Global, bytes: usize) -> Result<String, Fail> {
    Ok(String::from_utf8(Vec::from_elem(alloc, b'n', bytes)?)?)
}

// As long as a path can be, with names as long as those of real files.
fn long_path(alloc: Global) -> Result<Rel, Fail> {
    let name = long_name(alloc, 255)?;
    let mut at = Rel::root(alloc);
    for _ in 0..4 {
        at = at.join(alloc, name.as_str())?;
    }
    Ok(at)
}

/// The world in memory, in which the file of that path stands too.
pub(crate) fn memory(alloc: Global, left: &str) -> Result<SimWorld<Pipe>, Fail> {
    let mut world = SimWorld::new(alloc, Tree::new(alloc))?;
    fill_memory(alloc, &mut world, left)?;
    Ok(world)
}

fn fill_memory(alloc: Global, world: &mut SimWorld<Pipe>, left: &str) -> Result<(), Fail> {
    for path in FILES {
        edit(alloc, world, path, path)?;
    }
    edit(alloc, world, "quiet", "")?;
    edit(alloc, world, left, "left")
}

/// Puts a file of the text there.
pub(crate) fn edit(
    alloc: Global,
    world: &mut SimWorld<Pipe>,
    path: &str,
    text: &str,
) -> Result<(), Fail> {
    let path = Rel::root(alloc).join(alloc, path)?;
    if path.parts().is_empty() {
        return Err(Fail::new("no file is the root"));
    }
    let value = Value::File(Bytes::of(alloc, text.as_bytes())?);
    world.edit(&path, &value)?;
    Ok(())
}

/// The same on real files, in a new folder.
pub(crate) fn real(
    rt: &HostRuntime,
    folder: &str,
    left: &str,
) -> Result<RealWorld<HostRuntime>, Fail> {
    for path in FILES {
        write(rt, folder, path, path)?;
    }
    write(rt, folder, "quiet", "")?;
    write(rt, folder, left, "left")?;
    Ok(RealWorld::new(rt.clone()?, rt.alloc(), folder)?)
}

/// Puts a file of the text there, with the folders above it.
pub(crate) fn write(rt: &HostRuntime, folder: &str, path: &str, text: &str) -> Result<(), Fail> {
    let place = format!(in rt.alloc(); "{folder}/{path}")?;
    if let Some((above, _)) = place.rsplit_once('/') {
        fs::create_dir_all(rt, above)?;
    }
    fs::write(rt, place.as_str(), text)?;
    Ok(())
}
