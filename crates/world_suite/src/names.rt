// The names of what stands in both worlds, against those that MD5 and JSON give.
use crate::folders::make;
use crate::layout::{edit, long_name, write};
use crate::told::Told;
use dvc_base::Rel;
use file_hash::{HashFault, Named, name_at};
use real_world::RealWorld;
use sim_world::{Pipe, SimWorld, Tree};
use std::alloc::Global;
use std::str;
use std::test::Fail;
use world_api::World;

// A file with what it holds.
const FILES: &[(&str, &str)] = &[
    ("abc", "abc"),
    ("empty", ""),
    ("folder/a.txt", "a"),
    ("deep/b", "two"),
    ("deep/a/c", "one"),
    ("deep/a-", "three"),
    ("deep/a/d/e", ""),
    ("odd/\u{e9}.txt", "e"),
    ("odd/\u{1f600}", "s"),
    ("odd/\u{ffff}", "f"),
    ("odd/\"q\" \\", "q"),
    ("odd/two\nlines", "l"),
    ("odd/\u{1}", "c"),
];

// Files of so many letters.
const LETTERS: &[(&str, usize)] = &[("letters/full", 65_536), ("letters/more", 65_537)];

// A path with its name, how many bytes it has, and of a folder how many files. A listing is in the order of the bytes of
// paths, and not of their components: `a-` stands before `a/c`.
const NAMES: &str = "abc => 900150983cd24fb0d6963f7d28e17f72 3 None
empty => d41d8cd98f00b204e9800998ecf8427e 0 None
folder => 1710014904e6b7e979d3965269bd0f83.dir 1 Some(1)
folder/a.txt => 0cc175b9c0f1b6a831c399e269772661 1 None
hollow => d751713988987e9331980363e24189ce.dir 0 Some(0)
deep => e74b2be6dd2310bf504e178f209d58db.dir 11 Some(4)
deep/a => 80a6110bd1ecf7c6d6ea3b456e8a8e72.dir 3 Some(2)
deep/a/d => 55d3148c19d5137ccbced8855d2bbad5.dir 0 Some(1)
deep/hollow => d751713988987e9331980363e24189ce.dir 0 Some(0)
odd => 64591a85b2188e400b7b621867ca6f04.dir 6 Some(6)
letters => f2f5c9c11a8f5aba782d45eeeba224cf.dir 131073 Some(2)
letters/full => dfa3ccf08c36bfefa3a8c63cab5d02f8 65536 None
letters/more => 70b309fee0d17134df2fb89edab26bc0 65537 None
missing => none
abc/below => none";

#[test]
fn names_in_memory_are_those_of_md5(rt: HostRuntime) -> Result<(), Fail> {
    let mut world = SimWorld::new(rt.alloc(), Tree::new(rt.alloc()))?;
    fill_memory(rt.alloc(), &mut world)?;
    check_names(rt.alloc(), &mut world)
}

fn fill_memory(alloc: Global, world: &mut SimWorld<Pipe>) -> Result<(), Fail> {
    for (path, text) in FILES {
        edit(alloc, world, path, text)?;
    }
    for (path, size) in LETTERS {
        edit(alloc, world, path, long_name(alloc, *size)?.as_str())?;
    }
    Ok(())
}

#[test]
fn names_of_real_files_are_those_of_md5(rt: HostRuntime) -> Result<(), Fail> {
    fill_files(&rt)?;
    let mut world = RealWorld::new(rt.clone()?, rt.alloc(), "names")?;
    check_names(rt.alloc(), &mut world)
}

fn fill_files(rt: &HostRuntime) -> Result<(), Fail> {
    for (path, text) in FILES {
        write(rt, "names", path, text)?;
    }
    for (path, size) in LETTERS {
        write(rt, "names", path, long_name(rt.alloc(), *size)?.as_str())?;
    }
    Ok(())
}

fn check_names<W: World>(alloc: Global, world: &mut W) -> Result<(), Fail> {
    make_hollow(alloc, world, "hollow")?;
    make_hollow(alloc, world, "deep/hollow")?;
    for line in NAMES.lines() {
        check_name(alloc, world, line)?;
    }
    Ok(())
}

fn make_hollow<W: World>(alloc: Global, world: &mut W, text: &str) -> Result<(), Fail> {
    let at = Rel::root(alloc).join(alloc, text)?;
    make(&at, &mut Told::new(alloc, 0), world)
}

fn check_name<W: World>(alloc: Global, world: &mut W, line: &str) -> Result<(), Fail> {
    let (path, want) = line.split_once(" => ").unwrap_or((line, ""));
    let at = Rel::root(alloc).join(alloc, path)?;
    let answer = answer_at(alloc, world, &at)?;
    expect(line, answer.as_str(), want)
}

fn expect(line: &str, answer: &str, want: &str) -> Result<(), Fail> {
    if answer == want {
        return Ok(());
    }
    Err(Fail::new(format_args!("{line}: {answer}")))
}

fn answer_at<W: World>(alloc: Global, world: &mut W, at: &Rel) -> Result<String, Fail> {
    match name_at(alloc, world, at) {
        Ok(named) => shown(alloc, &named),
        Err(fault) => unnamed(alloc, fault),
    }
}

// Any fault is told in the same way. It is handed over, so that both ways hold the same at their end.
fn unnamed(alloc: Global, _fault: HashFault) -> Result<String, Fail> {
    Ok(String::from_str(alloc, "none")?)
}

fn shown(alloc: Global, named: &Named) -> Result<String, Fail> {
    let digits = str::from_utf8(named.name.digits()).unwrap_or("no text");
    let ending = named.name.ending();
    let (size, nfiles) = (named.size, named.nfiles);
    Ok(format!(in alloc; "{digits}{ending} {size} {nfiles:?}")?)
}
