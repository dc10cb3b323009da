// Each test starts in an empty folder.
use crate::asked::may_publish;
use crate::calls::perform;
use crate::layout::{memory, paths, real};
use crate::scripts::{Real, play};
use crate::told::Told;
use dvc_base::{Failed, Rel};
use real_world::{RealSink, RealWorld};
use std::alloc::Global;
use std::str;
use std::test::Fail;
use world_api::{Files, Kind, ReadFiles, Sink, World};

const CALLS: u32 = 120;

#[test]
fn both_worlds_give_the_same_answers(rt: HostRuntime) -> Result<(), Fail> {
    for (seed, folder, left) in [
        (1, "first", ".dvc/tmp"),
        (2, "second", ".dvc/tmp/new-0/left"),
        (3, "third", ".dvc"),
    ] {
        agree(&rt, seed, folder, left)?;
    }
    Ok(())
}

fn agree(rt: &HostRuntime, seed: u64, folder: &str, left: &str) -> Result<(), Fail> {
    let told = told_in_memory(rt.alloc(), seed, left)?;
    let found = told_by_files(rt, seed, folder, left)?;
    same_lines(seed, told.as_str(), found.as_str())
}

fn told_in_memory(alloc: Global, seed: u64, left: &str) -> Result<String, Fail> {
    let mut world = memory(alloc, left)?;
    told_by(alloc, seed, &mut world)
}

fn told_by_files(rt: &HostRuntime, seed: u64, folder: &str, left: &str) -> Result<String, Fail> {
    let mut world = real(rt, folder, left)?;
    told_by(rt.alloc(), seed, &mut world)
}

fn told_by<W: World>(alloc: Global, seed: u64, world: &mut W) -> Result<String, Fail> {
    let paths = paths(alloc)?;
    let mut told = Told::new(alloc, seed);
    perform(&paths, &mut told, world, CALLS)?;
    Ok(told.text)
}

fn same_lines(seed: u64, told: &str, found: &str) -> Result<(), Fail> {
    for (ours, theirs) in told.lines().zip(found.lines()) {
        if ours != theirs {
            return Err(differs(seed, theirs, ours));
        }
    }
    if told.len() == found.len() {
        return Ok(());
    }
    Err(Fail::new(format_args!("{seed}: one has more lines")))
}

fn differs(seed: u64, theirs: &str, ours: &str) -> Fail {
    Fail::new(format_args!("{seed}: {theirs} in place of {ours}"))
}

const LINKS: &str =
    "run .: printf abc > file; : > empty; mkfifo pipe; mkdir -p folder/deeper => Ok(Exit { code: 0 })
run .: printf x > folder/inner; ln -s file to_file; ln -s folder to_folder; ln -s nothing broken => Ok(Exit { code: 0 })
run .: ln -s pipe to_pipe; ln -s round round => Ok(Exit { code: 0 })
kind to_file => Ok(File { size: 3 })
kind to_file/below => Ok(Missing)
kind to_folder => Ok(Folder)
kind to_folder/inner => Ok(File { size: 1 })
kind broken => Ok(Missing)
kind pipe => Err(Failed)
kind pipe/below => Ok(Missing)
kind to_pipe => Err(Failed)
kind round => Err(Failed)
read to_file 1 => Ok(\"bc\")
read to_folder/inner 0 => Ok(\"x\")
read folder 0 => Err(Failed)
read missing 0 => Err(Failed)
read missing 9223372036854775808 => Err(Failed)
read file 9223372036854775808 => Ok(\"\")
read broken 0 => Err(Failed)
read file/below 0 => Err(Failed)
clear pipe/below => Ok(())
clear to_file => Ok(())
clear to_folder => Ok(())
clear broken => Ok(())
clear to_pipe => Ok(())
clear round => Ok(())
clear empty => Ok(())
run .: test \"$(echo *)\" = 'file folder pipe' && test -f folder/inner && test -d folder/deeper => Ok(Exit { code: 0 })
run .: mkdir -p deep/a/b/c/d/e/f/g/h/i/j/k; ln -s ../../folder deep/a/link; mkfifo deep/a/b/c/pipe => Ok(Exit { code: 0 })
clear deep => Ok(())
clear pipe => Ok(())
clear folder => Ok(())
run .: test \"$(echo *)\" = file => Ok(Exit { code: 0 })";

#[test]
fn links_are_followed_and_pipes_fail(rt: HostRuntime) -> Result<(), Fail> {
    play(rt, "links", LINKS)
}

const WRITES: &str =
    "run .: printf abc > file; mkdir folder; ln -s file to_file; ln -s nothing broken => Ok(Exit { code: 0 })
run .: ln -s folder to_folder; mkdir -p .dvc/tmp; printf old > .dvc/tmp/new-0 => Ok(Exit { code: 0 })
run .: ln .dvc/tmp/new-0 second => Ok(Exit { code: 0 })
begin => Ok(())
append one => Ok(())
read .dvc/tmp/new-0 0 => Ok(\"one\")
run .: test \"$(cat second)\" = old => Ok(Exit { code: 0 })
settle => Ok(())
read file 0 => Ok(\"abc\")
publish file => Ok(())
read file 0 => Ok(\"one\")
kind .dvc/tmp/new-0 => Ok(Missing)
publish file => Err(Failed)
read file 0 => Ok(\"one\")
append lost => Err(Failed)
settle => Err(Failed)
run .: ln -s ../../file .dvc/tmp/new-0 => Ok(Exit { code: 0 })
begin => Ok(())
append two => Ok(())
publish to_file => Ok(())
begin => Ok(())
append three => Ok(())
publish broken => Ok(())
begin => Ok(())
append four => Ok(())
publish to_folder/new => Ok(())
run .: test \"$(cat file to_file broken folder/new)\" = onetwothreefour => Ok(Exit { code: 0 })
run .: ! test -h to_file && ! test -h broken && test -z \"$(ls .dvc/tmp)\" => Ok(Exit { code: 0 })
begin => Ok(())
append five => Ok(())
publish folder => Err(Failed)
begin => Ok(())
publish missing/new => Err(Failed)
begin => Ok(())
publish file/new => Err(Failed)
begin => Ok(())
publish . => Err(Failed)
run .: test \"$(cat file folder/new)\" = onefour && ! test -e missing => Ok(Exit { code: 0 })
read file 0 => Ok(\"one\")
run .: printf six > file => Ok(Exit { code: 0 })
read file 0 => Ok(\"six\")
clear file => Ok(())
read file 0 => Err(Failed)
run .: rm -r .dvc; mkdir .dvc; printf x > .dvc/tmp => Ok(Exit { code: 0 })
begin => Ok(())
run .: rm -r .dvc/tmp; ln -s nothing .dvc/tmp => Ok(Exit { code: 0 })
begin => Ok(())
run .: rm -r .dvc/tmp; mkdir -p .dvc/tmp/new-0/deep => Ok(Exit { code: 0 })
begin => Ok(())
run .: rm -r .dvc; printf mine > .dvc => Ok(Exit { code: 0 })
begin => Err(Failed)
append lost => Err(Failed)
settle => Err(Failed)
publish new => Err(Failed)
run .: test \"$(cat .dvc)\" = mine && ! test -e new => Ok(Exit { code: 0 })";

#[test]
fn a_lane_is_new_and_takes_the_place_of_a_file_alone(rt: HostRuntime) -> Result<(), Fail> {
    play(rt, "writes", WRITES)
}

const JOBS: &str =
    "run .: mkdir -p folder/deeper; printf abc > file; printf x > folder/inner => Ok(Exit { code: 0 })
run .: true;; true => Ok(Exit { code: 0 })
run .: printf one > first;; printf two > second => Ok(Exit { code: 0 })
run .: exit 3;; printf three > third => Ok(Exit { code: 3 })
run .: true;; exit 255 => Ok(Exit { code: 255 })
run .: kill -9 $$;; printf three > third => Ok(Exit { code: -1 })
run .: true;; kill -15 $$ => Ok(Exit { code: -1 })
run .: no-such-command 2> /dev/null;; printf three > third => Ok(Exit { code: 127 })
run folder: cat inner > copy;; cp ../file deeper/file => Ok(Exit { code: 0 })
run missing: printf after > after => Err(Failed)
run file: printf after > after => Err(Failed)
run .: test \"$(cat first second folder/copy folder/deeper/file)\" = onetwoxabc => Ok(Exit { code: 0 })
run .: ! test -e third && ! test -e after => Ok(Exit { code: 0 })";

#[test]
fn a_job_ends_with_the_code_of_its_last_command(rt: HostRuntime) -> Result<(), Fail> {
    play(rt, "jobs", JOBS)
}

const FAR: &str =
    "run .: truncate -s 4294967294 file && printf abcdef >> file => Ok(Exit { code: 0 })
kind file => Ok(File { size: 4294967300 })
read file 4294967292 => Ok(\"\\0\\0abcdef\")
read file 4294967294 => Ok(\"abcdef\")
read file 4294967298 => Ok(\"ef\")
read file 4294967300 => Ok(\"\")
read file 4294967298 => Ok(\"ef\")
read file 9223372036854775807 => Ok(\"\")
read file 4294967296 => Ok(\"cdef\")
read file 18446744073709551615 => Ok(\"\")
read file 4294967297 => Ok(\"def\")";

#[test]
fn a_file_is_read_beyond_four_gib(rt: HostRuntime) -> Result<(), Fail> {
    play(rt, "far", FAR)
}

// Nobody may remove what stands there, not even the superuser, though the folder can be synced.
#[test]
fn what_stays_is_not_cleared(rt: HostRuntime) -> Result<(), Fail> {
    let mut world = RealWorld::new(rt.clone()?, rt.alloc(), "/dev/pts")?;
    stays(rt.alloc(), &mut world)
}

fn stays(alloc: Global, world: &mut Real) -> Result<(), Fail> {
    let at = Rel::root(alloc).join(alloc, "ptmx")?;
    if at.parts().is_empty() || world.kind(&at) == Ok(Kind::Missing) {
        return Ok(());
    }
    if world.clear(&at) == Err(Failed) {
        return Ok(());
    }
    Err(Fail::new("cleared what stays"))
}

// Who begins last publishes, and nobody else; the other's bytes stand nowhere.
#[test]
fn of_two_who_write_at_once_one_publishes(rt: HostRuntime) -> Result<(), Fail> {
    let mut first = RealWorld::new(rt.clone()?, rt.alloc(), ".")?;
    let mut second = RealWorld::new(rt.clone()?, rt.alloc(), ".")?;
    write_at_once(rt.alloc(), &mut first, &mut second)
}

fn write_at_once(alloc: Global, first: &mut Real, second: &mut Real) -> Result<(), Fail> {
    write_both(first, second)?;
    let at = Rel::root(alloc).join(alloc, "file")?;
    publish_both(alloc, first, second, &at)
}

fn write_both(first: &mut Real, second: &mut Real) -> Result<(), Fail> {
    first.begin(0)?;
    first.append(0, b"first")?;
    second.begin(0)?;
    second.append(0, b"sec")?;
    first.append(0, b" and more")?;
    second.append(0, b"ond")?;
    first.settle(0)?;
    second.settle(0)?;
    Ok(())
}

fn publish_both(alloc: Global, first: &mut Real, second: &mut Real, at: &Rel) -> Result<(), Fail> {
    if !may_publish(alloc, at, 0)? {
        return Err(Fail::new("the path is a lane"));
    }
    if first.publish(0, at).is_ok() || first.kind(at)? != Kind::Missing {
        return Err(Fail::new("published what is another's"));
    }
    second.publish(0, at)?;
    reads(second, at, "second")
}

fn reads(world: &mut Real, at: &Rel, text: &str) -> Result<(), Fail> {
    let mut bytes = [0; 10];
    let count = world.read_at(at, 0, &mut bytes)?;
    if str::from_utf8(&bytes[..count]).ok() == Some(text) {
        return Ok(());
    }
    Err(Fail::new("two texts in one file"))
}

#[test]
fn a_sink_puts_bytes_and_tells_failures(rt: HostRuntime) -> Result<(), Fail> {
    let mut out = RealSink::out(rt.clone()?);
    let mut err = RealSink::err(rt.clone()?);
    puts(&mut out, &mut err)
}

// Standard error takes text alone.
fn puts(out: &mut RealSink<HostRuntime>, err: &mut RealSink<HostRuntime>) -> Result<(), Fail> {
    out.put(b"one\n\xff\n")?;
    err.put("t\u{f6}o\n".as_bytes())?;
    if err.put(b"\xff\n") == Err(Failed) {
        return Ok(());
    }
    Err(Fail::new("bytes were put that are no text"))
}
