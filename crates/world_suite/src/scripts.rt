// Real files alone: what a world in memory hasn't, as links, pipes, failures and what a shell sees. A script
// has a call a line, with its answer behind an arrow, and is played in a folder of its own.
use crate::asked::may_publish;
use dvc_base::{Failed, ParamFiles, Rel, Text, Texts};
use real_world::RealWorld;
use std::alloc::Global;
use std::fmt::Debug;
use std::test::Fail;
use std::{fs, str};
use world_api::{Files, Job, ReadFiles, Shell};

/// The real files below a folder.
pub(crate) type Real = RealWorld<HostRuntime>;

/// Plays the script in a new folder of this path.
pub(crate) fn play(rt: HostRuntime, folder: &str, script: &str) -> Result<(), Fail> {
    fs::create_dir_all(&rt, folder)?;
    let alloc = rt.alloc();
    let mut world = RealWorld::new(rt, alloc, folder)?;
    play_lines(alloc, &mut world, script)
}

fn play_lines(alloc: Global, world: &mut Real, script: &str) -> Result<(), Fail> {
    for line in script.lines() {
        play_line(alloc, world, line)?;
    }
    Ok(())
}

fn play_line(alloc: Global, world: &mut Real, line: &str) -> Result<(), Fail> {
    let (call, want) = line.split_once(" => ").unwrap_or((line, ""));
    expect(alloc, world, call, want)
}

/// Runs the command at the root. Where it succeeds, the line's call has its answer; else that call fails.
pub(crate) fn as_shell(
    alloc: Global,
    world: &mut Real,
    command: &str,
    line: &str,
) -> Result<(), Fail> {
    let (call, done) = line.split_once(" => ").unwrap_or((line, ""));
    let job = job_of(alloc, ".", command)?;
    let exit = world.run(&job)?;
    let want = if exit.code == 0 { done } else { "Err(Failed)" };
    expect(alloc, world, call, want)
}

fn expect(alloc: Global, world: &mut Real, call: &str, want: &str) -> Result<(), Fail> {
    let answer = answer_of(alloc, world, call)?;
    if answer.as_str() == want {
        return Ok(());
    }
    Err(Fail::new(format_args!("{call} => {want}: {answer}")))
}

fn answer_of(alloc: Global, world: &mut Real, call: &str) -> Result<String, Fail> {
    let (verb, rest) = call.split_once(' ').unwrap_or((call, ""));
    match verb {
        "kind" => kind(alloc, world, rest),
        "read" => read(alloc, world, rest),
        "list" => list(alloc, world, rest),
        "make" => make(alloc, world, rest),
        "clear" => clear(alloc, world, rest),
        "begin" => shown(alloc, world.begin(0)),
        "append" => shown(alloc, world.append(0, rest.as_bytes())),
        "settle" => shown(alloc, world.settle(0)),
        "publish" => publish(alloc, world, rest),
        "run" => run(alloc, world, rest),
        _ => Err(Fail::new(format_args!("{call}: no call"))),
    }
}

fn shown<T: Debug + Drop>(alloc: Global, answer: T) -> Result<String, Fail> {
    Ok(format!(in alloc; "{answer:?}")?)
}

fn kind(alloc: Global, world: &mut Real, text: &str) -> Result<String, Fail> {
    let at = path_of(alloc, text)?;
    shown(alloc, world.kind(&at))
}

fn list(alloc: Global, world: &mut Real, text: &str) -> Result<String, Fail> {
    let at = path_of(alloc, text)?;
    shown(alloc, world.list(alloc, &at))
}

fn make(alloc: Global, world: &mut Real, text: &str) -> Result<String, Fail> {
    let at = path_of(alloc, text)?;
    shown(alloc, world.make_folder(&at))
}

// `PATH FROM`: at most ten bytes.
fn read(alloc: Global, world: &mut Real, rest: &str) -> Result<String, Fail> {
    let (text, from) = rest.split_once(' ').unwrap_or((rest, "0"));
    let at = path_of(alloc, text)?;
    let mut bytes = [0; 10];
    match world.read_at(&at, from.parse::<u64>()?, &mut bytes) {
        Ok(count) => shown(alloc, str::from_utf8(&bytes[..count])),
        Err(Failed) => shown(alloc, Err::<(), Failed>(Failed)),
    }
}

fn clear(alloc: Global, world: &mut Real, text: &str) -> Result<String, Fail> {
    let at = path_of(alloc, text)?;
    if at.parts().is_empty() {
        return Err(Fail::new("the root is never cleared"));
    }
    shown(alloc, world.clear(&at))
}

fn publish(alloc: Global, world: &mut Real, text: &str) -> Result<String, Fail> {
    let at = path_of(alloc, text)?;
    publish_at(alloc, world, &at)
}

fn publish_at(alloc: Global, world: &mut Real, at: &Rel) -> Result<String, Fail> {
    if !may_publish(alloc, at, 0)? {
        return Err(Fail::new("a lane is never published at itself"));
    }
    shown(alloc, world.publish(0, at))
}

// `DIR: COMMAND;; COMMAND`
fn run(alloc: Global, world: &mut Real, rest: &str) -> Result<String, Fail> {
    let (dir, commands) = rest.split_once(": ").unwrap_or((rest, ""));
    let job = job_of(alloc, dir, commands)?;
    shown(alloc, world.run(&job))
}

fn job_of(alloc: Global, dir: &str, commands: &str) -> Result<Job, Fail> {
    Ok(Job {
        stage: Text::of(alloc, "stage")?,
        commands: texts_of(alloc, commands)?,
        dir: path_of(alloc, dir)?,
        deps: Texts::new(alloc),
        params: ParamFiles::new(alloc),
        outs: Texts::new(alloc),
    })
}

fn texts_of(alloc: Global, commands: &str) -> Result<Texts, Fail> {
    let mut texts = Texts::new(alloc);
    for command in commands.split(";; ") {
        texts.push(Text::of(alloc, command)?)?;
    }
    Ok(texts)
}

fn path_of(alloc: Global, text: &str) -> Result<Rel, Fail> {
    Ok(Rel::root(alloc).join(alloc, text)?)
}
