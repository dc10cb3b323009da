//! The program `dvc`: the words of the command line, done in the current folder.
#![tactic(auto)]

ghost use Rattle.std.specs.Prelude.{◌≡◌};

use dvc_base::{Fault, NoMemory, Text, Texts};
use dvc_cli::{dvc, tell};
use real_world::{RealSink, RealWorld};
use std::alloc::Global;
use std::env;
use std::io::ErrorKind;
use std::process::{ExitCode, Processes};
use std::rt::Runtime;
use world_api::{Sink, World};

fn main(rt: HostRuntime) -> ExitCode {
    let status = match run(&rt, rt.alloc()) {
        Ok(status) => status,
        Err(NoMemory) => tell_no_memory(&rt),
    };
    ExitCode::from(status)
}

// The exit status of the command that the words say.
fn run<R: Runtime + Processes + Send>(rt: &R, alloc: Global) -> Result<u8, NoMemory> {
    let words = words(rt, alloc)?;
    run_words(rt, alloc, &words)
}

// The words after the program's name. Words that aren't text are none, which no command reads.
fn words<R: Runtime>(rt: &R, alloc: Global) -> Result<Texts, NoMemory> {
    let mut words = Texts::new(alloc);
    match env::args(rt) {
        Ok(given) => {
            for word in given.skip(1) {
                words.push(Text::of(alloc, word.as_str())?)?;
            }
            Ok(words)
        }
        Err(error) if error.kind() == ErrorKind::OutOfMemory => Err(NoMemory),
        Err(_) => Ok(words),
    }
}

fn run_words<R: Runtime + Processes + Send>(
    rt: &R,
    alloc: Global,
    words: &Texts,
) -> Result<u8, NoMemory> {
    let mut world = RealWorld::new(rt.clone()?, alloc, ".")?;
    run_in(rt, alloc, words, &mut world)
}

fn run_in<R: Runtime + Processes + Send>(
    rt: &R,
    alloc: Global,
    words: &Texts,
    world: &mut RealWorld<R>,
) -> Result<u8, NoMemory> {
    let mut out = RealSink::out(rt.clone()?);
    let mut err = RealSink::err(rt.clone()?);
    Ok(status_of(alloc, words, world, &mut out, &mut err))
}

// The clauses of the top call are met over every world at once: met over real files alone they cost more to prove.
fn status_of<W: World, K: Sink>(
    alloc: Global,
    words: &Texts,
    world: &mut W,
    out: &mut K,
    err: &mut K,
) -> u8 {
    dvc(alloc, words, world, out, err).status
}

// Where no memory is found before the command begins, its line and its status are those of a command that
// finds none. The line takes no memory.
fn tell_no_memory<R: Runtime + Processes + Send>(rt: &R) -> u8
    ensures status { result ≡ 255 }
{
    let fault = Fault::NoMemory;
    if let Ok(rt) = rt.clone() {
        let mut err = RealSink::err(rt);
        let _ = tell(&fault, &mut err);
    }
    fault.status()
}
