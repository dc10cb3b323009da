//! Reads a table of `dvc.yaml` texts, whose file's name is the one word, and tells of each row the stages that it says,
//! and whether it asks outputs for more than that they be made.
//!
//! Each line is a text, but for those that begin with `#` and empty ones, which stay as they are. From the first line on that
//! begins with `= ` each such line begins a text, which has all lines up to the next one.
#![tactic(auto)]

mod show;
mod table;

use crate::table::outcomes;
use std::alloc::Global;
use std::io::{ErrorKind, Write};
use std::process::ExitCode;
use std::rt::Runtime;
use std::{env, fs, io};

fn main(rt: HostRuntime) -> ExitCode {
    match run(&rt, rt.alloc()) {
        Ok(()) => ExitCode::SUCCESS,
        Err(fault) => {
            // Where nothing can be said the status alone tells of it.
            let _ = eprintln!(rt; "stage_table: {fault}");
            ExitCode::FAILURE
        }
    }
}

fn run<R: Runtime>(rt: &R, alloc: Global) -> io::Result<()> {
    let Some(path) = env::args(rt)?.skip(1).next() else {
        return Err(io::Error::from(ErrorKind::InvalidInput));
    };
    let rows = fs::read(rt, path.as_str())?;
    tell(rt, alloc, &rows)
}

fn tell<R: Runtime>(rt: &R, alloc: Global, rows: &[u8]) -> io::Result<()> {
    match outcomes(alloc, rows) {
        Ok(out) => io::writer(rt).write_all(out.as_slice()),
        Err(_) => Err(io::Error::from(ErrorKind::OutOfMemory)),
    }
}
