//! Reads a table of locks, track files and entries, whose file's name is the one word, and tells what each is read as.
//!
//! A line that begins with `= lock`, `= track` or `= entry` begins a text, which has all lines up to the next line that begins
//! with `= `. Behind it stands what is printed of it and whether that is read back as the same, or why it isn't read.
#![tactic(auto)]

mod again;
mod show;
mod table;

use crate::table::outcomes;
use std::alloc::Global;
use std::io::{ErrorKind, Write};
use std::process::ExitCode;
use std::rt::Runtime;
use std::{env, fs, io};

fn main(rt: HostRuntime) -> ExitCode {
    match run(&rt, rt.alloc()) {
        Ok(()) => ExitCode::SUCCESS,
        Err(fault) => {
            // Where nothing can be said the status alone tells of it.
            let _ = eprintln!(rt; "record_table: {fault}");
            ExitCode::FAILURE
        }
    }
}

fn run<R: Runtime>(rt: &R, alloc: Global) -> io::Result<()> {
    let Some(path) = env::args(rt)?.skip(1).next() else {
        return Err(io::Error::from(ErrorKind::InvalidInput));
    };
    let table = fs::read(rt, path.as_str())?;
    tell(rt, alloc, &table)
}

fn tell<R: Runtime>(rt: &R, alloc: Global, table: &[u8]) -> io::Result<()> {
    match outcomes(alloc, table) {
        Ok(out) => io::writer(rt).write_all(out.as_slice()),
        Err(_) => Err(io::Error::from(ErrorKind::OutOfMemory)),
    }
}
