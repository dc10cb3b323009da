//! Reads a table of YAML texts, whose file's name is the one word, and tells of each row what it stands for.
//!
//! A row `= TEXT` gives the node of the text, or its fault with the line; what was read is printed and read again, and where
//! that isn't the same node both are told. A row `> TEXT` gives what the node is printed as. Each other line stays as it is.
//! In a row a byte can be written as an escape, as it is in what is told.
#![tactic(auto)]

mod escape;
mod show;
mod table;

use crate::table::outcomes;
use std::alloc::Global;
use std::io::{ErrorKind, Write};
use std::process::ExitCode;
use std::rt::Runtime;
use std::{env, fs, io};

fn main(rt: HostRuntime) -> ExitCode {
    match run(&rt, rt.alloc()) {
        Ok(()) => ExitCode::SUCCESS,
        Err(fault) => {
            // Where nothing can be said the status alone tells of it.
            let _ = eprintln!(rt; "yaml_table: {fault}");
            ExitCode::FAILURE
        }
    }
}

fn run<R: Runtime>(rt: &R, alloc: Global) -> io::Result<()> {
    let Some(path) = env::args(rt)?.skip(1).next() else {
        return Err(io::Error::from(ErrorKind::InvalidInput));
    };
    let rows = fs::read(rt, path.as_str())?;
    tell(rt, alloc, &rows)
}

fn tell<R: Runtime>(rt: &R, alloc: Global, rows: &[u8]) -> io::Result<()> {
    match outcomes(alloc, rows) {
        Ok(out) => io::writer(rt).write_all(out.as_slice()),
        Err(_) => Err(io::Error::from(ErrorKind::OutOfMemory)),
    }
}
