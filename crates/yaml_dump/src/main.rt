//! Reads a YAML file, whose name is the one word, and prints it as the project prints YAML; or prints its fault.
//!
//! The exit status is 0 for a text that has a node, 2 for one that has a fault, and 1 where the file can't be read,
//! which the error output tells.
#![tactic(auto)]

mod again;

use crate::again::print_again;
use std::alloc::Global;
use std::io::{ErrorKind, Write};
use std::process::ExitCode;
use std::rt::Runtime;
use std::{env, fs, io};

// The longest text: a line of it has a number below 2^32.
const MAX_LEN: usize = u32::MAX as usize - 1;

// The status where the file can't be read, or the output written.
const FAILURE: u8 = 1;

fn main(rt: HostRuntime) -> ExitCode {
    match run(&rt, rt.alloc()) {
        Ok(status) => ExitCode::from(status),
        Err(fault) => {
            // Where nothing can be said the status alone tells of it.
            let _ = eprintln!(rt; "yaml_dump: {fault}");
            ExitCode::from(FAILURE)
        }
    }
}

fn run<R: Runtime>(rt: &R, alloc: Global) -> io::Result<u8> {
    let Some(path) = env::args(rt)?.skip(1).next() else {
        eprintln!(rt; "usage: yaml_dump FILE")?;
        return Ok(FAILURE);
    };
    match fs::read(rt, path.as_str()) {
        Ok(text) => tell(rt, alloc, &text),
        Err(fault) => {
            eprintln!(rt; "yaml_dump: '{path}': {fault}")?;
            Ok(FAILURE)
        }
    }
}

fn tell<R: Runtime>(rt: &R, alloc: Global, text: &[u8]) -> io::Result<u8> {
    if text.len() > MAX_LEN {
        return Err(io::Error::from(ErrorKind::FileTooLarge));
    }
    match print_again(alloc, text) {
        Ok(bytes) => {
            io::writer(rt).write_all(bytes.as_slice())?;
            Ok(0)
        }
        Err(fault) => {
            let line = format!(in alloc; "{fault:?}\n")?;
            io::writer(rt).write_all(line.as_str().as_bytes())?;
            Ok(2)
        }
    }
}
