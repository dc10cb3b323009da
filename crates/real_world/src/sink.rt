// The program's own two streams.
ghost use Rattle.std.specs.Prelude.{◌≡◌, [], false};
ghost use Rattle.real_world.specs.Counting.{Counts};
ghost use Rattle.real_world.specs.Told.{faults_of};

use crate::failures::Failures;
use dvc_base::Failed;
use std::io::{ErrorKind, Write};
use std::process::Processes;
use std::rt::Runtime;
use std::{io, str};
use world_api::Sink;

#[derive(Clone, Copy)]
enum Stream {
    Output,
    Errors,
}

/// Standard output or standard error. Nothing waits in a buffer after a put, so what the tool has said
/// stands before what a command says next.
#[derive(Drop)]
pub struct RealSink<R> {
    rt: R,
    stream: Stream,
    pub(crate) failures: Failures,
}

impl<R: Runtime + Processes + Send> RealSink<R> {
    /// Standard output.
    pub fn out(rt: R) -> RealSink<R>
        ensures fresh { (faults_of result.failures).count ≡ 0 }
    {
        RealSink {
            rt,
            stream: Stream::Output,
            failures: Failures::none(),
        }
    }

    /// Standard error. It takes text alone, as std does: other bytes are a failure.
    pub fn err(rt: R) -> RealSink<R>
        ensures fresh { (faults_of result.failures).count ≡ 0 }
    {
        RealSink {
            rt,
            stream: Stream::Errors,
            failures: Failures::none(),
        }
    }
}

impl<R: Runtime + Processes + Send> Sink for RealSink<R> {
    ghost tells = { false };

    ghost taken = { λ _. [] };

    ghost faults = { λ sink. faults_of sink.failures };

    fn put(&mut self, bytes: &[u8]) -> Result<(), Failed>
        ensures counted { Counts self.old.failures.count self.new.failures.count result }
    {
        let written = match self.stream {
            Stream::Output => io::writer(&self.rt).write_all(bytes),
            Stream::Errors => write_errors(&self.rt, bytes),
        };
        self.failures.counted(written)
    }
}

fn write_errors(rt: &impl Eprint, bytes: &[u8]) -> io::Result<()> {
    match str::from_utf8(bytes) {
        Ok(text) => rt.eprint(text),
        Err(_) => Err(io::Error::from(ErrorKind::InvalidData)),
    }
}
