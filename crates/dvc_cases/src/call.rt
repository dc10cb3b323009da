// The top call over worlds in memory. Its clauses are met here, and nowhere else in this program.
use crate::outputs::{Outputs, judge};
use dvc_base::{Fault, Numbers, Texts};
use dvc_cli::dvc;
use sim_world::MemSink;
use std::alloc::Global;
use std::rt::Runtime;
use std::test::Fail;
use world_api::{Sink, World};

/// How a call ended.
#[derive(Clone, Copy)]
pub(crate) struct End {
    pub status: u8,
    pub is_ok: bool,
    /// Of a file that changed: the size that it was told to have, and the size that was found.
    pub sizes: Option<(u64, u64)>,
}

/// The numbers of the puts that fail, on the output and on the error output. No put has the number 0.
#[derive(Clone, Copy)]
pub(crate) struct FailingPuts {
    pub out: u32,
    pub err: u32,
}

impl FailingPuts {
    pub(crate) const NONE: FailingPuts = FailingPuts { out: 0, err: 0 };
}

/// Does what the words say, and looks at what the outputs took.
pub(crate) fn perform<R: Runtime, W: World>(
    rt: &R,
    alloc: Global,
    words: &Texts,
    world: &mut W,
    puts: FailingPuts,
    outputs: Outputs,
) -> Result<End, Fail> {
    let mut out = sink(alloc, puts.out)?;
    perform_out(rt, alloc, words, world, &mut out, puts.err, outputs)
}

fn perform_out<R: Runtime, W: World>(
    rt: &R,
    alloc: Global,
    words: &Texts,
    world: &mut W,
    out: &mut MemSink,
    err_put: u32,
    outputs: Outputs,
) -> Result<End, Fail> {
    let mut err = sink(alloc, err_put)?;
    let end = call(alloc, words, world, out, &mut err);
    judge(rt, outputs, out.bytes(), err.bytes())?;
    Ok(end)
}

fn call<W: World, K: Sink>(
    alloc: Global,
    words: &Texts,
    world: &mut W,
    out: &mut K,
    err: &mut K,
) -> End {
    let done = dvc(alloc, words, world, out, err);
    End {
        status: done.status,
        is_ok: done.fault.is_none(),
        sizes: sizes_of(&done.fault),
    }
}

fn sizes_of(fault: &Option<Fault>) -> Option<(u64, u64)> {
    match fault {
        Some(Fault::Changed { told, found, .. }) => Some((*told, *found)),
        _ => None,
    }
}

fn sink(alloc: Global, put: u32) -> Result<MemSink, Fail> {
    let mut numbers = Numbers::new(alloc);
    numbers.push(put)?;
    Ok(MemSink::new(alloc, numbers))
}
