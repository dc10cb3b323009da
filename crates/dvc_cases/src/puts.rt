// Outputs in which a put fails.
use crate::call::{End, FailingPuts, perform};
use crate::outputs::{Outputs, expect};
use crate::project::{Project, jobs_of, load, new_project, words_of};
use dvc_base::Texts;
use std::alloc::Global;
use std::rt::Runtime;
use std::test::Fail;

// More puts than are made.
const MANY: u32 = 20;

/// Lets each put of the output fail, and then each of the error output.
pub(crate) fn play_all<R: Runtime>(rt: &R, alloc: Global) -> Result<(), Fail> {
    let words = words_of(alloc, "repro")?;
    play_outputs(rt, alloc, &words)?;
    rt.println("each failing put of the output is told, and nothing has run")?;
    play_errors(rt, alloc, &words)?;
    rt.println("each failing put of the error output changes nothing")?;
    Ok(())
}

fn play_outputs<R: Runtime>(rt: &R, alloc: Global, words: &Texts) -> Result<(), Fail> {
    let mut failed = 0;
    for put in 1..MANY {
        let puts = FailingPuts { out: put, err: 0 };
        if fails(rt, alloc, words, "copy.yaml", puts, Outputs::CopyLines)? {
            failed = put;
        }
    }
    expect(0 < failed, "a put of the lines fails")
}

fn play_errors<R: Runtime>(rt: &R, alloc: Global, words: &Texts) -> Result<(), Fail> {
    for put in 1..MANY {
        let puts = FailingPuts { out: 0, err: put };
        let failed = fails(rt, alloc, words, "exit.yaml", puts, Outputs::FailedCommand)?;
        expect(failed, "a command has failed")?;
    }
    Ok(())
}

// Whether the call doesn't end well.
fn fails<R: Runtime>(
    rt: &R,
    alloc: Global,
    words: &Texts,
    yaml: &str,
    puts: FailingPuts,
    outputs: Outputs,
) -> Result<bool, Fail> {
    let mut project = new_project(alloc)?;
    fails_in(rt, alloc, words, yaml, puts, outputs, &mut project)
}

fn fails_in<R: Runtime>(
    rt: &R,
    alloc: Global,
    words: &Texts,
    yaml: &str,
    puts: FailingPuts,
    outputs: Outputs,
    project: &mut Project,
) -> Result<bool, Fail> {
    load(rt, alloc, project, "dvc.yaml", yaml)?;
    let end = perform(rt, alloc, words, project, puts, outputs)?;
    check(end, puts, jobs_of(project))?;
    Ok(!end.is_ok)
}

// The lines are put before the command runs, so where one fails nothing has run.
fn check(end: End, puts: FailingPuts, jobs: usize) -> Result<(), Fail> {
    let runs = if end.is_ok || puts.out == 0 { 1 } else { 0 };
    expect(jobs == runs, "the lines are put before anything runs")?;
    expect(
        end.status == if end.is_ok { 0 } else { 255 },
        "a fault has its status",
    )
}
