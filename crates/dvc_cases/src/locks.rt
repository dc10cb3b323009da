// Locks that were cut or spoilt: none is taken for the whole one. It is refused, with all as it was, or the stage runs.
use crate::call::{FailingPuts, perform};
use crate::outputs::{Outputs, expect};
use crate::project::{Project, jobs_of, load, new_project, path_of, put, words_of};
use dvc_base::Texts;
use std::alloc::Global;
use std::fs;
use std::rt::Runtime;
use std::test::Fail;

/// Plays a `repro` beside each lock.
pub(crate) fn play_all<R: Runtime>(rt: &R, alloc: Global) -> Result<(), Fail> {
    let words = words_of(alloc, "repro")?;
    play_with(rt, alloc, &words)
}

fn play_with<R: Runtime>(rt: &R, alloc: Global, words: &Texts) -> Result<(), Fail> {
    let text = fs::read_to_string(rt, "copy.lock")?;
    let lock = text.as_str().as_bytes();
    // The last line feed alone can be left out.
    for end in 0..lock.len().saturating_sub(1) {
        doubts(rt, alloc, words, &lock[..end])?;
    }
    rt.println("no lock that was cut is taken for the whole one")?;
    for place in 0..lock.len() {
        doubts_spoilt(rt, alloc, words, lock, place)?;
    }
    rt.println("no lock with a spoilt byte is taken for the whole one")?;
    Ok(())
}

// A byte that stands nowhere in a lock takes the place of one.
fn doubts_spoilt<R: Runtime>(
    rt: &R,
    alloc: Global,
    words: &Texts,
    lock: &[u8],
    place: usize,
) -> Result<(), Fail> {
    let mut spoilt = Vec::from_slice(alloc, lock)?;
    if let Some(byte) = spoilt.get_mut(place) {
        *byte = b'~';
    }
    doubts(rt, alloc, words, spoilt.as_slice())
}

fn doubts<R: Runtime>(rt: &R, alloc: Global, words: &Texts, lock: &[u8]) -> Result<(), Fail> {
    let mut project = new_project(alloc)?;
    doubts_in(rt, alloc, words, lock, &mut project)
}

fn doubts_in<R: Runtime>(
    rt: &R,
    alloc: Global,
    words: &Texts,
    lock: &[u8],
    project: &mut Project,
) -> Result<(), Fail> {
    load(rt, alloc, project, "dvc.yaml", "copy.yaml")?;
    put(alloc, project, "out", b"abc")?;
    put(alloc, project, "dvc.lock", lock)?;
    let puts = FailingPuts::NONE;
    let end = perform(rt, alloc, words, project, puts, Outputs::NoSkip)?;
    if end.is_ok {
        return expect(jobs_of(project) == 1, "the stage runs");
    }
    expect(jobs_of(project) == 0, "nothing has run")?;
    stands(alloc, project, "out", b"abc")?;
    stands(alloc, project, "dvc.lock", lock)
}

fn stands(alloc: Global, project: &Project, path: &str, text: &[u8]) -> Result<(), Fail> {
    let at = path_of(alloc, path)?;
    expect(
        project.tree().file(&at) == Some(text),
        "a file is as it was",
    )
}
