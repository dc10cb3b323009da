// The cases that are written down.
use crate::call::{End, FailingPuts, perform};
use crate::outputs::{Outputs, print_bytes};
use crate::project::{Project, jobs_of, load, new_project, path_of, put, remove, words_of};
use dvc_base::Texts;
use std::alloc::Global;
use std::fs;
use std::rt::Runtime;
use std::test::Fail;

/// Plays each case, and prints its lines with what they came to.
pub(crate) fn play_all<R: Runtime>(rt: &R, alloc: Global) -> Result<(), Fail> {
    let text = fs::read_to_string(rt, "cases")?;
    for case in text.as_str().split("\n\n") {
        play(rt, alloc, case)?;
    }
    Ok(())
}

fn play<R: Runtime>(rt: &R, alloc: Global, case: &str) -> Result<(), Fail> {
    let mut project = new_project(alloc)?;
    play_in(rt, alloc, case, &mut project)
}

fn play_in<R: Runtime>(
    rt: &R,
    alloc: Global,
    case: &str,
    project: &mut Project,
) -> Result<(), Fail> {
    for line in case.lines() {
        rt.println(line)?;
        if let Some(text) = line.strip_prefix("  ") {
            step(rt, alloc, text, project)?;
        }
    }
    print_file(rt, alloc, "out", project)?;
    print_file(rt, alloc, "dvc.lock", project)?;
    rt.println("")?;
    Ok(())
}

fn step<R: Runtime>(rt: &R, alloc: Global, line: &str, project: &mut Project) -> Result<(), Fail> {
    if let Some((path, name)) = line.split_once(" < ") {
        return load(rt, alloc, project, path, name);
    }
    if let Some((path, text)) = line.split_once(" = ") {
        return put(alloc, project, path, text.as_bytes());
    }
    if let Some(path) = line.strip_prefix("rm ") {
        return remove(alloc, project, path);
    }
    if let Some(path) = line.strip_prefix("show ") {
        return print_file(rt, alloc, path, project);
    }
    if let Some(words) = line.strip_prefix("dvc") {
        return perform_line(rt, alloc, words, project);
    }
    if line.starts_with("# ") {
        return Ok(());
    }
    Err(Fail::new("a line is no step"))
}

fn perform_line<R: Runtime>(
    rt: &R,
    alloc: Global,
    line: &str,
    project: &mut Project,
) -> Result<(), Fail> {
    let words = words_of(alloc, line)?;
    perform_words(rt, alloc, &words, project)
}

fn perform_words<R: Runtime>(
    rt: &R,
    alloc: Global,
    words: &Texts,
    project: &mut Project,
) -> Result<(), Fail> {
    let puts = FailingPuts::NONE;
    let end = perform(rt, alloc, words, project, puts, Outputs::Printed)?;
    print_end(rt, end, jobs_of(project))
}

fn print_end<R: Runtime>(rt: &R, end: End, jobs: usize) -> Result<(), Fail> {
    let status = end.status;
    let fault = if end.is_ok { "no fault" } else { "a fault" };
    rt.println(format_args!("status {status}, {fault}, jobs so far: {jobs}"))?;
    Ok(())
}

fn print_file<R: Runtime>(
    rt: &R,
    alloc: Global,
    path: &str,
    project: &Project,
) -> Result<(), Fail> {
    let at = path_of(alloc, path)?;
    match project.tree().file(&at) {
        Some(bytes) => print_bytes(rt, path, bytes),
        None => {
            rt.println(format_args!("no file at {path}"))?;
            Ok(())
        }
    }
}
