// Files that change between looking and reading.
use crate::call::{End, FailingPuts, perform};
use crate::outputs::Outputs;
use crate::project::{Project, load, new_project, path_of, put, words_of};
use crate::shifted::{Shift, Shifted};
use dvc_base::Texts;
use std::alloc::Global;
use std::rt::Runtime;
use std::test::Fail;

/// Plays a `repro` for each file that it reads and each way in which that changes.
pub(crate) fn play_all<R: Runtime>(rt: &R, alloc: Global) -> Result<(), Fail> {
    let words = words_of(alloc, "repro")?;
    for path in ["dvc.yaml", "dvc.lock", "in", "out"] {
        rt.println(format_args!("{path} is shorter when it is read"))?;
        play(rt, alloc, &words, path, Shift::Longer)?;
        rt.println(format_args!("{path} is longer when it is read"))?;
        play(rt, alloc, &words, path, Shift::Shorter)?;
    }
    Ok(())
}

fn play<R: Runtime>(
    rt: &R,
    alloc: Global,
    words: &Texts,
    path: &str,
    shift: Shift,
) -> Result<(), Fail> {
    let mut world = world_with(rt, alloc, path, shift)?;
    play_in(rt, alloc, words, &mut world)
}

fn play_in<R: Runtime>(
    rt: &R,
    alloc: Global,
    words: &Texts,
    world: &mut Shifted,
) -> Result<(), Fail> {
    let puts = FailingPuts::NONE;
    let end = perform(rt, alloc, words, world, puts, Outputs::Printed)?;
    print_end(rt, end)
}

fn print_end<R: Runtime>(rt: &R, end: End) -> Result<(), Fail> {
    let status = end.status;
    match end.sizes {
        Some((told, found)) => {
            rt.println(format_args!(
                "status {status}, told to have {told} bytes, and {found} were found\n"
            ))?;
        }
        None => rt.println(format_args!("status {status}, no file has changed\n"))?,
    }
    Ok(())
}

fn world_with<R: Runtime>(
    rt: &R,
    alloc: Global,
    path: &str,
    shift: Shift,
) -> Result<Shifted, Fail> {
    let path = path_of(alloc, path)?;
    let project = done_project(rt, alloc)?;
    Ok(Shifted::new(project, path, shift))
}

// A project whose one stage has been run.
fn done_project<R: Runtime>(rt: &R, alloc: Global) -> Result<Project, Fail> {
    let mut project = new_project(alloc)?;
    put_run(rt, alloc, &mut project)?;
    Ok(project)
}

fn put_run<R: Runtime>(rt: &R, alloc: Global, project: &mut Project) -> Result<(), Fail> {
    put(alloc, project, "out", b"abc")?;
    load(rt, alloc, project, "dvc.yaml", "copy.yaml")?;
    load(rt, alloc, project, "dvc.lock", "copy.lock")
}
