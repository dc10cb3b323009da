// Texts that are no paths of the workspace.
ghost use Rattle.stage_graph.specs.Fault.{Checks, first_of};
ghost use Rattle.stage_graph.specs.Texts.{text_fault, track_texts, out_texts, need_texts, outside_fault};

use crate::TrackFile;
use crate::path::folder_of;
use dvc_base::{Fault, PathFault, Rel, Text};
use lock_files::PathEntry;
use stage_schema::{Out, ParamWant, Stage};
use std::alloc::Global;

/// The first text that is no path: the owners' come first, and then stage by stage those that it needs.
pub fn check_texts(alloc: Global, stages: &[Stage], tracks: &[TrackFile]) -> Result<(), Fault>
    ensures checked { Checks result (outside_fault stages.now tracks.now) }
{
    check_tracks(alloc, tracks)?;
    check_all_outs(alloc, stages)?;
    check_all_needs(alloc, stages)
}

fn check_tracks(alloc: Global, tracks: &[TrackFile]) -> Result<(), Fault>
    ensures checked { Checks result (first_of track_texts tracks.now) }
{
    for track in tracks {
        check_track(alloc, track)?;
    }
    Ok(())
}

fn check_track(alloc: Global, track: &TrackFile) -> Result<(), Fault>
    ensures checked { Checks result (track_texts track.now) }
{
    let folder = folder_of(alloc, &track.file)?;
    check_entries(alloc, &folder, track.track.outs.as_slice())
}

fn check_entries(alloc: Global, folder: &Rel, outs: &[PathEntry]) -> Result<(), Fault>
    ensures checked { Checks result (first_of (λ out. text_fault folder.now out.path) outs.now) }
{
    for out in outs {
        check_text(alloc, folder, out.path.as_str())?;
    }
    Ok(())
}

fn check_all_outs(alloc: Global, stages: &[Stage]) -> Result<(), Fault>
    ensures checked { Checks result (first_of out_texts stages.now) }
{
    for stage in stages {
        check_stage_outs(alloc, stage)?;
    }
    Ok(())
}

fn check_stage_outs(alloc: Global, stage: &Stage) -> Result<(), Fault>
    ensures checked { Checks result (out_texts stage.now) }
{
    check_outs(alloc, &stage.dir, stage.outs.as_slice())
}

fn check_outs(alloc: Global, dir: &Rel, outs: &[Out]) -> Result<(), Fault>
    ensures checked { Checks result (first_of (λ out. text_fault dir.now out.path) outs.now) }
{
    for out in outs {
        check_text(alloc, dir, out.path.as_str())?;
    }
    Ok(())
}

fn check_all_needs(alloc: Global, stages: &[Stage]) -> Result<(), Fault>
    ensures checked { Checks result (first_of need_texts stages.now) }
{
    for stage in stages {
        check_needs(alloc, stage)?;
    }
    Ok(())
}

fn check_needs(alloc: Global, stage: &Stage) -> Result<(), Fault>
    ensures checked { Checks result (need_texts stage.now) }
{
    check_deps(alloc, &stage.dir, stage.deps.as_slice())?;
    check_files(alloc, &stage.dir, stage.params.as_slice())
}

fn check_deps(alloc: Global, dir: &Rel, deps: &[Text]) -> Result<(), Fault>
    ensures checked { Checks result (first_of (text_fault dir.now) deps.now) }
{
    for dep in deps {
        check_text(alloc, dir, dep.as_str())?;
    }
    Ok(())
}

fn check_files(alloc: Global, dir: &Rel, wants: &[ParamWant]) -> Result<(), Fault>
    ensures checked { Checks result (first_of (λ want. text_fault dir.now want.file) wants.now) }
{
    for want in wants {
        check_text(alloc, dir, want.file.as_str())?;
    }
    Ok(())
}

fn check_text(alloc: Global, dir: &Rel, text: &str) -> Result<(), Fault>
    ensures checked { Checks result (text_fault dir.now text.now) }
{
    match dir.join(alloc, text) {
        Ok(_) => Ok(()),
        Err(PathFault::NoMemory) => Err(Fault::NoMemory),
        Err(why) => {
            let text = Text::of(alloc, text)?;
            Err(Fault::Outside { text, why })
        }
    }
}
