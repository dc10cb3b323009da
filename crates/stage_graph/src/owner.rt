// What records or makes a path.
ghost use Rattle.std.specs.Prelude.{◌≡◌, ◌++◌, IfOk, OnOk};
ghost use Rattle.std.specs.List.{flat_map};
ghost use Rattle.world_api.specs.Effect.{path_from};
ghost use Rattle.stage_graph.specs.Paths.{owners_of_entries, owners_of_outs, track_owners, stage_owners, owners, owner_paths};

use crate::TrackFile;
use crate::path::{folder_of, path_from};
use dvc_base::{NoMemory, Plain, Plural, Rel, Rels, Text};
use lock_files::PathEntry;
use stage_schema::{Out, Stage};
use std::alloc::Global;

/// A path with the name of what it belongs to: of the stage that makes it, or of the track file that records it.
#[derive(Drop)]
pub struct Owner {
    pub path: Rel,
    pub name: Text,
}

/// Owners in order.
pub type Owners = Plural<Owner>;

/// The outs of the track files, and then the outputs of the stages.
pub fn owners(alloc: Global, stages: &[Stage], tracks: &[TrackFile]) -> Result<Owners, NoMemory>
    ensures exact { IfOk result (λ all. all ≡ owners stages.now tracks.now) }
{
    let mut all = Owners::new(alloc);
    push_tracks(alloc, &mut all, tracks)?;
    push_stages(alloc, &mut all, stages)?;
    Ok(all)
}

fn push_tracks(alloc: Global, all: &mut Owners, tracks: &[TrackFile]) -> Result<(), NoMemory>
    ensures ok { OnOk result (all.new ≡ all.old ++ flat_map track_owners tracks.now) }
{
    for track in tracks {
        push_track(alloc, all, track)?;
    }
    Ok(())
}

fn push_track(alloc: Global, all: &mut Owners, track: &TrackFile) -> Result<(), NoMemory>
    ensures ok { OnOk result (all.new ≡ all.old ++ track_owners track.now) }
{
    let folder = folder_of(alloc, &track.file)?;
    push_entries(
        alloc,
        all,
        &folder,
        track.file.text(),
        track.track.outs.as_slice(),
    )
}

fn push_entries(
    alloc: Global,
    all: &mut Owners,
    dir: &Rel,
    name: &str,
    outs: &[PathEntry],
) -> Result<(), NoMemory>
    ensures ok { OnOk result (all.new ≡ all.old ++ owners_of_entries dir.now name.now outs.now) }
{
    for out in outs {
        let owner = owner_of(alloc, dir, out.path.as_str(), name)?;
        all.push(owner)?;
    }
    Ok(())
}

fn push_stages(alloc: Global, all: &mut Owners, stages: &[Stage]) -> Result<(), NoMemory>
    ensures ok { OnOk result (all.new ≡ all.old ++ flat_map stage_owners stages.now) }
{
    for stage in stages {
        push_stage(alloc, all, stage)?;
    }
    Ok(())
}

fn push_stage(alloc: Global, all: &mut Owners, stage: &Stage) -> Result<(), NoMemory>
    ensures ok { OnOk result (all.new ≡ all.old ++ stage_owners stage.now) }
{
    push_outs(
        alloc,
        all,
        &stage.dir,
        stage.name.as_str(),
        stage.outs.as_slice(),
    )
}

fn push_outs(
    alloc: Global,
    all: &mut Owners,
    dir: &Rel,
    name: &str,
    outs: &[Out],
) -> Result<(), NoMemory>
    ensures ok { OnOk result (all.new ≡ all.old ++ owners_of_outs dir.now name.now outs.now) }
{
    for out in outs {
        let owner = owner_of(alloc, dir, out.path.as_str(), name)?;
        all.push(owner)?;
    }
    Ok(())
}

fn owner_of(alloc: Global, dir: &Rel, text: &str, name: &str) -> Result<Owner, NoMemory>
    ensures exact { IfOk result (λ made. made ≡ record { path = path_from dir.now text.now; name = name.now }) }
{
    let path = path_from(alloc, dir, text)?;
    let name = Text::of(alloc, name)?;
    Ok(Owner { path, name })
}

/// The paths alone.
pub fn owner_paths(alloc: Global, owners: &[Owner]) -> Result<Rels, NoMemory>
    ensures exact { IfOk result (λ paths. paths ≡ owner_paths owners.now) }
{
    let mut paths = Rels::new(alloc);
    for owner in owners {
        paths.push(owner.path.copy(alloc)?)?;
    }
    Ok(paths)
}
