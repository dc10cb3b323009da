// The paths that stages make, and those that track files record.
ghost use Rattle.std.specs.Prelude.{◌≡◌, ◌++◌, map, IfOk, OnOk};
ghost use Rattle.std.specs.List.{flat_map, list_any};
ghost use Rattle.world_api.specs.Effect.{path_from};
ghost use Rattle.stage_graph.specs.Paths.{stage_outs};
ghost use Rattle.stage_plan.specs.Targets.{owners, track_outs, is_at_any};

use crate::planned::push_outs;
use dvc_base::{NoMemory, Rel, Rels, is_same};
use lock_files::PathEntry;
use stage_graph::{TrackFile, folder_of, path_from};
use stage_schema::Stage as Written;
use std::alloc::Global;

/// The outputs of all stages, and then what all track files record.
pub(crate) fn owners(
    alloc: Global,
    written: &[Written],
    tracks: &[TrackFile],
) -> Result<Rels, NoMemory>
    ensures exact { IfOk result (λ owned. owned ≡ owners written.now tracks.now) }
{
    let mut owned = Rels::new(alloc);
    push_stages(alloc, &mut owned, written)?;
    push_tracks(alloc, &mut owned, tracks)?;
    Ok(owned)
}

fn push_stages(alloc: Global, owned: &mut Rels, written: &[Written]) -> Result<(), NoMemory>
    ensures ok { OnOk result (owned.new ≡ owned.old ++ flat_map stage_outs written.now) }
{
    for stage in written {
        push_outs(alloc, owned, &stage.dir, stage.outs.as_slice())?;
    }
    Ok(())
}

fn push_tracks(alloc: Global, owned: &mut Rels, tracks: &[TrackFile]) -> Result<(), NoMemory>
    ensures ok { OnOk result (owned.new ≡ owned.old ++ flat_map track_outs tracks.now) }
{
    for track in tracks {
        push_track(alloc, owned, track)?;
    }
    Ok(())
}

/// What a track file records.
pub(crate) fn push_track(alloc: Global, owned: &mut Rels, track: &TrackFile) -> Result<(), NoMemory>
    ensures ok { OnOk result (owned.new ≡ owned.old ++ track_outs track.now) }
{
    let dir = folder_of(alloc, &track.file)?;
    push_entries(alloc, owned, &dir, track.track.outs.as_slice())
}

fn push_entries(
    alloc: Global,
    owned: &mut Rels,
    dir: &Rel,
    entries: &[PathEntry],
) -> Result<(), NoMemory>
    ensures ok { OnOk result (owned.new ≡ owned.old ++ map (λ e. path_from dir.now e.path) entries.now) }
{
    for entry in entries {
        owned.push(path_from(alloc, dir, entry.path.as_str())?)?;
    }
    Ok(())
}

/// Whether a path is one of these.
pub(crate) fn is_at_any(paths: &[Rel], path: &Rel) -> bool
    ensures exact { result ≡ is_at_any paths.now path.now }
{
    paths.iter().any(|at| is_same(path, at))
}

/// Whether one of some paths is one of these.
pub(crate) fn are_any_at(paths: &[Rel], owned: &[Rel]) -> bool
    ensures exact { result ≡ list_any (is_at_any paths.now) owned.now }
{
    owned.iter().any(|path| is_at_any(paths, path))
}
