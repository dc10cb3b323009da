// The track files that targets choose.
ghost use Rattle.std.specs.Prelude.{◌≡◌, ◌<◌, ◌^◌, [], ◌∷◌, ◌++◌, length, map, IfOk, OnOk};
ghost use Rattle.std.specs.List.{list_any};
ghost use Rattle.dvc_base.specs.Path.{overlap};
ghost use Rattle.path_index.specs.Overlap.{places};
ghost use Rattle.world_api.specs.Effect.{path_from};
ghost use Rattle.stage_graph.specs.Paths.{needs};
ghost use Rattle.stage_plan.specs.Targets.{other_paths, chosen};
ghost use Rattle.stage_plan.specs.Plan.{reads_at, feeds, is_track_for, all_places, track_numbers, is_track_of, tracks_alone};

use crate::owners::{are_any_at, is_at_any, push_track};
use crate::targets::is_known;
use dvc_base::{NoMemory, Numbers, Rel, Rels, Text};
use lock_files::PathEntry;
use path_index::PathIndex;
use stage_graph::{TrackFile, folder_of, path_from};
use stage_schema::{ParamWant, Stage as Written};
use std::alloc::Global;

/// The places of the track files that targets name, and of those of what one of the stages at these places reads; all of them
/// where there is no target.
pub(crate) fn track_numbers(
    alloc: Global,
    written: &[Written],
    places: &[u32],
    tracks: &[TrackFile],
    targets: &[Text],
) -> Result<Numbers, NoMemory>
    requires few { length tracks.now < 2 ^ 32 }
    requires places { places.now ≡ chosen targets.now written.now }
    ensures exact { IfOk result (λ found. found ≡ track_numbers targets.now written.now tracks.now) }
{
    match targets {
        [] => all_places(alloc, tracks),
        [_, ..] => {
            let named = other_paths(alloc, written, targets)?;
            let reads = PathIndex::of(alloc, reads_at(alloc, written, places)?)?;
            places_for(alloc, tracks, named.as_slice(), &reads)
        }
    }
}

/// The places of the track files that targets name, or of which they name what is recorded; all of them where there is no target.
pub(crate) fn tracks_alone(
    alloc: Global,
    written: &[Written],
    tracks: &[TrackFile],
    targets: &[Text],
) -> Result<Numbers, NoMemory>
    requires few { length tracks.now < 2 ^ 32 }
    ensures exact { IfOk result (λ found. found ≡ tracks_alone targets.now written.now tracks.now) }
{
    match targets {
        [] => all_places(alloc, tracks),
        [_, ..] => {
            let paths = other_paths(alloc, written, targets)?;
            places_of(alloc, tracks, paths.as_slice())
        }
    }
}

fn all_places(alloc: Global, tracks: &[TrackFile]) -> Result<Numbers, NoMemory>
    requires few { length tracks.now < 2 ^ 32 }
    ensures exact { IfOk result (λ found. found ≡ all_places tracks.now) }
{
    let mut found = Numbers::new(alloc);
    for place in 0..tracks.len() {
        found.push(place as u32)?;
    }
    Ok(found)
}

fn places_for(
    alloc: Global,
    tracks: &[TrackFile],
    named: &[Rel],
    reads: &PathIndex,
) -> Result<Numbers, NoMemory>
    requires few { length tracks.now < 2 ^ 32 }
    ensures exact { IfOk result (λ found. found ≡ places (is_track_for named.now reads.now) tracks.now) }
{
    let mut found = Numbers::new(alloc);
    for place in 0..tracks.len() {
        if is_track_for(alloc, &tracks[place], named, reads)? {
            found.push(place as u32)?;
        }
    }
    Ok(found)
}

fn places_of(alloc: Global, tracks: &[TrackFile], paths: &[Rel]) -> Result<Numbers, NoMemory>
    requires few { length tracks.now < 2 ^ 32 }
    ensures exact { IfOk result (λ found. found ≡ places (is_track_of paths.now) tracks.now) }
{
    let mut found = Numbers::new(alloc);
    for place in 0..tracks.len() {
        if is_track_of(alloc, &tracks[place], paths)? {
            found.push(place as u32)?;
        }
    }
    Ok(found)
}

// Whether a track file is at one of the paths, or what it records is.
fn is_track_of(alloc: Global, track: &TrackFile, paths: &[Rel]) -> Result<bool, NoMemory>
    ensures exact { IfOk result (λ found. found ≡ is_track_of paths.now track.now) }
{
    if is_at_any(paths, &track.file) {
        return Ok(true);
    }
    let mut outs = Rels::new(alloc);
    push_track(alloc, &mut outs, track)?;
    Ok(are_any_at(paths, outs.as_slice()))
}

fn is_track_for(
    alloc: Global,
    track: &TrackFile,
    named: &[Rel],
    reads: &PathIndex,
) -> Result<bool, NoMemory>
    ensures exact { IfOk result (λ found. found ≡ is_track_for named.now reads.now track.now) }
{
    if is_at_any(named, &track.file) {
        return Ok(true);
    }
    feeds(alloc, track, reads)
}

// Whether an out of the track file overlaps something that is read.
fn feeds(alloc: Global, track: &TrackFile, reads: &PathIndex) -> Result<bool, NoMemory>
    ensures exact { IfOk result (λ found. found ≡ feeds reads.now track.now) }
{
    let dir = folder_of(alloc, &track.file)?;
    feeds_from(alloc, &dir, track.track.outs.as_slice(), reads)
}

fn feeds_from(
    alloc: Global,
    dir: &Rel,
    outs: &[PathEntry],
    reads: &PathIndex,
) -> Result<bool, NoMemory>
    ensures exact { IfOk result (λ found.
        found ≡ list_any (λ out. list_any (λ q. overlap q (path_from dir.now out.path)) reads.now) outs.now) }
{
    for out in outs {
        let path = path_from(alloc, dir, out.path.as_str())?;
        if is_read(reads, &path) {
            return Ok(true);
        }
    }
    Ok(false)
}

fn is_read(reads: &PathIndex, path: &Rel) -> bool
    ensures exact { result ≡ list_any (λ q. overlap q path.now) reads.now }
{
    reads.first_overlap(path).is_some()
}

// ---- paths

/// Where the targets lead that name neither a stage nor a group.
pub(crate) fn other_paths(
    alloc: Global,
    written: &[Written],
    targets: &[Text],
) -> Result<Rels, NoMemory>
    ensures exact { IfOk result (λ paths. paths ≡ other_paths written.now targets.now) }
{
    let mut paths = Rels::new(alloc);
    for target in targets {
        push_other(alloc, &mut paths, written, target)?;
    }
    Ok(paths)
}

fn push_other(
    alloc: Global,
    paths: &mut Rels,
    written: &[Written],
    target: &Text,
) -> Result<(), NoMemory>
    ensures ok { OnOk result (paths.new ≡ paths.old ++ other_paths written.now (target.now ∷ [])) }
{
    if !is_known(written, target) {
        let root = Rel::root(alloc);
        paths.push(path_from(alloc, &root, target.as_str())?)?;
    }
    Ok(())
}

// What the stages at these places read.
fn reads_at(alloc: Global, written: &[Written], places: &[u32]) -> Result<Rels, NoMemory>
    ensures exact { IfOk result (λ paths. paths ≡ reads_at written.now places.now) }
{
    let mut paths = Rels::new(alloc);
    for place in places {
        push_reads_at(alloc, &mut paths, written, *place)?;
    }
    Ok(paths)
}

fn push_reads_at(
    alloc: Global,
    paths: &mut Rels,
    written: &[Written],
    place: u32,
) -> Result<(), NoMemory>
    ensures ok { OnOk result (paths.new ≡ paths.old ++ reads_at written.now (place ∷ [])) }
{
    match written.get(place as usize) {
        Some(stage) => push_needs(alloc, paths, stage),
        None => Ok(()),
    }
}

fn push_needs(alloc: Global, paths: &mut Rels, stage: &Written) -> Result<(), NoMemory>
    ensures ok { OnOk result (paths.new ≡ paths.old ++ needs stage.now) }
{
    push_deps(alloc, paths, &stage.dir, stage.deps.as_slice())?;
    push_files(alloc, paths, &stage.dir, stage.params.as_slice())
}

fn push_deps(alloc: Global, paths: &mut Rels, dir: &Rel, deps: &[Text]) -> Result<(), NoMemory>
    ensures ok { OnOk result (paths.new ≡ paths.old ++ map (path_from dir.now) deps.now) }
{
    for dep in deps {
        paths.push(path_from(alloc, dir, dep.as_str())?)?;
    }
    Ok(())
}

fn push_files(
    alloc: Global,
    paths: &mut Rels,
    dir: &Rel,
    wants: &[ParamWant],
) -> Result<(), NoMemory>
    ensures ok { OnOk result (paths.new ≡ paths.old ++ map (λ want. path_from dir.now want.file) wants.now) }
{
    for want in wants {
        paths.push(path_from(alloc, dir, want.file.as_str())?)?;
    }
    Ok(())
}
