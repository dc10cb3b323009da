// Paths that are kept from owners, from what is read, and from variables.
ghost use Rattle.std.specs.Prelude.{◌≡◌, ◌∷◌, ◌++◌, [], map, IfOk, OnOk};
ghost use Rattle.std.specs.Option.{option_or, option_copied};
ghost use Rattle.std.specs.List.{find};
ghost use Rattle.dvc_base.specs.Path.{under};
ghost use Rattle.stage_graph.specs.Fault.{Checks, first_of};
ghost use Rattle.stage_graph.specs.Kept.{tool_paths, ignore_path, file_paths, near_fault, tool_fault, file_fault, itself_if, has_track_name, name_fault, dir_fault, is_track, var_fault, reserved_fault};
ghost use Rattle.stage_graph.specs.Paths.{needs};
ghost use Rattle.dvc_base.specs.declared.fault.Fault.TheVariants.{Reserved};

use crate::TrackFile;
use crate::path::needs_of;
use dvc_base::{Fault, NoMemory, Plain, Rel, Rels, is_at_or_below, is_same};
use path_index::PathIndex;
use stage_schema::Stage;
use std::alloc::Global;
use world_api::{dvc_path, lock_path, yaml_path};

/// The first path that is kept from an owner, from what a stage needs, or from a file of variables.
pub fn check_reserved(
    alloc: Global,
    owned: &[Rel],
    stages: &[Stage],
    tracks: &[TrackFile],
    vars: &[Rel],
    ignores: &[Rel],
) -> Result<(), Fault>
    ensures checked { Checks result (reserved_fault owned.now stages.now tracks.now vars.now ignores.now) }
{
    check_tool(alloc, owned, stages)?;
    check_files(alloc, owned, tracks, ignores)?;
    check_names(alloc, owned)?;
    check_others(alloc, stages, tracks, vars)
}

// Stages' folders, and files of variables.
fn check_others(
    alloc: Global,
    stages: &[Stage],
    tracks: &[TrackFile],
    vars: &[Rel],
) -> Result<(), Fault>
    ensures checked { Checks result (option_or (first_of dir_fault stages.now) (first_of (var_fault tracks.now) vars.now)) }
{
    let paths = tool_paths(alloc)?;
    let tool = PathIndex::of(alloc, paths)?;
    check_dirs(alloc, &tool, stages)?;
    check_vars(alloc, &tool, tracks, vars)
}

fn check_tool(alloc: Global, owned: &[Rel], stages: &[Stage]) -> Result<(), Fault>
    ensures checked { Checks result (tool_fault owned.now stages.now) }
{
    let paths = tool_paths(alloc)?;
    let tool = PathIndex::of(alloc, paths)?;
    check_paths(alloc, &tool, owned)?;
    check_needs(alloc, &tool, stages)
}

fn tool_paths(alloc: Global) -> Result<Rels, NoMemory>
    ensures exact { IfOk result (λ paths. paths ≡ tool_paths) }
{
    let mut paths = Rels::new(alloc);
    paths.push(dvc_path(alloc)?)?;
    paths.push(lock_path(alloc)?)?;
    Ok(paths)
}

fn check_needs(alloc: Global, tool: &PathIndex, stages: &[Stage]) -> Result<(), Fault>
    ensures checked { Checks result (first_of (λ s. first_of (near_fault tool.now) (needs s)) stages.now) }
{
    for stage in stages {
        check_stage_needs(alloc, tool, stage)?;
    }
    Ok(())
}

fn check_stage_needs(alloc: Global, tool: &PathIndex, stage: &Stage) -> Result<(), Fault>
    ensures checked { Checks result (first_of (near_fault tool.now) (needs stage.now)) }
{
    let paths = needs_of(alloc, stage)?;
    check_paths(alloc, tool, paths.as_slice())
}

fn check_files(
    alloc: Global,
    owned: &[Rel],
    tracks: &[TrackFile],
    ignores: &[Rel],
) -> Result<(), Fault>
    ensures checked { Checks result (file_fault tracks.now ignores.now owned.now) }
{
    let paths = file_paths(alloc, tracks, ignores)?;
    let files = PathIndex::of(alloc, paths)?;
    check_paths(alloc, &files, owned)
}

fn file_paths(alloc: Global, tracks: &[TrackFile], ignores: &[Rel]) -> Result<Rels, NoMemory>
    ensures exact { IfOk result (λ paths. paths ≡ file_paths tracks.now ignores.now) }
{
    let mut paths = Rels::new(alloc);
    paths.push(yaml_path(alloc)?)?;
    paths.push(ignore_path(alloc)?)?;
    push_ignores(alloc, &mut paths, ignores)?;
    push_tracks(alloc, &mut paths, tracks)?;
    Ok(paths)
}

#[tactic(auto, unfolding(crate::specs::Kept::ignore_path))]
fn ignore_path(alloc: Global) -> Result<Rel, NoMemory>
    ensures named { IfOk result (λ path. path ≡ ignore_path) }
{
    Rel::root(alloc)
        .join(alloc, ".dvcignore")
        .map_err(|_| NoMemory)
}

fn push_ignores(alloc: Global, paths: &mut Rels, ignores: &[Rel]) -> Result<(), NoMemory>
    ensures ok { OnOk result (paths.new ≡ paths.old ++ ignores.now) }
{
    for file in ignores {
        paths.push(file.copy(alloc)?)?;
    }
    Ok(())
}

fn push_tracks(alloc: Global, paths: &mut Rels, tracks: &[TrackFile]) -> Result<(), NoMemory>
    ensures ok { OnOk result (paths.new ≡ paths.old ++ map (λ t. t.file) tracks.now) }
{
    for track in tracks {
        paths.push(track.file.copy(alloc)?)?;
    }
    Ok(())
}

// The first of the paths that overlaps one of those that are kept.
fn check_paths(alloc: Global, kept: &PathIndex, paths: &[Rel]) -> Result<(), Fault>
    ensures checked { Checks result (first_of (near_fault kept.now) paths.now) }
{
    for path in paths {
        check_path(alloc, kept, path)?;
    }
    Ok(())
}

fn check_path(alloc: Global, kept: &PathIndex, path: &Rel) -> Result<(), Fault>
    ensures checked { Checks result (near_fault kept.now path.now) }
{
    match kept.first(path) {
        Some(near) => Err(reserved(alloc, path, near)?),
        None => Ok(()),
    }
}

fn reserved(alloc: Global, path: &Rel, near: &Rel) -> Result<Fault, NoMemory>
    ensures exact { IfOk result (λ fault. fault ≡ Reserved path.now near.now) }
{
    let path = path.copy(alloc)?;
    let near = near.copy(alloc)?;
    Ok(Fault::Reserved { path, near })
}

fn check_names(alloc: Global, owned: &[Rel]) -> Result<(), Fault>
    ensures checked { Checks result (first_of name_fault owned.now) }
{
    for path in owned {
        check_name(alloc, path)?;
    }
    Ok(())
}

fn check_name(alloc: Global, path: &Rel) -> Result<(), Fault>
    ensures checked { Checks result (name_fault path.now) }
{
    if has_track_name(path) {
        Err(reserved(alloc, path, path)?)
    } else {
        Ok(())
    }
}

fn has_track_name(path: &Rel) -> bool
    ensures exact { result ≡ has_track_name path.now }
{
    match path.parts().last() {
        Some(part) => part.as_str().as_bytes().ends_with(b".dvc"),
        None => false,
    }
}

fn check_dirs(alloc: Global, tool: &PathIndex, stages: &[Stage]) -> Result<(), Fault>
    requires tool { tool.now ≡ tool_paths }
    ensures checked { Checks result (first_of dir_fault stages.now) }
{
    for stage in stages {
        check_dir(alloc, tool.paths(), stage)?;
    }
    Ok(())
}

fn check_dir(alloc: Global, kept: &[Rel], stage: &Stage) -> Result<(), Fault>
    requires kept { kept.now ≡ tool_paths }
    ensures checked { Checks result (dir_fault stage.now) }
{
    match first_around(kept, &stage.dir) {
        Some(near) => {
            let fault = reserved(alloc, &stage.dir, near)?;
            Err(fault)
        }
        None => Ok(()),
    }
}

// The first of the paths that is this one, or lies around it.
fn first_around<'a>(paths: &'a [Rel], inner: &Rel) -> Option<&'a Rel>
    ensures exact { option_copied result ≡ find (λ p. under p inner.now) paths.now }
{
    for path in paths {
        if is_at_or_below(inner, path) {
            return Some(path);
        }
    }
    None
}

fn check_vars(
    alloc: Global,
    tool: &PathIndex,
    tracks: &[TrackFile],
    vars: &[Rel],
) -> Result<(), Fault>
    requires tool { tool.now ≡ tool_paths }
    ensures checked { Checks result (first_of (var_fault tracks.now) vars.now) }
{
    for file in vars {
        check_var(alloc, tool, tracks, file)?;
    }
    Ok(())
}

fn check_var(alloc: Global, tool: &PathIndex, tracks: &[TrackFile], file: &Rel) -> Result<(), Fault>
    requires tool { tool.now ≡ tool_paths }
    ensures checked { Checks result (var_fault tracks.now file.now) }
{
    check_path(alloc, tool, file)?;
    check_track(alloc, tracks, file)
}

fn check_track(alloc: Global, tracks: &[TrackFile], file: &Rel) -> Result<(), Fault>
    ensures checked { Checks result (itself_if (is_track tracks.now file.now) file.now) }
{
    if is_track(tracks, file) {
        Err(reserved(alloc, file, file)?)
    } else {
        Ok(())
    }
}

fn is_track(tracks: &[TrackFile], file: &Rel) -> bool
    ensures exact { result ≡ is_track tracks.now file.now }
{
    tracks.iter().any(|track| is_same(&track.file, file))
}
