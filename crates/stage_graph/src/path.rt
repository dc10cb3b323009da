// Texts read as paths, where it is known that they are some.
ghost use Rattle.std.specs.Prelude.{◌≡◌, ◌++◌, map, IfOk, OnOk};
ghost use Rattle.world_api.specs.Effect.{path_from};
ghost use Rattle.stage_graph.specs.Paths.{folder_of, needs};

use dvc_base::{NoMemory, PathFault, Rel, Rels, Text};
use stage_schema::{ParamWant, Stage};
use std::alloc::Global;

/// The path that a text names from a folder; the root where it names none.
pub fn path_from(alloc: Global, dir: &Rel, text: &str) -> Result<Rel, NoMemory>
    ensures named { IfOk result (λ path. path ≡ path_from dir.now text.now) }
{
    match dir.join(alloc, text) {
        Ok(path) => Ok(path),
        Err(PathFault::NoMemory) => Err(NoMemory),
        Err(_) => Ok(Rel::root(alloc)),
    }
}

/// The folder in which a file stands.
pub fn folder_of(alloc: Global, file: &Rel) -> Result<Rel, NoMemory>
    ensures named { IfOk result (λ folder. folder ≡ folder_of file.now) }
{
    path_from(alloc, file, "..")
}

/// The paths that a stage reads.
pub fn needs_of(alloc: Global, stage: &Stage) -> Result<Rels, NoMemory>
    ensures exact { IfOk result (λ paths. paths ≡ needs stage.now) }
{
    let mut paths = Rels::new(alloc);
    push_deps(alloc, &mut paths, &stage.dir, stage.deps.as_slice())?;
    push_files(alloc, &mut paths, &stage.dir, stage.params.as_slice())?;
    Ok(paths)
}

fn push_deps(alloc: Global, paths: &mut Rels, dir: &Rel, deps: &[Text]) -> Result<(), NoMemory>
    ensures ok { OnOk result (paths.new ≡ paths.old ++ map (path_from dir.now) deps.now) }
{
    for dep in deps {
        paths.push(path_from(alloc, dir, dep.as_str())?)?;
    }
    Ok(())
}

fn push_files(
    alloc: Global,
    paths: &mut Rels,
    dir: &Rel,
    wants: &[ParamWant],
) -> Result<(), NoMemory>
    ensures ok { OnOk result (paths.new ≡ paths.old ++ map (λ want. path_from dir.now want.file) wants.now) }
{
    for want in wants {
        paths.push(path_from(alloc, dir, want.file.as_str())?)?;
    }
    Ok(())
}
