// What a run has at hand before its first change: the stage's job, the folders that it needs, and the lock's path.
ghost use Rattle.std.specs.Prelude.{◌≡◌, ◌∷◌, List, map, IfOk};
ghost use Rattle.dvc_base.specs.declared.data.ParamFile.{ParamFile as AParamFile};
ghost use Rattle.change_check.specs.Same.{canonical_files};
ghost use Rattle.repro_laws.specs.Stage.{dep_text, out_text, job_with, IsStage};
ghost use Rattle.repro_core.specs.Steps.{above_out, IsPrepared, IsGoodSeen};

use crate::choose::Chosen;
use crate::paths::above;
use dvc_base::{NoMemory, ParamFiles, Plain, Plural, Rel, Texts};
use repro_laws::{Dep, Out, Stage};
use std::alloc::Global;
use world_api::{Job, lock_path};

/// What a run needs memory for before it touches anything.
#[derive(Drop)]
pub(crate) struct Prepared {
    pub(crate) job: Job,
    /// The stage's folder, and the one above each output as they are written.
    pub(crate) roads: Plural<Rel>,
    pub(crate) lock: Rel,
}

/// What the run of a stage needs whose parameters were seen.
pub(crate) fn prepared_of(
    alloc: Global,
    stage: &Stage,
    chosen: &Chosen,
) -> Result<Prepared, NoMemory>
    requires stage { IsStage stage.now }
    requires good { IsGoodSeen stage.now chosen.now.params chosen.now.seen }
    ensures made { IfOk result (IsPrepared stage.now) }
    ensures job { IfOk result (λ prepared. prepared.job ≡ job_with stage.now chosen.now.params) }
{
    let job = job_of(alloc, stage, &chosen.seen.params)?;
    let roads = roads_of(alloc, stage)?;
    let lock = lock_path(alloc)?;
    Ok(Prepared { job, roads, lock })
}

// The stage's job with these parameters, which count by value.
fn job_of(alloc: Global, stage: &Stage, params: &ParamFiles) -> Result<Job, NoMemory>
    ensures made { (ps : List AParamFile) → params.now ≡ canonical_files ps → IfOk result (λ job. job ≡ job_with stage.now ps) }
{
    Ok(Job {
        stage: stage.name.copy(alloc)?,
        commands: stage.commands.copy(alloc)?,
        dir: stage.dir.copy(alloc)?,
        deps: dep_texts(alloc, stage.deps.as_slice())?,
        params: params.copy(alloc)?,
        outs: out_texts(alloc, stage.made.as_slice())?,
    })
}

fn dep_texts(alloc: Global, deps: &[Dep]) -> Result<Texts, NoMemory>
    ensures same { IfOk result (λ texts. texts ≡ map dep_text deps.now) }
{
    let mut texts = Texts::new(alloc);
    for dep in deps {
        texts.push(dep.text.copy(alloc)?)?;
    }
    Ok(texts)
}

fn out_texts(alloc: Global, outs: &[Out]) -> Result<Texts, NoMemory>
    ensures same { IfOk result (λ texts. texts ≡ map out_text outs.now) }
{
    let mut texts = Texts::new(alloc);
    for out in outs {
        texts.push(out.text.copy(alloc)?)?;
    }
    Ok(texts)
}

fn roads_of(alloc: Global, stage: &Stage) -> Result<Plural<Rel>, NoMemory>
    requires { IsStage stage.now }
    ensures made { IfOk result (λ roads. roads ≡ stage.now.dir ∷ map above_out stage.now.outs) }
{
    let mut roads = Plural::new(alloc);
    roads.push(stage.dir.copy(alloc)?)?;
    for out in stage.outs.as_slice() {
        roads.push(above(alloc, &out.path)?)?;
    }
    Ok(roads)
}
