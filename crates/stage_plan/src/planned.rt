// The stages that have turns, from the stages as the schema reads them.
ghost use Rattle.std.specs.Prelude.{◌≡◌, [], ◌∷◌, ◌++◌, map, IfOk, OnOk};
ghost use Rattle.world_api.specs.Effect.{path_from};
ghost use Rattle.lock_files.specs.Order.{in_order};
ghost use Rattle.repro_laws.specs.Stage.{dep_text, out_text};
ghost use Rattle.stage_plan.specs.Plan.{is_changed, dep_of, out_of, tracked_of, looks_of, outs_of, stage_of, has_turn, with_turns, all_outs, stages_at, planned_at};

use crate::by_text::{deps_by_text, outs_by_text};
use dvc_base::{NoMemory, Plain, Plural, Rel, Rels, Text};
use path_index::PathIndex;
use repro_laws::{Dep, Out, Stage, Stages, Tracked};
use stage_graph::path_from;
use stage_schema::{Out as WrittenOut, ParamWant, Stage as Written};
use std::alloc::Global;

/// The stages at these places, in this order, without the frozen ones.
pub(crate) fn planned(alloc: Global, written: &[Written], order: &[u32]) -> Result<Stages, NoMemory>
    ensures exact { IfOk result (λ stages. stages ≡ planned_at written.now order.now) }
{
    let outs = all_outs(alloc, written, order)?;
    let index = PathIndex::of(alloc, outs)?;
    stages_at(alloc, written, order, &index)
}

// A frozen stage has no turn: what it makes is a source.
fn has_turn(stage: &Written) -> bool
    ensures exact { result ≡ has_turn stage.now }
{
    !stage.frozen
}

// The outputs of the stages that have turns.
fn all_outs(alloc: Global, written: &[Written], order: &[u32]) -> Result<Rels, NoMemory>
    ensures exact { IfOk result (λ paths. paths ≡ all_outs (with_turns (stages_at written.now order.now))) }
{
    let mut paths = Rels::new(alloc);
    for number in order {
        push_outs_at(alloc, &mut paths, written, *number)?;
    }
    Ok(paths)
}

/// The outputs of all of these stages that have turns.
pub(crate) fn outs_of_all(alloc: Global, written: &[Written]) -> Result<Rels, NoMemory>
    ensures exact { IfOk result (λ paths. paths ≡ all_outs (with_turns written.now)) }
{
    let mut paths = Rels::new(alloc);
    for stage in written {
        push_stage_outs(alloc, &mut paths, stage)?;
    }
    Ok(paths)
}

fn push_outs_at(
    alloc: Global,
    paths: &mut Rels,
    written: &[Written],
    number: u32,
) -> Result<(), NoMemory>
    ensures ok { OnOk result
        (paths.new ≡ paths.old ++ all_outs (with_turns (stages_at written.now (number ∷ [])))) }
{
    match written.get(number as usize) {
        Some(stage) => push_stage_outs(alloc, paths, stage),
        None => Ok(()),
    }
}

fn push_stage_outs(alloc: Global, paths: &mut Rels, stage: &Written) -> Result<(), NoMemory>
    ensures ok { OnOk result (paths.new ≡ paths.old ++ all_outs (with_turns (stage.now ∷ []))) }
{
    if !has_turn(stage) {
        return Ok(());
    }
    push_outs(alloc, paths, &stage.dir, stage.outs.as_slice())
}

/// The outputs, from the folder of their stage.
pub(crate) fn push_outs(
    alloc: Global,
    paths: &mut Rels,
    dir: &Rel,
    outs: &[WrittenOut],
) -> Result<(), NoMemory>
    ensures ok { OnOk result (paths.new ≡ paths.old ++ map (λ out. path_from dir.now out.path) outs.now) }
{
    for out in outs {
        paths.push(path_from(alloc, dir, out.path.as_str())?)?;
    }
    Ok(())
}

fn stages_at(
    alloc: Global,
    written: &[Written],
    order: &[u32],
    outs: &PathIndex,
) -> Result<Stages, NoMemory>
    ensures exact { IfOk result (λ stages.
        stages ≡ map (stage_of outs.now) (with_turns (stages_at written.now order.now))) }
{
    let mut stages = Stages::new(alloc);
    for number in order {
        push_at(alloc, &mut stages, written, *number, outs)?;
    }
    Ok(stages)
}

fn push_at(
    alloc: Global,
    stages: &mut Stages,
    written: &[Written],
    number: u32,
    outs: &PathIndex,
) -> Result<(), NoMemory>
    ensures ok { OnOk result
        (stages.new ≡ stages.old ++ map (stage_of outs.now) (with_turns (stages_at written.now (number ∷ [])))) }
{
    match written.get(number as usize) {
        Some(stage) => push_stage(alloc, stages, stage, outs),
        None => Ok(()),
    }
}

fn push_stage(
    alloc: Global,
    stages: &mut Stages,
    stage: &Written,
    outs: &PathIndex,
) -> Result<(), NoMemory>
    ensures ok { OnOk result
        (stages.new ≡ stages.old ++ map (stage_of outs.now) (with_turns (stage.now ∷ []))) }
{
    if !has_turn(stage) {
        return Ok(());
    }
    let made = stage_of(alloc, stage, outs)?;
    stages.push(made)?;
    Ok(())
}

/// A stage as its turn takes it; `outs` are the outputs of all that have turns.
pub(crate) fn stage_of(alloc: Global, stage: &Written, outs: &PathIndex) -> Result<Stage, NoMemory>
    ensures exact { IfOk result (λ made. made ≡ stage_of outs.now stage.now) }
{
    let looks = looks_of(alloc, stage, outs)?;
    let made = outs_of(alloc, stage)?;
    let params = params_of(alloc, stage)?;
    stage_with(alloc, stage, looks, params, made)
}

fn stage_with(
    alloc: Global,
    stage: &Written,
    looks: Plural<Dep>,
    params: Plural<Tracked>,
    outs: Plural<Out>,
) -> Result<Stage, NoMemory>
    ensures exact { IfOk result (λ made. made ≡ record {
      name = stage.now.name;
      commands = stage.now.commands;
      dir = stage.now.dir;
      looks = looks;
      deps = in_order dep_text looks;
      params = params;
      outs = outs;
      made = in_order out_text outs;
      always = is_changed stage.now;
    }) }
{
    let made = outs_by_text(alloc, outs.as_slice())?;
    let deps = deps_by_text(alloc, looks.as_slice())?;
    Ok(Stage {
        name: stage.name.copy(alloc)?,
        commands: stage.commands.copy(alloc)?,
        dir: stage.dir.copy(alloc)?,
        looks,
        deps,
        params,
        outs,
        made,
        always: is_changed(stage),
    })
}

// Whether it always counts as changed: nothing tells whether a stage without dependencies and parameters would make something
// else.
fn is_changed(stage: &Written) -> bool
    ensures exact { result ≡ is_changed stage.now }
{
    stage.always || (stage.deps.as_slice().is_empty() && stage.params.as_slice().is_empty())
}

// The dependencies as they are written.
fn looks_of(alloc: Global, stage: &Written, outs: &PathIndex) -> Result<Plural<Dep>, NoMemory>
    ensures exact { IfOk result (λ looks. looks ≡ looks_of outs.now stage.now) }
{
    let mut looks = Plural::new(alloc);
    for text in stage.deps.as_slice() {
        looks.push(dep_of(alloc, &stage.dir, text, outs)?)?;
    }
    Ok(looks)
}

fn dep_of(alloc: Global, dir: &Rel, text: &Text, outs: &PathIndex) -> Result<Dep, NoMemory>
    ensures exact { IfOk result (λ dep. dep ≡ dep_of outs.now dir.now text.now) }
{
    let path = path_from(alloc, dir, text.as_str())?;
    let inside = outs.has_around(&path);
    Ok(Dep {
        text: text.copy(alloc)?,
        path,
        inside,
    })
}

// The files of parameters as they are written.
fn params_of(alloc: Global, stage: &Written) -> Result<Plural<Tracked>, NoMemory>
    ensures exact { IfOk result (λ params. params ≡ map (tracked_of stage.now.dir) stage.now.params) }
{
    let mut params = Plural::new(alloc);
    for want in stage.params.as_slice() {
        params.push(tracked_of(alloc, &stage.dir, want)?)?;
    }
    Ok(params)
}

fn tracked_of(alloc: Global, dir: &Rel, want: &ParamWant) -> Result<Tracked, NoMemory>
    ensures exact { IfOk result (λ made. made ≡ tracked_of dir.now want.now) }
{
    let path = path_from(alloc, dir, want.file.as_str())?;
    Ok(Tracked {
        text: want.file.copy(alloc)?,
        path,
        keys: want.keys.copy(alloc)?,
        all: want.all,
    })
}

// The outputs as they are written.
fn outs_of(alloc: Global, stage: &Written) -> Result<Plural<Out>, NoMemory>
    ensures exact { IfOk result (λ outs. outs ≡ outs_of stage.now) }
{
    let mut outs = Plural::new(alloc);
    for out in stage.outs.as_slice() {
        outs.push(out_of(alloc, &stage.dir, out)?)?;
    }
    Ok(outs)
}

fn out_of(alloc: Global, dir: &Rel, out: &WrittenOut) -> Result<Out, NoMemory>
    ensures exact { IfOk result (λ made. made ≡ out_of dir.now out.now) }
{
    let path = path_from(alloc, dir, out.path.as_str())?;
    Ok(Out {
        text: out.path.copy(alloc)?,
        path,
        cached: out.cached,
    })
}
