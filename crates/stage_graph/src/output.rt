// The outputs of stages.
ghost use Rattle.std.specs.Prelude.{◌≡◌, ◌<◌, ◌^◌, ◌++◌, length, IfOk, OnOk};
ghost use Rattle.stage_graph.specs.Paths.{outputs_in, outputs_of, outputs, output_paths};

use crate::path::path_from;
use dvc_base::{NoMemory, Plain, Plural, Rel, Rels};
use stage_schema::{Out, Stage};
use std::alloc::Global;

/// A path that the stage of this number makes.
#[derive(Drop)]
pub struct Output {
    pub path: Rel,
    pub stage: u32,
}

/// Outputs in order.
pub type Outputs = Plural<Output>;

/// The outputs of all stages.
pub fn outputs(alloc: Global, stages: &[Stage]) -> Result<Outputs, NoMemory>
    requires few { length stages.now < 2 ^ 32 }
    ensures exact { IfOk result (λ all. all ≡ outputs stages.now) }
{
    let mut all = Outputs::new(alloc);
    for number in 0..stages.len() {
        push_stage(alloc, &mut all, number as u32, &stages[number])?;
    }
    Ok(all)
}

fn push_stage(alloc: Global, all: &mut Outputs, number: u32, stage: &Stage) -> Result<(), NoMemory>
    ensures ok { OnOk result (all.new ≡ all.old ++ outputs_of number stage.now) }
{
    push_outputs(alloc, all, number, &stage.dir, stage.outs.as_slice())
}

fn push_outputs(
    alloc: Global,
    all: &mut Outputs,
    number: u32,
    dir: &Rel,
    outs: &[Out],
) -> Result<(), NoMemory>
    ensures ok { OnOk result (all.new ≡ all.old ++ outputs_in number dir.now outs.now) }
{
    for out in outs {
        let path = path_from(alloc, dir, out.path.as_str())?;
        all.push(Output {
            path,
            stage: number,
        })?;
    }
    Ok(())
}

/// The paths alone.
pub fn output_paths(alloc: Global, outputs: &[Output]) -> Result<Rels, NoMemory>
    ensures exact { IfOk result (λ paths. paths ≡ output_paths outputs.now) }
{
    let mut paths = Rels::new(alloc);
    for output in outputs {
        paths.push(output.path.copy(alloc)?)?;
    }
    Ok(paths)
}
