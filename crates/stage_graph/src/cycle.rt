// Stages in a cycle.
ghost use Rattle.std.specs.Prelude.{◌≡◌, [], ◌∷◌, ◌++◌, IfOk, OnOk};
ghost use Rattle.dvc_base.specs.declared.fault.Fault.TheVariants.{Cycle};
ghost use Rattle.stage_graph.specs.Cycle.{names_of};

use dvc_base::{Fault, NoMemory, Plain, Texts};
use stage_schema::Stage;
use std::alloc::Global;

/// The refusal that tells a walk by the names of its stages.
pub fn cycle(alloc: Global, stages: &[Stage], walk: &[u32]) -> Result<Fault, NoMemory>
    ensures exact { IfOk result (λ fault. fault ≡ Cycle (names_of stages.now walk.now)) }
{
    let walk = names_of(alloc, stages, walk)?;
    Ok(Fault::Cycle { walk })
}

fn names_of(alloc: Global, stages: &[Stage], numbers: &[u32]) -> Result<Texts, NoMemory>
    ensures exact { IfOk result (λ names. names ≡ names_of stages.now numbers.now) }
{
    let mut names = Texts::new(alloc);
    for number in numbers {
        push_name(alloc, &mut names, stages, *number)?;
    }
    Ok(names)
}

fn push_name(
    alloc: Global,
    names: &mut Texts,
    stages: &[Stage],
    number: u32,
) -> Result<(), NoMemory>
    ensures ok { OnOk result (names.new ≡ names.old ++ names_of stages.now (number ∷ [])) }
{
    match stages.get(number as usize) {
        Some(stage) => {
            let name = stage.name.copy(alloc)?;
            names.push(name)?;
            Ok(())
        }
        None => Ok(()),
    }
}
