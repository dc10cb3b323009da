// The stages of a `dvc.yaml`, or why it has none.
ghost use Rattle.std.specs.Prelude.{◌≡◌, [], option_copied, IfOk};
ghost use Rattle.dvc_base.specs.declared.node.Node.{out-Node};
ghost use Rattle.stage_schema.specs.Refusal.{Checks};
ghost use Rattle.template_expand.specs.Answer.{IsAnswer, Leaves};
ghost use Rattle.template_expand.specs.Expansion as spec;

use crate::files::VarFile;
use crate::vars::top_vars;
use crate::walk::{Walk, put_all};
use dvc_base::{NoMemory, Node, What};
use indexmap::IndexSet;
use stage_schema::{ExpandFault, Stage, Stages, check_root, pairs_at, pairs_of, schema_at};
use std::alloc::Global;

/// The stages that the root node of a `dvc.yaml` says in written order, with these files of variables, or its first refusal.
pub fn expand(alloc: Global, root: &Node, files: &[VarFile]) -> Result<Stages, ExpandFault>
    ensures answer { IsAnswer result (spec.expansion root.now files.now) }
{
    check_root(alloc, root)?;
    let mut stages = Stages::new(alloc);
    put_root(alloc, &mut stages, root, files)?;
    check_names(alloc, stages.as_slice())?;
    Ok(stages)
}

fn put_root(
    alloc: Global,
    stages: &mut Stages,
    root: &Node,
    files: &[VarFile],
) -> Result<(), ExpandFault>
    requires { stages.old ≡ [] }
    ensures answer { Leaves result stages.new (spec.stages_of files.now (out-Node root.now)) }
{
    let top = top_vars(alloc, files, root)?;
    let walk = Walk {
        limit: What::Stages.limit(),
        files,
        top: &top,
    };
    put_all(alloc, &walk, stages, pairs_at(pairs_of(root), "stages"))
}

// ---- names

// Two stages with one name are refused.
fn check_names(alloc: Global, stages: &[Stage]) -> Result<(), ExpandFault>
    ensures checked { Checks result (spec.names_fault stages.now) }
{
    match second_name(alloc, stages)? {
        Some(name) => Err(schema_at(alloc, &["stages", name])),
        None => Ok(()),
    }
}

// The first name that an earlier stage has.
fn second_name(alloc: Global, stages: &[Stage]) -> Result<Option<&str>, NoMemory>
    ensures exact { IfOk result (λ name. option_copied name ≡ spec.second_name [] stages.now) }
{
    let mut names = IndexSet::new(alloc);
    for stage in stages {
        let name = stage.name.as_str();
        if !names.insert(name)? {
            return Ok(Some(name));
        }
    }
    Ok(None)
}
