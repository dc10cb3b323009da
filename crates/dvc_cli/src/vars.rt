// The files of variables that a `dvc.yaml` names.
ghost use Rattle.std.specs.Prelude.{◌≡◌, Some, IsTrue, IsErrOf};
ghost use Rattle.dvc_base.specs.Answer.{fault_in};
ghost use Rattle.dvc_base.specs.Fault.{MayBe, IsHonest};
ghost use Rattle.dvc_base.specs.declared.fault.Fault.TheVariants.{WorldFault};
ghost use Rattle.world_api.specs.Tree.{item_at};
ghost use Rattle.world_api.specs.History.{IsCaused};
ghost use Rattle.world_api.specs.Outside.{tree_of, IsUntouched};
ghost use Rattle.params.specs.Read.{params_at};
ghost use Rattle.workspace_files.specs.Read.{IsRead};
ghost use Rattle.dvc_cli.specs.Vars.{var_of, var_at, vars_at, vars_of};
ghost use Rattle.repro_core.specs.Steps.{tracked_kinds};
ghost use Rattle.dvc_cli.specs.Workspace.{vars_kinds};

use dvc_base::{Fault, Node, Plain, Rel};
use params::read_params;
use repro_core::params_answer;
use stage_plan::schema_answer;
use std::alloc::Global;
use template_expand::{VarFile, VarFiles, wanted_files};
use world_api::{Kind, ReadFiles};

/// Reads the files of variables that the node of a `dvc.yaml` names, in their order. One that is missing is refused where it
/// is asked for.
pub(crate) fn read_vars<F: ReadFiles>(
    alloc: Global,
    files: &mut F,
    root: &Node,
) -> Result<VarFiles, Fault>
    ensures read { IsTrue F.tells → IsRead result (vars_of (tree_of (F.history files.old)) root.now) }
    ensures unchanged { IsUntouched F.tells (F.history files.old) (F.history files.new) }
    ensures kinds { MayBe vars_kinds (fault_in result) }
    ensures honest { IsHonest F.tells (fault_in result) }
    ensures cause { IsCaused (F.faults files.old) (F.faults files.new) (IsErrOf result WorldFault) }
{
    match wanted_files(alloc, root) {
        Ok(paths) => read_files(alloc, files, paths.as_slice()),
        Err(why) => Err(schema_answer(alloc, why)),
    }
}

fn read_files<F: ReadFiles>(alloc: Global, files: &mut F, paths: &[Rel]) -> Result<VarFiles, Fault>
    ensures read { IsTrue F.tells → IsRead result (vars_at (tree_of (F.history files.old)) paths.now) }
    ensures unchanged { IsUntouched F.tells (F.history files.old) (F.history files.new) }
    ensures kinds { MayBe tracked_kinds (fault_in result) }
    ensures honest { IsHonest F.tells (fault_in result) }
    ensures cause { IsCaused (F.faults files.old) (F.faults files.new) (IsErrOf result WorldFault) }
{
    let mut made = VarFiles::new(alloc);
    for path in paths {
        made.push(read_file(alloc, files, path)?)?;
    }
    Ok(made)
}

fn read_file<F: ReadFiles>(alloc: Global, files: &mut F, at: &Rel) -> Result<VarFile, Fault>
    ensures read { IsTrue F.tells →
        IsRead result (var_at at.now (item_at (tree_of (F.history files.old)) at.now)) }
    ensures unchanged { IsUntouched F.tells (F.history files.old) (F.history files.new) }
    ensures kinds { MayBe tracked_kinds (fault_in result) }
    ensures honest { IsHonest F.tells (fault_in result) }
    ensures cause { IsCaused (F.faults files.old) (F.faults files.new) (IsErrOf result WorldFault) }
{
    match files.kind(at) {
        Ok(Kind::Missing) => Ok(VarFile {
            file: at.copy(alloc)?,
            node: None,
        }),
        Ok(Kind::File { .. }) => read_there(alloc, files, at),
        Ok(Kind::Folder) => read_there(alloc, files, at),
        Err(_) => Err(Fault::WorldFault),
    }
}

// The file at a path at which something stands.
fn read_there<F: ReadFiles>(alloc: Global, files: &mut F, at: &Rel) -> Result<VarFile, Fault>
    ensures read { IsTrue F.tells →
        IsRead result (var_of at.now (params_at (item_at (tree_of (F.history files.old)) at.now))) }
    ensures unchanged { IsUntouched F.tells (F.history files.old) (F.history files.new) }
    ensures kinds { MayBe tracked_kinds (fault_in result) }
    ensures honest { IsHonest F.tells (fault_in result) }
    ensures cause { IsCaused (F.faults files.old) (F.faults files.new) (IsErrOf result WorldFault) }
{
    match read_params(alloc, files, at) {
        Ok(node) => Ok(VarFile {
            file: at.copy(alloc)?,
            node: Some(node),
        }),
        Err(why) => Err(params_answer(alloc, at, why)),
    }
}
