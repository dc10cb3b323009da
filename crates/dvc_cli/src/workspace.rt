// The workspace: its plan, and what targets choose of it.
ghost use Rattle.std.specs.Prelude.{◌≡◌, ◌<◌, ◌^◌, length, IsTrue, IfOk, IsErrOf, Some, None, Ok};
ghost use Rattle.dvc_base.specs.Answer.{fault_in, IsAnswer};
ghost use Rattle.dvc_base.specs.Fault.{MayBe, IsHonest};
ghost use Rattle.dvc_base.specs.declared.fault.Fault.TheVariants.{WorldFault};
ghost use Rattle.world_api.specs.Tree.{item_at};
ghost use Rattle.world_api.specs.History.{IsCaused};
ghost use Rattle.world_api.specs.Layout.{dvc_path};
ghost use Rattle.world_api.specs.Outside.{tree_of, IsUntouched};
ghost use Rattle.stage_plan.specs.Plan.{plan_of, plan_kinds, turns_at};
ghost use Rattle.plan_turns.specs.Repro.{CanTurn, IsReady};
ghost use Rattle.dvc_cli.specs.Workspace.{chosen_of, place_fault, plan_by_root, rest_fault, workspace_fault, read_kinds};

use crate::book::read_book;
use crate::root::read_root;
use crate::sources::read_sources;
use crate::vars::read_vars;
use dvc_base::{Fault, Node, Text};
use lock_files::LockBook;
use stage_plan::{Chosen, Plan, Sources};
use std::alloc::Global;
use template_expand::VarFile;
use world_api::{Kind, ReadFiles, dvc_path};

/// What a workspace says, and the stages and track files of it that targets choose.
#[derive(Drop)]
pub(crate) struct Workspace {
    pub(crate) plan: Plan,
    pub(crate) chosen: Chosen,
}

/// Reads `dvc.yaml`, the files of variables that it names, the `.dvcignore` files and track files that stand in the workspace,
/// and `dvc.lock`, in this order. The refusals of what `dvc.yaml` says come behind theirs, and a target that is none comes last.
/// The stages and track files are those that the targets choose.
// Its buffers are no part of the caller's frame, which stays during the turns.
#[inline(never)]
pub(crate) fn read_workspace<F: ReadFiles>(
    alloc: Global,
    files: &mut F,
    targets: &[Text],
) -> Result<Workspace, Fault>
    ensures can { IfOk result (λ workspace. CanTurn (turns_at workspace.plan workspace.chosen) workspace.plan.lock) }
    ensures ready { IsTrue F.tells → IfOk result (λ workspace.
        IsReady (turns_at workspace.plan workspace.chosen) workspace.plan.lock (tree_of (F.history files.old))) }
    ensures planned { IsTrue F.tells → IfOk result (λ workspace.
        chosen_of targets.now (tree_of (F.history files.old)) ≡ Some (turns_at workspace.plan workspace.chosen)) }
    ensures answer { IsTrue F.tells →
        IsAnswer (fault_in result) (workspace_fault targets.now (tree_of (F.history files.old))) }
    ensures unchanged { IsUntouched F.tells (F.history files.old) (F.history files.new) }
    ensures kinds { MayBe read_kinds (fault_in result) }
    ensures honest { IsHonest F.tells (fault_in result) }
    ensures cause { IsCaused (F.faults files.old) (F.faults files.new) (IsErrOf result WorldFault) }
{
    check_place(alloc, files)?;
    let root = read_root(alloc, files)?;
    read_rest(alloc, files, &root, targets)
}

// What is read behind the node of `dvc.yaml`. Then the stages are told.
fn read_rest<F: ReadFiles>(
    alloc: Global,
    files: &mut F,
    root: &Node,
    targets: &[Text],
) -> Result<Workspace, Fault>
    requires place { IsTrue F.tells → place_fault (item_at (tree_of (F.history files.old)) dvc_path) ≡ None }
    ensures can { IfOk result (λ workspace. CanTurn (turns_at workspace.plan workspace.chosen) workspace.plan.lock) }
    ensures ready { IsTrue F.tells → IfOk result (λ workspace.
        IsReady (turns_at workspace.plan workspace.chosen) workspace.plan.lock (tree_of (F.history files.old))) }
    ensures planned { IsTrue F.tells → IfOk result (λ workspace.
        plan_by_root targets.now (tree_of (F.history files.old)) (Ok root.now)
        ≡ Ok (turns_at workspace.plan workspace.chosen)) }
    ensures answer { IsTrue F.tells →
        IsAnswer (fault_in result) (rest_fault targets.now (tree_of (F.history files.old)) root.now) }
    ensures unchanged { IsUntouched F.tells (F.history files.old) (F.history files.new) }
    ensures kinds { MayBe read_kinds (fault_in result) }
    ensures honest { IsHonest F.tells (fault_in result) }
    ensures cause { IsCaused (F.faults files.old) (F.faults files.new) (IsErrOf result WorldFault) }
{
    let vars = read_vars(alloc, files, root)?;
    let sources = read_sources(alloc, files)?;
    let lock = read_book(alloc, files)?;
    choose_of(alloc, root, vars.as_slice(), sources, lock, targets)
}

// The plan of the node of a `dvc.yaml`, and what targets choose of it.
fn choose_of(
    alloc: Global,
    root: &Node,
    vars: &[VarFile],
    sources: Sources,
    lock: LockBook,
    targets: &[Text],
) -> Result<Workspace, Fault>
    requires few_tracks { length sources.tracks < 2 ^ 32 }
    ensures planned { IfOk result (λ workspace.
        plan_of targets.now root.now vars.now sources ≡ Ok (turns_at workspace.plan workspace.chosen)) }
    ensures lock { IfOk result (λ workspace. workspace.plan.lock ≡ lock) }
    ensures few { IfOk result (λ workspace. length (turns_at workspace.plan workspace.chosen).stages < 2 ^ 32) }
    ensures answer { IsAnswer (fault_in result) (fault_in (plan_of targets.now root.now vars.now sources)) }
    ensures kinds { MayBe plan_kinds (fault_in result) }
{
    let plan = Plan::make(alloc, root, vars, sources, lock)?;
    let chosen = plan.choose(alloc, targets, false)?;
    Ok(Workspace { plan, chosen })
}

// The folder of the tool's own files may be missing, but no file may stand there.
fn check_place<F: ReadFiles>(alloc: Global, files: &mut F) -> Result<(), Fault>
    ensures answer { IsTrue F.tells → IsAnswer (fault_in result)
        (place_fault (item_at (tree_of (F.history files.old)) dvc_path)) }
    ensures unchanged { IsUntouched F.tells (F.history files.old) (F.history files.new) }
    ensures kinds { MayBe read_kinds (fault_in result) }
    ensures honest { IsHonest F.tells (fault_in result) }
    ensures cause { IsCaused (F.faults files.old) (F.faults files.new) (IsErrOf result WorldFault) }
{
    let at = dvc_path(alloc)?;
    match files.kind(&at) {
        Ok(Kind::File { .. }) => Err(Fault::NotFolder { path: at }),
        Ok(_) => Ok(()),
        Err(_) => Err(Fault::WorldFault),
    }
}
