// What a turn sees before it chooses: what stands at the stage's dependencies and outputs, and its parameters.
ghost use Rattle.std.specs.Prelude.{◌≡◌, length, map, Ok, IsTrue, IfOk, IsErrOf};
ghost use Rattle.std.specs.List.{AllByRecursion};
ghost use Rattle.dvc_base.specs.Answer.{fault_in, IsAnswer};
ghost use Rattle.dvc_base.specs.Fault.{MayBe, IsHonest};
ghost use Rattle.dvc_base.specs.declared.fault.Fault.TheVariants.{WorldFault};
ghost use Rattle.world_api.specs.Tree.{value_at};
ghost use Rattle.world_api.specs.History.{IsCaused};
ghost use Rattle.world_api.specs.Outside.{tree_of, IsUntouched};
ghost use Rattle.repro_laws.specs.Limits.{limit_fault};
ghost use Rattle.change_check.specs.Same.{canonical_files};
ghost use Rattle.repro_laws.specs.Params.{AreParams};
ghost use Rattle.repro_laws.specs.Stage.{IsStage, params_at, dep_path, dep_text, dep_value, stage_outs};
ghost use Rattle.repro_laws.specs.Entries.{seen_dep, seen_out, seen_at};
ghost use Rattle.repro_laws.specs.Refusals.{first_of, refused_dep, deps_fault, present_fault, see_fault};
ghost use Rattle.repro_core.specs.Looks.{AreSeen};
ghost use Rattle.repro_core.specs.Steps.{IsGoodSeen, dep_kinds, out_kinds, see_kinds};
ghost use Rattle.repro_core.specs.Telling.{IsOneOf, TellsOwn};

use crate::look::{name_dep, name_out};
use crate::tracked::read_tracked;
use change_check::{Seen, SeenPaths, canonical_files};
use dvc_base::{Fault, NoMemory, ParamFiles, Plain};
use repro_laws::{Dep, Out, Stage};
use std::alloc::Global;
use world_api::ReadFiles;

/// What a turn has seen, and the parameters as they stand in their files.
#[derive(Drop)]
pub(crate) struct Looked {
    pub(crate) seen: Seen,
    pub(crate) params: ParamFiles,
}

/// Names what stands at the stage's dependencies, reads its parameters, and then names what stands at its outputs. The first
/// that is refused, in the order in which they are written, ends it.
pub(crate) fn see<F: ReadFiles>(
    alloc: Global,
    files: &mut F,
    stage: &Stage,
) -> Result<Looked, Fault>
    requires stage { IsStage stage.now }
    ensures answer { IsTrue F.tells → IsAnswer (fault_in result) (see_fault stage.now (tree_of (F.history files.old))) }
    ensures read { IsTrue F.tells →
        IfOk result (λ looked. params_at stage.now (tree_of (F.history files.old)) ≡ Ok looked.params) }
    ensures seen { IsTrue F.tells →
        IfOk result (λ looked. looked.seen ≡ seen_at stage.now looked.params (tree_of (F.history files.old))) }
    ensures good { IfOk result (λ looked. IsGoodSeen stage.now looked.params looked.seen) }
    ensures unchanged { IsUntouched F.tells (F.history files.old) (F.history files.new) }
    ensures told { TellsOwn stage.now (fault_in result) }
    ensures kinds { MayBe see_kinds (fault_in result) }
    ensures honest { IsHonest F.tells (fault_in result) }
    ensures cause { IsCaused (F.faults files.old) (F.faults files.new) (IsErrOf result WorldFault) }
{
    let deps = see_deps(alloc, files, stage)?;
    match read_tracked(alloc, files, stage) {
        Ok(params) => see_with(alloc, files, stage, deps, params),
        Err(fault) => Err(fault),
    }
}

// What is seen beside these dependencies and parameters.
fn see_with<F: ReadFiles>(
    alloc: Global,
    files: &mut F,
    stage: &Stage,
    deps: SeenPaths,
    params: ParamFiles,
) -> Result<Looked, Fault>
    requires stage { IsStage stage.now }
    requires deps { AreSeen (map dep_text stage.now.deps) deps }
    requires params { AreParams params }
    ensures answer { IsTrue F.tells → IsAnswer (fault_in result) (present_fault stage.now (tree_of (F.history files.old))) }
    ensures deps { IfOk result (λ looked. looked.seen.deps ≡ deps) }
    ensures params { IfOk result (λ looked. looked.params ≡ params) }
    ensures commands { IfOk result (λ looked. looked.seen.commands ≡ stage.now.commands) }
    ensures outs { IsTrue F.tells →
        IfOk result (λ looked. looked.seen.outs ≡ map (seen_out (tree_of (F.history files.old))) stage.now.made) }
    ensures good { IfOk result (λ looked. IsGoodSeen stage.now looked.params looked.seen) }
    ensures unchanged { IsUntouched F.tells (F.history files.old) (F.history files.new) }
    ensures told { TellsOwn stage.now (fault_in result) }
    ensures kinds { MayBe out_kinds (fault_in result) }
    ensures honest { IsHonest F.tells (fault_in result) }
    ensures cause { IsCaused (F.faults files.old) (F.faults files.new) (IsErrOf result WorldFault) }
{
    match see_outs(alloc, files, stage) {
        Ok(outs) => Ok(looked_of(alloc, stage, deps, params, outs)?),
        Err(fault) => Err(fault),
    }
}

// The parameters are seen by value.
fn looked_of(
    alloc: Global,
    stage: &Stage,
    deps: SeenPaths,
    params: ParamFiles,
    outs: SeenPaths,
) -> Result<Looked, NoMemory>
    requires params { AreParams params }
    ensures deps { IfOk result (λ looked. looked.seen.deps ≡ deps) }
    ensures outs { IfOk result (λ looked. looked.seen.outs ≡ outs) }
    ensures params { IfOk result (λ looked. looked.params ≡ params) }
    ensures canonical { IfOk result (λ looked. looked.seen.params ≡ canonical_files params) }
    ensures commands { IfOk result (λ looked. looked.seen.commands ≡ stage.now.commands) }
{
    let commands = stage.commands.copy(alloc)?;
    let by_value = canonical_files(alloc, params.as_slice())?;
    Ok(Looked {
        seen: Seen {
            commands,
            deps,
            params: by_value,
            outs,
        },
        params,
    })
}

// ---- dependencies

// They are named in the order of their texts. Where one is refused they are named once more as they are written, so that
// the first refusal is answered.
fn see_deps<F: ReadFiles>(alloc: Global, files: &mut F, stage: &Stage) -> Result<SeenPaths, Fault>
    requires stage { IsStage stage.now }
    ensures answer { IsTrue F.tells → IsAnswer (fault_in result) (deps_fault stage.now (tree_of (F.history files.old))) }
    ensures seen { IsTrue F.tells →
        IfOk result (λ seen. seen ≡ map (seen_dep (tree_of (F.history files.old))) stage.now.deps) }
    ensures good { IfOk result (AreSeen (map dep_text stage.now.deps)) }
    ensures unchanged { IsUntouched F.tells (F.history files.old) (F.history files.new) }
    ensures told { TellsOwn stage.now (fault_in result) }
    ensures kinds { MayBe dep_kinds (fault_in result) }
    ensures honest { IsHonest F.tells (fault_in result) }
    ensures cause { IsCaused (F.faults files.old) (F.faults files.new) (IsErrOf result WorldFault) }
{
    match name_deps(alloc, files, stage, stage.deps.as_slice()) {
        Ok(seen) => Ok(seen),
        Err(fault) => {
            let again = name_deps(alloc, files, stage, stage.looks.as_slice());
            // Nothing is refused then only where the first look was cut off.
            Err(again.err().unwrap_or(fault))
        }
    }
}

// Names dependencies of the stage, up to the first that is refused.
fn name_deps<F: ReadFiles>(
    alloc: Global,
    files: &mut F,
    stage: &Stage,
    deps: &[Dep],
) -> Result<SeenPaths, Fault>
    requires own { AllByRecursion (λ d. IsOneOf (map dep_path stage.now.deps) d.path) deps.now }
    ensures answer { IsTrue F.tells → IsAnswer (fault_in result)
        (first_of (λ d. refused_dep stage.now.name d (dep_value (tree_of (F.history files.old)) d)) deps.now) }
    ensures seen { IsTrue F.tells → IfOk result (λ seen. seen ≡ map (seen_dep (tree_of (F.history files.old))) deps.now) }
    ensures good { IfOk result (AreSeen (map dep_text deps.now)) }
    ensures unchanged { IsUntouched F.tells (F.history files.old) (F.history files.new) }
    ensures told { TellsOwn stage.now (fault_in result) }
    ensures kinds { MayBe dep_kinds (fault_in result) }
    ensures honest { IsHonest F.tells (fault_in result) }
    ensures cause { IsCaused (F.faults files.old) (F.faults files.new) (IsErrOf result WorldFault) }
{
    let mut seen = SeenPaths::new(alloc);
    for dep in deps {
        seen.push(name_dep(alloc, files, &stage.name, dep)?)?;
    }
    Ok(seen)
}

// ---- outputs

// The same of outputs, at which nothing may stand.
fn see_outs<F: ReadFiles>(alloc: Global, files: &mut F, stage: &Stage) -> Result<SeenPaths, Fault>
    requires stage { IsStage stage.now }
    ensures answer { IsTrue F.tells → IsAnswer (fault_in result) (present_fault stage.now (tree_of (F.history files.old))) }
    ensures seen { IsTrue F.tells →
        IfOk result (λ seen. seen ≡ map (seen_out (tree_of (F.history files.old))) stage.now.made) }
    ensures count { IfOk result (λ seen. length seen ≡ length stage.now.made) }
    ensures unchanged { IsUntouched F.tells (F.history files.old) (F.history files.new) }
    ensures told { TellsOwn stage.now (fault_in result) }
    ensures kinds { MayBe out_kinds (fault_in result) }
    ensures honest { IsHonest F.tells (fault_in result) }
    ensures cause { IsCaused (F.faults files.old) (F.faults files.new) (IsErrOf result WorldFault) }
{
    match name_outs(alloc, files, stage, stage.made.as_slice()) {
        Ok(seen) => Ok(seen),
        Err(fault) => {
            let again = name_outs(alloc, files, stage, stage.outs.as_slice());
            Err(again.err().unwrap_or(fault))
        }
    }
}

// Names outputs of the stage, up to the first that is refused.
fn name_outs<F: ReadFiles>(
    alloc: Global,
    files: &mut F,
    stage: &Stage,
    outs: &[Out],
) -> Result<SeenPaths, Fault>
    requires own { AllByRecursion (λ o. IsOneOf (stage_outs stage.now) o.path) outs.now }
    ensures answer { IsTrue F.tells → IsAnswer (fault_in result)
        (first_of (λ o. limit_fault (value_at (tree_of (F.history files.old)) o.path)) outs.now) }
    ensures seen { IsTrue F.tells → IfOk result (λ seen. seen ≡ map (seen_out (tree_of (F.history files.old))) outs.now) }
    ensures count { IfOk result (λ seen. length seen ≡ length outs.now) }
    ensures unchanged { IsUntouched F.tells (F.history files.old) (F.history files.new) }
    ensures told { TellsOwn stage.now (fault_in result) }
    ensures kinds { MayBe out_kinds (fault_in result) }
    ensures honest { IsHonest F.tells (fault_in result) }
    ensures cause { IsCaused (F.faults files.old) (F.faults files.new) (IsErrOf result WorldFault) }
{
    let mut seen = SeenPaths::new(alloc);
    for out in outs {
        seen.push(name_out(alloc, files, out)?)?;
    }
    Ok(seen)
}
