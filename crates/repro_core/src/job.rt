// The run of a stage's job, and the look at what it left.
ghost use Rattle.std.specs.Prelude.{Bool, ◌∷◌, [], IsTrue, IsErrOf};
ghost use Rattle.dvc_base.specs.Answer.{fault_in, IsAnswer};
ghost use Rattle.dvc_base.specs.Fault.{MayBe, IsHonest};
ghost use Rattle.dvc_base.specs.declared.fault.Fault.TheVariants.{WorldFault};
ghost use Rattle.world_api.specs.Tree.{value_at};
ghost use Rattle.world_api.specs.History.{IsCaused};
ghost use Rattle.world_api.specs.Outside.{tree_of, IsUntouched, PassesFrom};
ghost use Rattle.world_api.specs.Calls.{is_runnable, HasFolders, InRun};
ghost use Rattle.repro_laws.specs.Refusals.{first_of, refused_out};
ghost use Rattle.repro_core.specs.Steps.{IsEndOf, WasRun, end_kinds, look_kinds};
ghost use Rattle.repro_core.specs.Telling.{TellsOwn};
ghost use Rattle.repro_core.specs.Ways.{TellsMade};

use dvc_base::{Fault, Plain, Text};
use repro_laws::{Out, Stage};
use std::alloc::Global;
use world_api::{Exit, Job, Kind, ReadFiles, World};

/// Runs the job. A code that isn't 0 is refused.
pub(crate) fn run_job<W: World>(
    alloc: Global,
    world: &mut W,
    stage: &Stage,
    job: &Job,
) -> Result<(), Fault>
    requires texts { IsTrue (is_runnable job.now) }
    requires folders { IsTrue W.tells → HasFolders job.now (tree_of (W.history world.old)) }
    ensures ran { IsTrue W.tells → WasRun job.now stage.now.name (fault_in result)
        (W.history world.old).present (W.history world.new).present }
    ensures moments { IsTrue W.tells → PassesFrom (InRun job.now) (W.history world.old) (W.history world.new) }
    ensures told { TellsOwn stage.now (fault_in result) }
    ensures kinds { MayBe end_kinds (fault_in result) }
    ensures honest { IsHonest W.tells (fault_in result) }
    ensures cause { IsCaused (W.faults world.old) (W.faults world.new) (IsErrOf result WorldFault) }
{
    let Ok(exit) = world.run(job) else {
        return Err(Fault::WorldFault);
    };
    check_end(alloc, stage, &exit)
}

fn check_end(alloc: Global, stage: &Stage, exit: &Exit) -> Result<(), Fault>
    ensures end { IsEndOf stage.now.name exit.now.code (fault_in result) }
    ensures told { TellsOwn stage.now (fault_in result) }
    ensures kinds { MayBe end_kinds (fault_in result) }
    ensures honest { (tells : Bool) → IsHonest tells (fault_in result) }
{
    if exit.code == 0 {
        return Ok(());
    }
    Err(Fault::CommandFailed {
        stage: stage.name.copy(alloc)?,
        code: exit.code,
    })
}

/// Looks at each output of the stage, as they are written. The first that is missing is refused.
pub(crate) fn look_at_made<F: ReadFiles>(
    alloc: Global,
    files: &mut F,
    stage: &Stage,
) -> Result<(), Fault>
    ensures answer { IsTrue F.tells → IsAnswer (fault_in result)
        (first_of (λ o. refused_out stage.now.name o (value_at (tree_of (F.history files.old)) o.path)) stage.now.outs) }
    ensures unchanged { IsUntouched F.tells (F.history files.old) (F.history files.new) }
    ensures told { TellsMade stage.now.name stage.now.outs (fault_in result) }
    ensures kinds { MayBe look_kinds (fault_in result) }
    ensures cause { IsCaused (F.faults files.old) (F.faults files.new) (IsErrOf result WorldFault) }
{
    for out in stage.outs.as_slice() {
        look_at_out(alloc, files, &stage.name, out)?;
    }
    Ok(())
}

fn look_at_out<F: ReadFiles>(
    alloc: Global,
    files: &mut F,
    name: &Text,
    out: &Out,
) -> Result<(), Fault>
    ensures answer { IsTrue F.tells → IsAnswer (fault_in result)
        (refused_out name.now out.now (value_at (tree_of (F.history files.old)) out.now.path)) }
    ensures unchanged { IsUntouched F.tells (F.history files.old) (F.history files.new) }
    ensures told { TellsMade name.now (out.now ∷ []) (fault_in result) }
    ensures kinds { MayBe look_kinds (fault_in result) }
    ensures cause { IsCaused (F.faults files.old) (F.faults files.new) (IsErrOf result WorldFault) }
{
    let Ok(kind) = files.kind(&out.path) else {
        return Err(Fault::WorldFault);
    };
    match kind {
        Kind::Missing => Err(Fault::MissingOutput {
            stage: name.copy(alloc)?,
            path: out.path.copy(alloc)?,
        }),
        _ => Ok(()),
    }
}
