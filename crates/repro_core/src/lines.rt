// The lines that tell of a stage's turn.
ghost use Rattle.std.specs.Prelude.{◌≡◌, ◌++◌, IsTrue, IfOk, OnOk, IsErrOf, string_bytes};
ghost use Rattle.dvc_base.specs.Answer.{fault_in};
ghost use Rattle.dvc_base.specs.Fault.{MayBe};
ghost use Rattle.dvc_base.specs.declared.fault.Fault.TheVariants.{OutFault};
ghost use Rattle.world_api.specs.History.{IsCaused};
ghost use Rattle.world_api.specs.Calls.{Takes};
ghost use Rattle.repro_laws.specs.Due.{command_lines, lines_of};
ghost use Rattle.repro_core.specs.Steps.{put_kinds};

use dvc_base::{Fault, NoMemory, Text};
use repro_laws::{Choice, Stage};
use std::alloc::Global;
use world_api::Sink;

/// Puts the lines of the choice, all at once.
pub(crate) fn put_choice<K: Sink>(
    alloc: Global,
    stage: &Stage,
    choice: Choice,
    out: &mut K,
) -> Result<(), Fault>
    ensures taken { IsTrue K.tells → Takes (K.taken out.old) (lines_of stage.now choice) (K.taken out.new) result }
    ensures cause { IsCaused (K.faults out.old) (K.faults out.new) (IsErrOf result OutFault) }
    ensures kinds { MayBe put_kinds (fault_in result) }
{
    let lines = lines_of(alloc, stage, choice)?;
    match out.put(lines.as_str().as_bytes()) {
        Ok(()) => Ok(()),
        Err(_) => Err(Fault::OutFault),
    }
}

// A skip and a restore are one line with the stage's name, and a run is one and then each command.
fn lines_of(alloc: Global, stage: &Stage, choice: Choice) -> Result<String, NoMemory>
    ensures made { IfOk result (λ lines. string_bytes lines ≡ lines_of stage.now choice) }
{
    let mut lines = String::new(alloc);
    match choice {
        Choice::Skip => {
            add_between(
                &mut lines,
                "Stage '",
                &stage.name,
                "' didn't change, skipping\n",
            )?;
        }
        Choice::Restore => {
            add_between(
                &mut lines,
                "Stage '",
                &stage.name,
                "' is cached - skipping run, checking out outputs\n",
            )?;
        }
        Choice::Run => {
            add_between(&mut lines, "Running stage '", &stage.name, "':\n")?;
            add_commands(&mut lines, stage.commands.as_slice())?;
        }
    }
    Ok(lines)
}

fn add_commands(lines: &mut String, commands: &[Text]) -> Result<(), NoMemory>
    ensures added { OnOk result (string_bytes lines.new ≡ string_bytes lines.old ++ command_lines commands.now) }
{
    for command in commands {
        add_between(lines, "> ", command, "\n")?;
    }
    Ok(())
}

fn add_between(lines: &mut String, before: &str, text: &Text, after: &str) -> Result<(), NoMemory>
    ensures added { OnOk result
        (string_bytes lines.new ≡ string_bytes lines.old ++ (before.now ++ text.now ++ after.now)) }
{
    lines.push_str(before)?;
    lines.push_str(text.as_str())?;
    lines.push_str(after)?;
    Ok(())
}
