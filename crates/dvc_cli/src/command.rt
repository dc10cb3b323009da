// The top call: all that the program does.
ghost use Rattle.std.specs.Prelude.{◌≡◌, IsTrue, MatchOption, Some};
ghost use Rattle.dvc_base.specs.Answer.{fault_in};
ghost use Rattle.dvc_base.specs.declared.fault.Fault.TheVariants.{WorldFault, OutFault};
ghost use Rattle.world_api.specs.History.{IsCaused};
ghost use Rattle.world_api.specs.Outside.{WithEffect};
ghost use Rattle.dvc_cli.specs.Tell.{fault_line, Tells};
ghost use Rattle.dvc_cli.specs.declared.words.Request.TheVariants.{Repro};
ghost use Rattle.dvc_cli.specs.Command.{exit_status, DoesCommand, Refuses, Answers, PutsReport};
ghost use Rattle.dvc_cli.specs.Words.{asked};

use crate::message::tell;
use crate::words::{Request, read_words};
use crate::workspace::read_workspace;
use dvc_base::{Fault, Text, Texts};
use plan_turns::repro;
use repro_laws::Flags;
use std::alloc::Global;
use world_api::{Sink, World};

/// How a call of the program ended: its exit status, and the fault that it told, if there is one.
#[derive(Drop)]
pub struct Done {
    pub status: u8,
    pub fault: Option<Fault>,
}

/// Does what the words say: reads the workspace, records its track files, takes the turns of its stages, and tells a fault on `err`.
///
/// The words are those after the program's name. So far there is one command: `repro`, with `-f` or `--force`, and with targets.
pub fn dvc<W: World, K: Sink>(
    alloc: Global,
    words: &Texts,
    world: &mut W,
    out: &mut K,
    err: &mut K,
) -> Done
    // Ok leaves the outputs and the lock's entries that running every stage anew in dependency order gives, of those that the
    // targets choose, and all else as before: where what was remembered is true, and no two contents met share an MD5. `DoesCommand` has that and what is
    // left by a refusal and by a stop, a line each.
    ensures does { WithEffect W.tells (W.history world.old) (λ effect.
        DoesCommand (asked words.now) effect result.fault (W.history world.old) (W.history world.new)) }
    ensures refuses { IsTrue W.tells →
        Refuses (asked words.now) result.fault (W.history world.old) (W.history world.new) }
    ensures kinds { Answers (asked words.now) W.tells result.fault }
    ensures puts { IsTrue K.tells → PutsReport (asked words.now) W.tells result.fault
        (W.history world.old) (W.history world.new) (K.taken out.old) (K.taken out.new) }
    ensures world_cause { IsCaused (W.faults world.old) (W.faults world.new) (result.fault ≡ Some WorldFault) }
    ensures out_cause { IsCaused (K.faults out.old) (K.faults out.new) (result.fault ≡ Some OutFault) }

    // The status is the fault's, whose line is told; a failing `err` changes nothing in the answer.
    ensures status { result.status ≡ exit_status result.fault }
    ensures told { IsTrue K.tells → MatchOption result.fault (K.taken err.new ≡ K.taken err.old) (λ fault.
        Tells (K.faults err.old) (K.faults err.new) (K.taken err.old) (fault_line fault) (K.taken err.new)) }
    ensures err_count { IsCaused (K.faults err.old) (K.faults err.new) ⊥ }
{
    match perform(alloc, words, world, out) {
        Ok(()) => Done {
            status: 0,
            fault: None,
        },
        Err(fault) => {
            // A failing `err` changes nothing in the answer.
            let _ = tell(&fault, err);
            Done {
                status: fault.status(),
                fault: Some(fault),
            }
        }
    }
}

// Does what the words say, and answers the fault.
fn perform<W: World, K: Sink>(
    alloc: Global,
    words: &Texts,
    world: &mut W,
    out: &mut K,
) -> Result<(), Fault>
    ensures does { WithEffect W.tells (W.history world.old) (λ effect.
        DoesCommand (asked words.now) effect (fault_in result) (W.history world.old) (W.history world.new)) }
    ensures refuses { IsTrue W.tells →
        Refuses (asked words.now) (fault_in result) (W.history world.old) (W.history world.new) }
    ensures kinds { Answers (asked words.now) W.tells (fault_in result) }
    ensures puts { IsTrue K.tells → PutsReport (asked words.now) W.tells (fault_in result)
        (W.history world.old) (W.history world.new) (K.taken out.old) (K.taken out.new) }
    ensures world_cause { IsCaused (W.faults world.old) (W.faults world.new) (fault_in result ≡ Some WorldFault) }
    ensures out_cause { IsCaused (K.faults out.old) (K.faults out.new) (fault_in result ≡ Some OutFault) }
{
    match read_words(alloc, words) {
        Ok(Request::Repro { force, targets }) => {
            reproduce(alloc, force, targets.as_slice(), world, out)
        }
        Err(fault) => Err(fault),
    }
}

// Records the track files and takes the turns of the stages that the targets choose.
fn reproduce<W: World, K: Sink>(
    alloc: Global,
    force: bool,
    targets: &[Text],
    world: &mut W,
    out: &mut K,
) -> Result<(), Fault>
    ensures does { WithEffect W.tells (W.history world.old) (λ effect.
        DoesCommand (Some (Repro force targets.now)) effect (fault_in result) (W.history world.old) (W.history world.new)) }
    ensures refuses { IsTrue W.tells →
        Refuses (Some (Repro force targets.now)) (fault_in result) (W.history world.old) (W.history world.new) }
    ensures kinds { Answers (Some (Repro force targets.now)) W.tells (fault_in result) }
    ensures puts { IsTrue K.tells → PutsReport (Some (Repro force targets.now)) W.tells (fault_in result)
        (W.history world.old) (W.history world.new) (K.taken out.old) (K.taken out.new) }
    ensures world_cause { IsCaused (W.faults world.old) (W.faults world.new) (fault_in result ≡ Some WorldFault) }
    ensures out_cause { IsCaused (K.faults out.old) (K.faults out.new) (fault_in result ≡ Some OutFault) }
{
    let mut workspace = read_workspace(alloc, world, targets)?;
    // No output comes back from the cache yet.
    let flags = Flags {
        force,
        run_cache: false,
    };
    repro(
        alloc,
        world,
        &mut workspace.plan,
        &workspace.chosen,
        flags,
        out,
    )?;
    Ok(())
}
