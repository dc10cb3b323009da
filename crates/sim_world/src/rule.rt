// What answers the commands of a world in memory.
ghost use Rattle.std.specs.Prelude.{◌≡◌, IfOk};
ghost use Rattle.sim_world.specs.declared.rule.Given.{Given};
ghost use Rattle.sim_world.specs.declared.rule.Made.{Made};
ghost use Rattle.sim_world.specs.Step.{Step};

use crate::PathValues;
use dvc_base::{NoMemory, ParamFiles, Text, Texts};
use std::alloc::Global;
use world_api::Exit;

/// What one command is given: its text, the values of the stage's dependencies, its parameters, and the texts of its
/// outputs.
#[derive(Drop)]
pub struct Given {
    pub command: Text,
    pub deps: PathValues,
    pub params: ParamFiles,
    pub outs: Texts,
}

/// What the commands of a stage have made so far.
#[derive(Drop)]
pub struct Made {
    pub outs: PathValues,
}

/// Answers commands, each as a function of what it is given and of what was made before.
pub trait Rule {
    /// The code that a command ends with, and what is made after it.
    ghost effect: { Given → Made → Step };

    /// Runs one command.
    fn answer(alloc: Global, given: &Given, made: &mut Made) -> Result<Exit, NoMemory>
        ensures told { IfOk result (λ exit.
            effect given.now made.old ≡ record { code = exit.code; made = made.new }) };
}
