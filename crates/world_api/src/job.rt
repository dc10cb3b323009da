// One run of a stage's commands.
ghost use Rattle.std.specs.Prelude.{◌≡◌, IfOk};

use dvc_base::{NoMemory, ParamFiles, Plain, Rel, Text, Texts};
use std::alloc::Global;

/// What a stage asks to be run: its commands, one after another in its folder, with what it declares.
#[derive(Drop)]
pub struct Job {
    pub stage: Text,
    pub commands: Texts,
    /// The folder in which the commands run, and from which the paths below are read.
    pub dir: Rel,
    pub deps: Texts,
    /// The parameters that the stage tracks, with their values.
    pub params: ParamFiles,
    pub outs: Texts,
}

impl Plain for Job {
    fn copy(&self, alloc: Global) -> Result<Job, NoMemory> {
        Ok(Job {
            stage: self.stage.copy(alloc)?,
            commands: self.commands.copy(alloc)?,
            dir: self.dir.copy(alloc)?,
            deps: self.deps.copy(alloc)?,
            params: self.params.copy(alloc)?,
            outs: self.outs.copy(alloc)?,
        })
    }
}

/// How a job ended: with code 0 where each command did.
#[derive(Clone, Copy, Debug, PartialEq, Eq)]
pub struct Exit {
    pub code: i32,
}
