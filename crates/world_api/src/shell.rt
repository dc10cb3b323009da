// Programs, which a stage's commands start.
ghost use Rattle.std.specs.Prelude.{IsTrue, IfOk, OnErr};
ghost use Rattle.world_api.specs.History.{HasCause, Stays, itself};
ghost use Rattle.world_api.specs.Outside.{tree_of, PassesFrom};
ghost use Rattle.world_api.specs.Calls.{is_runnable, HasFolders, IsRun, InRun};

use crate::{Exit, Files, Ground, Job};
use dvc_base::Failed;

/// What runs a stage's commands.
pub trait Shell: Ground {
    /// Runs the commands one after another, and stops at the first that doesn't end with 0. The outputs
    /// hold anything where it doesn't answer the code 0, and may be lost in a stop. Failed may come before
    /// they are touched.
    fn run(&mut self, job: &Job) -> Result<Exit, Failed>
        requires texts { IsTrue (is_runnable job.now) }
        requires folders { IsTrue Self.tells → HasFolders job.now (tree_of (Self.history self.old)) }
        ensures ran { IsTrue Self.tells → IfOk result (λ exit.
            IsRun job.now exit.code (Self.history self.old).present (Self.history self.new).present) }
        ensures not_run { IsTrue Self.tells → OnErr result
            (Stays itself (Self.history self.old).present.aside (Self.history self.new).present.aside) }
        ensures moments { IsTrue Self.tells →
            PassesFrom (InRun job.now) (Self.history self.old) (Self.history self.new) }
        ensures cause { HasCause (Self.faults self.old) (Self.faults self.new) result };
}

/// All that a command reaches, but for its output.
pub trait World: Files + Shell {}
