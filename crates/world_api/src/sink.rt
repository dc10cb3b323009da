// What takes the tool's own lines.
ghost use Rattle.std.specs.Prelude.{Bool, ℕ, List, IsTrue};
ghost use Rattle.world_api.specs.History.{Faults, HasCause};
ghost use Rattle.world_api.specs.Calls.{Takes};

use dvc_base::Failed;

/// An output: standard output, standard error, or memory.
pub trait Sink {
    /// Whether it tells what it took.
    ghost tells: { Bool };

    /// The bytes that it took so far.
    ghost taken: { Self → List ℕ };

    /// How often a put has failed. It never falls, and no caller can raise it.
    ghost faults: { Self → Faults };

    /// Puts the bytes at the end: all of them after Ok, else a front of them.
    fn put(&mut self, bytes: &[u8]) -> Result<(), Failed>
        ensures taken { IsTrue Self.tells → Takes (Self.taken self.old) bytes.now (Self.taken self.new) result }
        ensures cause { HasCause (Self.faults self.old) (Self.faults self.new) result };
}
