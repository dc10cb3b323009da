// How many turns of each choice were taken.
ghost use Rattle.std.specs.Prelude.{◌≡◌, ◌+◌, ◌<◌, ◌^◌};
ghost use Rattle.repro_core.specs.Summaries.{total, with_choice};

use repro_laws::Choice;

/// How many stages ran, how many were restored, and how many were skipped.
#[derive(Clone, Copy, Debug, PartialEq, Eq)]
pub struct Summary {
    pub run: u32,
    pub restored: u32,
    pub skipped: u32,
}

impl Summary {
    // Before any turn.
    pub(crate) fn none() -> Summary
        ensures exact { result ≡ record { run = 0; restored = 0; skipped = 0 } }
    {
        Summary {
            run: 0,
            restored: 0,
            skipped: 0,
        }
    }

    // With one turn more.
    pub(crate) fn count(&mut self, choice: Choice)
        requires room { total self.old + 1 < 2 ^ 32 }
        ensures counted { self.new ≡ with_choice choice self.old }
    {
        match choice {
            Choice::Run => self.run += 1,
            Choice::Restore => self.restored += 1,
            Choice::Skip => self.skipped += 1,
        }
    }
}
