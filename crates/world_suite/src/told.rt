// What a world was asked and what it answered, and the numbers by which the calls are drawn.
ghost use Rattle.std.specs.Prelude.{◌≤◌};

use std::alloc::Global;
use std::fmt::Display;
use std::test::Fail;

#[derive(Drop)]
pub(crate) struct Told {
    pub(crate) alloc: Global,
    state: u64,
    pub(crate) text: String,
}

impl Told {
    pub(crate) fn new(alloc: Global, seed: u64) -> Told {
        Told {
            alloc,
            state: seed,
            text: String::new(alloc),
        }
    }

    /// Writes down a line.
    pub(crate) fn note<D: Display + Drop>(&mut self, line: D) -> Result<(), Fail> {
        writeln!(self.text, "{line}")?;
        Ok(())
    }

    /// A number below the bound, drawn anew; 0 where no number is.
    pub(crate) fn below(&mut self, bound: u64) -> u64
        ensures { result ≤ bound }
    {
        self.state = self
            .state
            .wrapping_mul(6_364_136_223_846_793_005)
            .wrapping_add(1_442_695_040_888_963_407);
        let drawn = self.state >> 33;
        if bound == 0 { 0 } else { drawn % bound }
    }

    /// One of the items.
    pub(crate) fn pick<'a, T>(&mut self, items: &'a [T]) -> Option<&'a T> {
        let index = self.below(items.len() as u64);
        items.get(index as usize)
    }
}
