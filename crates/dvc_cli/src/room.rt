// A sink that takes no memory, in which a line is put together.
ghost use Rattle.std.specs.Prelude.{true, [], ◌≡◌};
ghost use Rattle.world_api.specs.History.{HasCause};
ghost use Rattle.world_api.specs.Calls.{Takes};

use arrayvec::ArrayVec;
use dvc_base::Failed;
use world_api::Sink;

// More than nearly every line has: a path has 1,024 bytes at the most.
const ROOM: usize = 4_096;

/// Takes what fits into it, and fails for the rest.
#[derive(Drop)]
pub(crate) struct Room {
    bytes: ArrayVec<u8, ROOM>,
    passed: u64,
}

impl Room {
    pub(crate) fn new() -> Room
        ensures empty { result.bytes.items ≡ [] }
    {
        Room {
            bytes: ArrayVec::new(),
            passed: 0,
        }
    }

    pub(crate) fn bytes(&self) -> &[u8]
        ensures told { result.now ≡ self.now.bytes.items }
    {
        self.bytes.as_slice()
    }
}

impl Sink for Room {
    ghost tells = { true };

    ghost taken = { λ r. r.bytes.items };

    ghost faults = { λ r. record { origin = []; count = r.passed } };

    fn put(&mut self, bytes: &[u8]) -> Result<(), Failed> {
        if self.bytes.try_extend_from_slice(bytes).is_err() {
            self.passed = self.passed.saturating_add(1);
            return Err(Failed);
        }
        Ok(())
    }
}
