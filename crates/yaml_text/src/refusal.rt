// Why reading halts.
ghost use Rattle.std.specs.Prelude.{◌≡◌, length};

use dvc_base::NoMemory;
use std::alloc::{AllocError, AllocFailed};

/// Why no rule reads a text. Each carries how many bytes are left from the place on where that shows.
#[derive(Clone, Copy, Debug, PartialEq, Eq)]
pub enum Refusal {
    Syntax(usize),
    Duplicate(usize),
    TooDeep(usize),
    TooWide(usize),
}

/// Why reading halted.
#[derive(Clone, Copy, Debug, PartialEq, Eq)]
pub enum Halt {
    NoMemory,
    Refused(Refusal),
}

impl From<NoMemory> for Halt {
    ghost use Rattle.yaml_text.specs.declared.refusal.Halt.TheVariants.{NoMemory as Memory};

    ghost from_gives = { λ _ halt. halt ≡ Memory };

    fn from(_: NoMemory) -> Halt {
        Halt::NoMemory
    }
}

impl From<AllocError> for Halt {
    ghost use Rattle.yaml_text.specs.declared.refusal.Halt.TheVariants.{NoMemory as Memory};

    ghost from_gives = { λ _ halt. halt ≡ Memory };

    fn from(_: AllocError) -> Halt {
        Halt::NoMemory
    }
}

impl<T: Drop> From<AllocFailed<T>> for Halt {
    ghost use Rattle.yaml_text.specs.declared.refusal.Halt.TheVariants.{NoMemory as Memory};

    ghost from_gives = { λ _ halt. halt ≡ Memory };

    fn from(_: AllocFailed<T>) -> Halt {
        Halt::NoMemory
    }
}

/// No rule reads the text that is left.
pub fn syntax(text: &[u8]) -> Halt
    ensures { result ≡ Halt.Refused (Refusal.Syntax (length text.now)) }
{
    Halt::Refused(Refusal::Syntax(text.len()))
}
