// Why a text is no lock, track file or entry.
ghost use Rattle.std.specs.Prelude.{◌≡◌};

use dvc_base::{NoMemory, Text, YamlFault};

/// Why a text was not read: the first refusal in it.
#[derive(Drop)]
pub enum LockFault {
    /// It is none of the YAML profile.
    Yaml { fault: YamlFault },
    /// A part is missing at the key, or none that may stand there.
    Schema { key: Text },
    /// The key asks for what the tool leaves out.
    Unsupported { key: Text },
    /// It was written by an old release of DVC.
    Legacy,
    /// Memory ran out.
    NoMemory,
}

impl From<NoMemory> for LockFault {
    ghost use Rattle.lock_files.specs.declared.fault.LockFault.TheVariants.{NoMemory as Memory};

    ghost from_gives = { λ _ fault. fault ≡ Memory };

    fn from(_: NoMemory) -> LockFault {
        LockFault::NoMemory
    }
}
