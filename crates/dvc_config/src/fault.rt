// Why a text is no config.
ghost use Rattle.std.specs.Prelude.{◌≡◌};

use dvc_base::NoMemory;

/// Why a text was not read.
#[derive(Clone, Copy, Debug, PartialEq, Eq)]
pub enum ConfigFault {
    /// The line has none of the forms of a line. It is the first such one.
    BadConfig { line: u32 },
    /// Memory ran out.
    NoMemory,
}

impl From<NoMemory> for ConfigFault {
    ghost use Rattle.dvc_config.specs.declared.fault.ConfigFault.TheVariants.{NoMemory as Memory};

    ghost from_gives = { λ _ fault. fault ≡ Memory };

    fn from(_: NoMemory) -> ConfigFault {
        ConfigFault::NoMemory
    }
}
