// Why a file holds no parameters.
ghost use Rattle.std.specs.Prelude.{◌≡◌};

use dvc_base::{NoMemory, Text, YamlFault};

/// Why a file holds no parameters.
#[derive(Drop)]
pub enum ParamsFault {
    /// No file stands at the path.
    NoFile,
    /// Its text is none of the YAML profile.
    Yaml { fault: YamlFault },
    /// More collections stand in one another at the top-level key than `dvc.lock` has room for; the empty key where
    /// the file holds no mapping.
    Schema { key: Text },
    /// It was told to have one number of bytes, and another one was found.
    Changed { told: u64, found: u64 },
    /// Its text is past the limit.
    TooLarge,
    /// A call to the files failed.
    Failed,
    /// Memory ran out.
    NoMemory,
}

impl From<NoMemory> for ParamsFault {
    ghost use Rattle.params.specs.declared.fault.ParamsFault.TheVariants.{NoMemory as Memory};

    ghost from_gives = { λ _ fault. fault ≡ Memory };

    fn from(_: NoMemory) -> ParamsFault {
        ParamsFault::NoMemory
    }
}
