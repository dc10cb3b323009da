// Why a file was not read.
use dvc_base::NoMemory;

/// Why the bytes of a file were not read.
#[derive(Clone, Copy, Debug, PartialEq, Eq)]
pub enum ReadFault {
    /// It was told to have one number of bytes, and another one was found.
    Changed { told: u64, found: u64 },
    /// A call to the files failed.
    Failed,
    /// Memory ran out.
    NoMemory,
}

impl From<NoMemory> for ReadFault {
    ghost use Rattle.std.specs.Prelude.{◌≡◌};
    ghost use Rattle.file_bytes.specs.declared.fault.ReadFault.TheVariants.{NoMemory as Memory};

    ghost from_gives = { λ _ fault. fault ≡ Memory };

    fn from(_: NoMemory) -> ReadFault {
        ReadFault::NoMemory
    }
}
