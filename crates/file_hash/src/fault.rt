// Why something has no name, or no listing.
use dvc_base::{NoMemory, Rel, What};

/// Why what stands at a path was not named.
#[derive(Drop)]
pub enum HashFault {
    /// Nothing stands there.
    Missing,
    /// A file had another size when it was read than it was told to have.
    Changed { path: Rel, told: u64, found: u64 },
    /// A limit is passed.
    TooLarge { what: What, limit: u64 },
    /// A call to the files failed.
    Failed,
    /// Memory ran out.
    NoMemory,
}

impl From<NoMemory> for HashFault {
    ghost use Rattle.std.specs.Prelude.{◌≡◌};
    ghost use Rattle.file_hash.specs.declared.fault.HashFault.TheVariants.{NoMemory as Memory};

    ghost from_gives = { λ _ fault. fault ≡ Memory };

    fn from(_: NoMemory) -> HashFault {
        HashFault::NoMemory
    }
}

/// Why a single file was not named. Naming one takes no memory.
#[derive(Clone, Copy, Debug, PartialEq, Eq)]
pub enum FileFault {
    /// What stands there isn't a file.
    Missing,
    /// It had another size when it was read than it was told to have.
    Changed { told: u64, found: u64 },
    /// A limit is passed.
    TooLarge { what: What, limit: u64 },
    /// A call to the files failed.
    Failed,
}

/// Why a text was not read as a listing.
#[derive(Clone, Copy, Debug, PartialEq, Eq)]
pub enum ListingFault {
    /// The text is no listing.
    Bad,
    /// Memory ran out.
    NoMemory,
}

impl From<NoMemory> for ListingFault {
    ghost use Rattle.std.specs.Prelude.{◌≡◌};
    ghost use Rattle.file_hash.specs.declared.fault.ListingFault.TheVariants.{NoMemory as Memory};

    ghost from_gives = { λ _ fault. fault ≡ Memory };

    fn from(_: NoMemory) -> ListingFault {
        ListingFault::NoMemory
    }
}
