// Why a call on the cache refuses.
use dvc_base::{Failed, Name, NoMemory, Rel, What};

/// Why an object or a value was not looked at, stored or given out.
#[derive(Drop)]
pub enum CacheFault {
    /// The object isn't whole.
    Absent { name: Name },
    /// Nothing stands at the path.
    Missing,
    /// The file had another size when it was read than it was told to have.
    Changed { path: Rel, told: u64, found: u64 },
    /// A counted quantity passes its limit.
    TooLarge { what: What, limit: u64 },
    /// A file is in the way of a folder.
    NotFolder { path: Rel },
    /// A call to the files failed.
    Failed,
    /// Memory ran out.
    NoMemory,
}

impl From<NoMemory> for CacheFault {
    ghost use Rattle.std.specs.Prelude.{◌≡◌};
    ghost use Rattle.object_cache.specs.declared.fault.CacheFault.TheVariants.{NoMemory as Memory};

    ghost from_gives = { λ _ fault. fault ≡ Memory };

    fn from(_: NoMemory) -> CacheFault {
        CacheFault::NoMemory
    }
}

impl From<Failed> for CacheFault {
    ghost use Rattle.std.specs.Prelude.{◌≡◌};
    ghost use Rattle.object_cache.specs.declared.fault.CacheFault.TheVariants.{Failed as Blamed};

    ghost from_gives = { λ _ fault. fault ≡ Blamed };

    fn from(_: Failed) -> CacheFault {
        CacheFault::Failed
    }
}
