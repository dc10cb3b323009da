// The ways to refuse.
ghost use Rattle.std.specs.Prelude.{Some};
ghost use Rattle.lock_files.specs.Read.{IsCheck, Refuses};
ghost use Rattle.lock_files.specs.Refused.{refuse_if, refuse_unless};
ghost use Rattle.lock_files.specs.declared.fault.LockFault.TheVariants.{Schema, Unsupported, Legacy};

use crate::LockFault;
use dvc_base::{NoMemory, Text};
use std::alloc::Global;

/// The part at the key is missing or ill-formed.
pub fn schema(alloc: Global, key: &str) -> LockFault
    ensures exact { Refuses result (Some (Schema key.now)) }
{
    match Text::of(alloc, key) {
        Ok(key) => LockFault::Schema { key },
        Err(NoMemory) => LockFault::NoMemory,
    }
}

/// What the key asks for is left out.
fn unsupported(alloc: Global, key: &str) -> LockFault
    ensures exact { Refuses result (Some (Unsupported key.now)) }
{
    match Text::of(alloc, key) {
        Ok(key) => LockFault::Unsupported { key },
        Err(NoMemory) => LockFault::NoMemory,
    }
}

/// The part at the key has to fit.
pub fn schema_unless(alloc: Global, fits: bool, key: &str) -> Result<(), LockFault>
    ensures exact { IsCheck result (refuse_unless fits (Schema key.now)) }
{
    if fits {
        Ok(())
    } else {
        Err(schema(alloc, key))
    }
}

/// The key may not ask for what is left out.
pub fn unsupported_if(alloc: Global, asked: bool, key: &str) -> Result<(), LockFault>
    ensures exact { IsCheck result (refuse_if asked (Unsupported key.now)) }
{
    if asked {
        Err(unsupported(alloc, key))
    } else {
        Ok(())
    }
}

/// The key has to say what the tool does.
pub fn unsupported_unless(alloc: Global, fits: bool, key: &str) -> Result<(), LockFault>
    ensures exact { IsCheck result (refuse_unless fits (Unsupported key.now)) }
{
    if fits {
        Ok(())
    } else {
        Err(unsupported(alloc, key))
    }
}

/// What old releases left out has to be there.
pub fn legacy_unless(fits: bool) -> Result<(), LockFault>
    ensures exact { IsCheck result (refuse_unless fits Legacy) }
{
    if fits { Ok(()) } else { Err(LockFault::Legacy) }
}
