// A text, read as a record and printed again.
ghost use Rattle.std.specs.Prelude.{◌<◌, ◌≤◌, ◌+◌, ◌^◌, ◌==◌, count_by};
ghost use Rattle.lock_files.specs.Form.{IsBook, IsEntry, IsTrack};

use dvc_base::Bytes;
use lock_files::{
    LockFault, print_entry, print_lock, print_track, read_entry, read_lock, read_track,
};
use std::alloc::Global;

/// The longest text that is read here.
const MAX_LEN: usize = 1 << 24;

/// What a text is read as.
#[derive(Clone, Copy)]
pub(crate) enum Record {
    Lock,
    Track,
    Entry,
}

/// What a text is printed as that is read as such a record, or why it isn't read.
#[tactic(auto, using(yaml_nodes::proofs::DocumentLemmas::lines_le))]
pub(crate) fn print_again(alloc: Global, record: Record, text: &[u8]) -> Result<Bytes, LockFault> {
    if text.len() > MAX_LEN {
        return Err(LockFault::NoMemory);
    }
    match record {
        Record::Lock => lock_again(alloc, text),
        Record::Track => track_again(alloc, text),
        Record::Entry => entry_again(alloc, text),
    }
}

fn lock_again(alloc: Global, text: &[u8]) -> Result<Bytes, LockFault>
    requires { count_by (λ b. b == 10) text.now + 1 < 2 ^ 32 }
{
    let book = read_lock(alloc, text)?;
    Ok(print_lock(alloc, &book)?)
}

fn track_again(alloc: Global, text: &[u8]) -> Result<Bytes, LockFault>
    requires { count_by (λ b. b == 10) text.now + 1 < 2 ^ 32 }
{
    let track = read_track(alloc, text)?;
    Ok(print_track(alloc, &track)?)
}

fn entry_again(alloc: Global, text: &[u8]) -> Result<Bytes, LockFault>
    requires { count_by (λ b. b == 10) text.now + 1 < 2 ^ 32 }
{
    let entry = read_entry(alloc, text)?;
    Ok(print_entry(alloc, &entry)?)
}
