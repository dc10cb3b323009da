// What became of a text.
use crate::again::{Record, print_again};
use dvc_base::{NoMemory, Writer, YamlFault};
use lock_files::LockFault;
use std::alloc::Global;

/// Puts what a text is printed as and what that is read back as, or why the text isn't read.
pub(crate) fn put_outcome(
    alloc: Global,
    out: &mut Writer,
    record: Record,
    text: &[u8],
) -> Result<(), NoMemory> {
    match print_again(alloc, record, text) {
        Ok(printed) => {
            put_printed(out, text, printed.as_slice())?;
            put_back(alloc, out, record, printed.as_slice())
        }
        Err(fault) => put_refusal(out, fault),
    }
}

fn put_printed(out: &mut Writer, text: &[u8], printed: &[u8]) -> Result<(), NoMemory> {
    if printed == text {
        return out.put(b"=> printed as it is\n");
    }
    out.put_all(&[b"=> printed as\n", printed])
}

// Puts whether what was printed is read back, which shows where that is printed again.
fn put_back(
    alloc: Global,
    out: &mut Writer,
    record: Record,
    printed: &[u8],
) -> Result<(), NoMemory> {
    match print_again(alloc, record, printed) {
        Ok(again) => put_sameness(out, printed == again.as_slice()),
        Err(fault) => put_refusal(out, fault),
    }
}

fn put_sameness(out: &mut Writer, is_same: bool) -> Result<(), NoMemory> {
    if is_same {
        out.put(b"=> read back as the same\n")
    } else {
        out.put(b"=> read back as another\n")
    }
}

fn put_refusal(out: &mut Writer, fault: LockFault) -> Result<(), NoMemory> {
    out.put(b"=> ")?;
    put_fault(out, &fault)?;
    out.put(b"\n")
}

fn put_fault(out: &mut Writer, fault: &LockFault) -> Result<(), NoMemory> {
    match fault {
        LockFault::Yaml { fault } => put_yaml(out, fault),
        LockFault::Schema { key } => put_key(out, b"bad value at '", key.as_str()),
        LockFault::Unsupported { key } => put_key(out, b"not supported: '", key.as_str()),
        LockFault::Legacy => out.put(b"an older format"),
        LockFault::NoMemory => Err(NoMemory),
    }
}

fn put_yaml(out: &mut Writer, fault: &YamlFault) -> Result<(), NoMemory> {
    out.put(b"line ")?;
    out.put_number(u64::from(fault.line()))?;
    out.put_all(&[b": ", fault.word().as_bytes()])
}

fn put_key(out: &mut Writer, words: &[u8], key: &str) -> Result<(), NoMemory> {
    out.put_all(&[words, key.as_bytes(), b"'"])
}
