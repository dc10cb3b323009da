// What the outputs of a call have to hold.
use std::io;
use std::io::Write;
use std::rt::Runtime;
use std::test::Fail;

const REFUSED_LOCK: &[u8] = b"ERROR: 'dvc.lock'";

const LINES: &[u8] = b"Running stage 'copy':\n> cat in\n";

const OUT_FAULT: &[u8] = b"ERROR: the output can't be written\n";

const COMMAND_FAULT: &[u8] = b"ERROR: stage 'copy' failed with 3\n";

/// What is wanted of both outputs.
#[derive(Clone, Copy)]
pub(crate) enum Outputs {
    /// Anything, which is printed.
    Printed,
    /// The refusal of a lock, or the lines of the copy.
    NoSkip,
    /// The lines of the copy, or a front of them and that the output can't be written.
    CopyLines,
    /// A front of the line that a command has failed, whatever the output took.
    FailedCommand,
}

pub(crate) fn judge<R: Runtime>(
    rt: &R,
    wanted: Outputs,
    out: &[u8],
    err: &[u8],
) -> Result<(), Fail> {
    match wanted {
        Outputs::Printed => print_outputs(rt, out, err),
        Outputs::NoSkip => expect(is_no_skip(out, err), "a lock is refused, or the stage runs"),
        Outputs::CopyLines => expect(is_copy(out, err), "a failing put is told"),
        Outputs::FailedCommand => expect(COMMAND_FAULT.starts_with(err), "a command has failed"),
    }
}

fn is_no_skip(out: &[u8], err: &[u8]) -> bool {
    (out.is_empty() && err.starts_with(REFUSED_LOCK)) || (out == LINES && err.is_empty())
}

fn is_copy(out: &[u8], err: &[u8]) -> bool {
    (out == LINES && err.is_empty()) || (LINES.starts_with(out) && err == OUT_FAULT)
}

fn print_outputs<R: Runtime>(rt: &R, out: &[u8], err: &[u8]) -> Result<(), Fail> {
    print_bytes(rt, "output", out)?;
    print_bytes(rt, "errors", err)
}

/// Prints bytes under a name, between bars, where there are any.
pub(crate) fn print_bytes<R: Runtime>(rt: &R, name: &str, bytes: &[u8]) -> Result<(), Fail> {
    if bytes.is_empty() {
        return Ok(());
    }
    rt.print(format_args!("{name} |"))?;
    io::writer(rt).write_all(bytes)?;
    rt.println("|")?;
    Ok(())
}

/// Fails where what has to be isn't.
pub(crate) fn expect(is: bool, what: &str) -> Result<(), Fail> {
    if is {
        return Ok(());
    }
    Err(Fail::new(format_args!("it isn't so that {what}")))
}
