// Bytes in a row of the table: `\n`, `\r`, `\t`, `\\`, and `\x` with two digits for any byte.
ghost use Rattle.std.specs.Prelude.{◌≤◌, length};

use dvc_base::NoMemory;
use std::alloc::Global;

/// The bytes that a row stands for.
pub(crate) fn unescape(alloc: Global, row: &[u8]) -> Result<Vec<u8>, NoMemory> {
    let mut bytes = Vec::with_capacity(alloc, row.len())?;
    let mut rest = row;
    while let [first, behind @ ..] = rest {
        let (byte, left) = if *first == b'\\' {
            escaped_byte(behind)
        } else {
            (*first, behind)
        };
        bytes.push(byte)?;
        rest = left;
    }
    Ok(bytes)
}

// The byte whose escape goes on here, behind the backslash, and what is left behind it.
fn escaped_byte(text: &[u8]) -> (u8, &[u8])
    ensures within { length result.1.now ≤ length text.now }
{
    match text {
        [b'n', rest @ ..] => (b'\n', rest),
        [b'r', rest @ ..] => (b'\r', rest),
        [b't', rest @ ..] => (b'\t', rest),
        [b'x', high, low, rest @ ..] => (digit(*high) << 4 | digit(*low), rest),
        [other, rest @ ..] => (*other, rest),
        [] => (b'\\', text),
    }
}

fn digit(byte: u8) -> u8 {
    match byte {
        b'0'..=b'9' => byte - b'0',
        b'a'..=b'f' => byte - b'a' + 10,
        _ => 0,
    }
}

/// Adds bytes as a row has them.
pub(crate) fn push_escaped(out: &mut Vec<u8>, bytes: &[u8]) -> Result<(), NoMemory> {
    for byte in bytes {
        push_byte(out, *byte)?;
    }
    Ok(())
}

fn push_byte(out: &mut Vec<u8>, byte: u8) -> Result<(), NoMemory> {
    match byte {
        b'\n' => out.extend_from_slice(b"\\n")?,
        b'\r' => out.extend_from_slice(b"\\r")?,
        b'\t' => out.extend_from_slice(b"\\t")?,
        b'\\' => out.extend_from_slice(b"\\\\")?,
        b' '..=b'~' => out.push(byte)?,
        _ => push_hex(out, byte)?,
    }
    Ok(())
}

fn push_hex(out: &mut Vec<u8>, byte: u8) -> Result<(), NoMemory> {
    out.extend_from_slice(b"\\x")?;
    out.push(hex_digit(byte >> 4))?;
    out.push(hex_digit(byte & 15))?;
    Ok(())
}

fn hex_digit(digit: u8) -> u8 {
    match digit {
        0..=9 => b'0' + digit,
        10..=15 => b'a' + (digit - 10),
        _ => b'?',
    }
}
