// Quoted scalars.
ghost use Rattle.std.specs.Prelude.{◌≡◌, ◌<◌, ◌≤◌, ◌++◌, length, IfOk, IfErr};
ghost use Rattle.std.specs.Char.{encode_utf8};
ghost use Rattle.yaml_text.specs.Outcome.{Reads};
ghost use Rattle.yaml_scalars.specs.Quoted as spec;

use crate::escape::escape;
use crate::plain::{push_breaks, push_lines};
use dvc_base::Text;
use std::alloc::Global;
use yaml_text::{
    Halt, blank_lines, byte, is_bad, is_white, past_white, split_first, syntax, text_of,
};

fn is_literal(quote: u8, byte: u8) -> bool
    ensures { result ≡ spec.is_literal quote byte }
{
    !(byte == quote || byte == b'\n' || is_bad(byte) || (quote == b'"' && byte == b'\\'))
}

#[tactic(auto, unfolding(crate::specs::Quoted::literal_len))]
fn literal_len(quote: u8, text: &[u8]) -> usize
    ensures value { result ≡ spec.literal_len quote text.now }
    ensures within { result ≤ length text.now }
{
    let mut len = 0;
    while len < text.len() && is_literal(quote, text[len]) {
        len += 1;
    }
    len
}

// How long the text is without white space at its end.
fn solid_len(text: &[u8]) -> usize
    ensures value { result ≡ spec.solid_len text.now }
    ensures within { result ≤ length text.now }
{
    let mut len = text.len();
    while len > 0 && is_white(text[len - 1]) {
        len -= 1;
    }
    len
}

fn push_character(found: &mut Vec<u8>, character: char) -> Result<(), Halt>
    ensures ok { IfOk result (λ _. found.new.items ≡ found.old.items ++ encode_utf8 character) }
    ensures err { IfErr result (λ halt. halt ≡ Halt.NoMemory) }
{
    let mut bytes = [0; 4];
    found.extend_from_slice(character.encode_utf8(&mut bytes).as_bytes())?;
    Ok(())
}

// Behind a line break: it becomes a space, or a line feed for each blank line that follows.
#[tactic(auto, unfolding(crate::specs::Quoted::fold_lines))]
fn fold_lines<'a>(found: &mut Vec<u8>, text: &'a [u8]) -> Result<(bool, &'a [u8]), Halt>
    ensures exact { Reads (λ r. (r.0, (found.new.items, r.1.now))) result (Ok (spec.fold_lines found.old.items text.now)) }
    ensures within { IfOk result (λ r. length r.1.now ≤ length text.now) }
{
    let (count, rest) = blank_lines(text);
    push_breaks(found, count)?;
    Ok((false, past_white(rest)))
}

// Behind a line break with a backslash before it: only blank lines that follow it count.
#[tactic(auto, unfolding(crate::specs::Quoted::join_lines))]
fn join_lines<'a>(found: &mut Vec<u8>, text: &'a [u8]) -> Result<(bool, &'a [u8]), Halt>
    ensures exact { Reads (λ r. (r.0, (found.new.items, r.1.now))) result (Ok (spec.join_lines found.old.items text.now)) }
    ensures within { IfOk result (λ r. length r.1.now ≤ length text.now) }
{
    let (count, rest) = blank_lines(text);
    push_lines(found, count)?;
    Ok((false, past_white(rest)))
}

// The character of the escape behind a backslash, which `at` begins with.
fn with_escape<'a>(
    found: &mut Vec<u8>,
    at: &'a [u8],
    text: &'a [u8],
) -> Result<(bool, &'a [u8]), Halt>
    ensures exact { Reads (λ r. (r.0, (found.new.items, r.1.now))) result (spec.with_escape found.old.items at.now (spec.escape text.now)) }
    ensures within { IfOk result (λ r. length r.1.now ≤ length text.now) }
{
    match escape(text) {
        None => Err(syntax(at)),
        Some((character, rest)) => {
            push_character(found, character)?;
            Ok((false, rest))
        }
    }
}

// Behind a backslash, which `at` begins with.
#[tactic(auto, unfolding(crate::specs::Quoted::at_backslash))]
fn at_backslash<'a>(
    over: bool,
    found: &mut Vec<u8>,
    at: &'a [u8],
    text: &'a [u8],
) -> Result<(bool, &'a [u8]), Halt>
    ensures exact { Reads (λ r. (r.0, (found.new.items, r.1.now))) result (spec.at_backslash over found.old.items at.now text.now) }
    ensures within { IfOk result (λ r. length r.1.now ≤ length text.now) }
{
    if byte(text, 0) != b'\n' {
        with_escape(found, at, text)
    } else if over {
        join_lines(found, text.split_at(1).1)
    } else {
        Err(syntax(at))
    }
}

fn at_quote<'a>(quote: u8, found: &mut Vec<u8>, text: &'a [u8]) -> Result<(bool, &'a [u8]), Halt>
    ensures exact { Reads (λ r. (r.0, (found.new.items, r.1.now))) result (Ok (spec.at_quote quote found.old.items text.now)) }
    ensures within { IfOk result (λ r. length r.1.now ≤ length text.now) }
{
    if quote == b'\'' && byte(text, 0) == b'\'' {
        found.push(b'\'')?;
        Ok((false, text.split_at(1).1))
    } else {
        Ok((true, text))
    }
}

// At a line break, which `at` begins with, behind `piece`.
fn at_break<'a>(
    over: bool,
    found: &mut Vec<u8>,
    piece: &[u8],
    at: &'a [u8],
    text: &'a [u8],
) -> Result<(bool, &'a [u8]), Halt>
    ensures exact { Reads (λ r. (r.0, (found.new.items, r.1.now))) result (spec.at_break over found.old.items piece.now at.now text.now) }
    ensures within { IfOk result (λ r. length r.1.now ≤ length text.now) }
{
    if !over {
        return Err(syntax(at));
    }
    found.extend_from_slice(piece.split_at(solid_len(piece)).0)?;
    fold_lines(found, text)
}

// At the next byte with a meaning, behind `piece`.
fn at_meaning<'a>(
    quote: u8,
    over: bool,
    found: &mut Vec<u8>,
    piece: &[u8],
    text: &'a [u8],
) -> Result<(bool, &'a [u8]), Halt>
    ensures exact { Reads (λ r. (r.0, (found.new.items, r.1.now))) result (spec.at_meaning quote over found.old.items piece.now text.now) }
    ensures shorter { IfOk result (λ r. length r.1.now < length text.now) }
{
    match split_first(text) {
        None => Err(syntax(text)),
        Some((first, rest)) => {
            if first == b'\n' {
                return at_break(over, found, piece, text, rest);
            }
            if is_bad(first) {
                return Err(syntax(text));
            }
            found.extend_from_slice(piece)?;
            if first == quote {
                at_quote(quote, found, rest)
            } else {
                at_backslash(over, found, text, rest)
            }
        }
    }
}

// One turn: up to and with the next byte that has a meaning.
#[tactic(auto, unfolding(crate::specs::Quoted::quoted_turn))]
fn quoted_turn<'a>(
    quote: u8,
    over: bool,
    found: &mut Vec<u8>,
    text: &'a [u8],
) -> Result<(bool, &'a [u8]), Halt>
    ensures exact { Reads (λ r. (r.0, (found.new.items, r.1.now))) result (spec.quoted_turn quote over found.old.items text.now) }
    ensures shorter { IfOk result (λ r. length r.1.now < length text.now) }
{
    let (piece, rest) = text.split_at(literal_len(quote, text));
    at_meaning(quote, over, found, piece, rest)
}

/// The quoted scalar, read from behind its opening quote. `over` tells that it may go over lines.
#[tactic(auto, unfolding(crate::specs::Quoted::quoted))]
pub fn quoted_scalar(
    alloc: Global,
    quote: u8,
    over: bool,
    text: &[u8],
) -> Result<(Text, &[u8]), Halt>
    ensures exact { Reads (λ r. (r.0, r.1.now)) result (spec.quoted quote over text.now) }
    ensures within { IfOk result (λ r. length r.1.now ≤ length text.now) }
{
    let mut found = Vec::new(alloc);
    let mut rest = text;
    loop {
        let (last, left) = quoted_turn(quote, over, &mut found, rest)?;
        rest = left;
        if last {
            return Ok((text_of(alloc, found.as_slice())?, rest));
        }
    }
}
