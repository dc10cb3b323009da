// Plain scalars.
ghost use Rattle.std.specs.Prelude.{◌≡◌, ◌<◌, ◌≤◌, ◌++◌, false, if◌then◌else◌, length, replicate, IfOk, IfErr, IfSome};
ghost use Rattle.std.specs.Option.{option_copied};
ghost use Rattle.yaml_text.specs.Characters.{line_feed};
ghost use Rattle.yaml_text.specs.Outcome.{IsRefused, Reads};
ghost use Rattle.yaml_text.specs.Line.{breaks, blank_lines};
ghost use Rattle.yaml_scalars.specs.Plain as spec;

use dvc_base::Text;
use std::alloc::Global;
use yaml_text::{
    Halt, blank_lines, byte, is_bad, is_marker, is_white, past_spaces, past_white, spaces,
    split_first, syntax, text_of,
};

/// `,`, `[`, `]`, `{` or `}`.
pub fn is_flow_sign(byte: u8) -> bool
    ensures { result ≡ spec.is_flow_sign byte }
{
    byte == b',' || byte == b'[' || byte == b']' || byte == b'{' || byte == b'}'
}

// What may follow a `:` that parts a key from its value.
fn may_follow_colon(flow: bool, text: &[u8]) -> bool
    ensures { result ≡ spec.may_follow_colon flow text.now }
{
    match text {
        [] => true,
        [first, ..] => is_white(*first) || *first == b'\n' || (flow && is_flow_sign(*first)),
    }
}

/// Whether the text begins with a `:` that parts a key from its value.
pub fn is_colon(flow: bool, text: &[u8]) -> bool
    ensures { result ≡ spec.is_colon flow text.now }
{
    match text {
        [] => false,
        [first, rest @ ..] => *first == b':' && may_follow_colon(flow, rest),
    }
}

// Whether the part ends before this byte. `white` tells that white space stands before it.
fn ends_before(flow: bool, white: bool, first: u8, rest: &[u8]) -> bool
    ensures { result ≡ spec.ends_before flow white first rest.now }
{
    first == b'\n'
        || is_bad(first)
        || (white && first == b'#')
        || (first == b':' && may_follow_colon(flow, rest))
        || (flow && is_flow_sign(first))
}

/// How long a plain scalar's part on this line is, without white space at its end.
#[tactic(auto, using(crate::proofs::PlainLemmas::part_more))]
pub fn plain_len(flow: bool, text: &[u8]) -> usize
    ensures value { result ≡ spec.plain_len flow false text.now }
    ensures within { result ≤ length text.now }
{
    let mut rest = text;
    let mut white = false;
    let mut at = 0;
    let mut end = 0;
    while let Some((first, behind)) = split_first(rest) {
        if ends_before(flow, white, first, behind) {
            return end;
        }
        white = is_white(first);
        at += 1;
        end = end_behind(white, end, at);
        rest = behind;
    }
    end
}

// Where the part ends so far: white space belongs to it only where more follows.
fn end_behind(white: bool, end: usize, at: usize) -> usize
    ensures { result ≡ (if white then end else at) }
{
    if white { end } else { at }
}

fn is_reserved(byte: u8) -> bool
    ensures { result ≡ spec.is_reserved byte }
{
    is_flow_sign(byte)
        || byte == b'#'
        || byte == b'&'
        || byte == b'*'
        || byte == b'!'
        || byte == b'|'
        || byte == b'>'
        || byte == b'\''
        || byte == b'"'
        || byte == b'%'
        || byte == b'@'
        || byte == b'`'
}

fn is_gap(text: &[u8]) -> bool
    ensures { result ≡ spec.is_gap text.now }
{
    match text {
        [] => true,
        [first, ..] => *first == b' ' || *first == b'\n',
    }
}

/// Whether a plain scalar begins here.
pub fn begins_plain(flow: bool, text: &[u8]) -> bool
    ensures { result ≡ spec.begins_plain flow text.now }
{
    match text {
        [] => false,
        [first, rest @ ..] => {
            let first = *first;
            !(is_reserved(first)
                || is_white(first)
                || ((first == b'-' || first == b'?' || first == b':') && is_gap(rest))
                || ends_before(flow, false, first, rest))
        }
    }
}

// Whether the text ends, or a comment begins.
fn is_end_or_comment(text: &[u8]) -> bool
    ensures { result ≡ spec.is_end_or_comment text.now }
{
    match text {
        [] => true,
        [first, ..] => *first == b'#',
    }
}

fn part_in_flow<'a>(start: &'a [u8], text: &'a [u8]) -> Result<Option<&'a [u8]>, Halt>
    ensures exact { Reads (λ part. option_copied part) result (spec.part_in_flow start.now text.now) }
    ensures within { IfOk result (λ part. IfSome part (λ t. length t.now ≤ length text.now)) }
    ensures refused { IfErr result IsRefused }
{
    if is_marker(start) {
        Err(syntax(start))
    } else if plain_len(true, text) == 0 {
        Ok(None)
    } else {
        Ok(Some(text))
    }
}

fn part_of_block(text: &[u8]) -> Result<Option<&[u8]>, Halt>
    ensures exact { Reads (λ part. option_copied part) result (spec.part_of_block text.now) }
    ensures within { IfOk result (λ part. IfSome part (λ t. length t.now ≤ length text.now)) }
    ensures refused { IfErr result IsRefused }
{
    if is_colon(false, past_white(text.split_at(plain_len(false, text)).1)) {
        Err(syntax(text))
    } else {
        Ok(Some(text))
    }
}

fn part_in_block(least: usize, start: &[u8]) -> Result<Option<&[u8]>, Halt>
    ensures exact { Reads (λ part. option_copied part) result (spec.part_in_block least start.now) }
    ensures within { IfOk result (λ part. IfSome part (λ t. length t.now ≤ length start.now)) }
    ensures refused { IfErr result IsRefused }
{
    let text = past_spaces(start);
    if spaces(start) < least {
        Ok(None)
    } else if byte(text, 0) == b'\t' || is_marker(start) {
        Err(syntax(text))
    } else {
        part_of_block(text)
    }
}

// The scalar's part on the line at `start`, or nothing where the scalar ended before it.
#[tactic(auto, unfolding(crate::specs::Plain::goes_on))]
fn goes_on(flow: bool, least: usize, start: &[u8]) -> Result<Option<&[u8]>, Halt>
    ensures exact { Reads (λ part. option_copied part) result (spec.goes_on flow least start.now) }
    ensures within { IfOk result (λ part. IfSome part (λ t. length t.now ≤ length start.now)) }
    ensures refused { IfErr result IsRefused }
{
    let text = past_white(start);
    if is_end_or_comment(text) {
        Ok(None)
    } else if flow {
        part_in_flow(start, text)
    } else {
        part_in_block(least, start)
    }
}

fn with_part<'a>(
    flow: bool,
    found: &mut Vec<u8>,
    count: usize,
    text: &'a [u8],
) -> Result<&'a [u8], Halt>
    ensures exact { Reads (λ rest. (false, (found.new.items, rest.now))) result (Ok (spec.with_part flow found.old.items text.now count (Some text.now))) }
    ensures within { IfOk result (λ rest. length rest.now ≤ length text.now) }
{
    let (part, rest) = text.split_at(plain_len(flow, text));
    push_breaks(found, count)?;
    found.extend_from_slice(part)?;
    Ok(rest)
}

/// Adds what a line break becomes where this many blank lines follow it.
pub fn push_breaks(found: &mut Vec<u8>, count: usize) -> Result<(), Halt>
    ensures ok { IfOk result (λ _. found.new.items ≡ found.old.items ++ breaks count) }
    ensures err { IfErr result (λ halt. halt ≡ Halt.NoMemory) }
{
    if count == 0 {
        found.push(b' ')?;
        Ok(())
    } else {
        push_lines(found, count)
    }
}

/// Adds this many line feeds.
pub fn push_lines(found: &mut Vec<u8>, count: usize) -> Result<(), Halt>
    ensures ok { IfOk result (λ _. found.new.items ≡ found.old.items ++ replicate count line_feed) }
    ensures err { IfErr result (λ halt. halt ≡ Halt.NoMemory) }
{
    let mut left = count;
    while left > 0 {
        found.push(b'\n')?;
        left -= 1;
    }
    Ok(())
}

fn next_part<'a>(
    flow: bool,
    least: usize,
    found: &mut Vec<u8>,
    text: &'a [u8],
    below: &'a [u8],
) -> Result<(bool, &'a [u8]), Halt>
    requires { length below.now < length text.now }
    ensures exact { Reads (λ r. (r.0, (found.new.items, r.1.now))) result (spec.next_part flow least found.old.items text.now (blank_lines below.now)) }
    ensures within { IfOk result (λ r. length r.1.now ≤ length text.now) }
    ensures shorter { IfOk result (λ r. r.0 ≡ false → length r.1.now < length text.now) }
{
    let (count, start) = blank_lines(below);
    match goes_on(flow, least, start)? {
        None => Ok((true, text)),
        Some(part) => Ok((false, with_part(flow, found, count, part)?)),
    }
}

// One turn: the line break and the next line's part, or the end.
#[tactic(auto, unfolding(crate::specs::Plain::plain_turn))]
fn plain_turn<'a>(
    flow: bool,
    least: usize,
    found: &mut Vec<u8>,
    text: &'a [u8],
) -> Result<(bool, &'a [u8]), Halt>
    ensures exact { Reads (λ r. (r.0, (found.new.items, r.1.now))) result (spec.plain_turn flow least found.old.items text.now) }
    ensures within { IfOk result (λ r. length r.1.now ≤ length text.now) }
    ensures shorter { IfOk result (λ r. r.0 ≡ false → length r.1.now < length text.now) }
{
    match past_white(text) {
        [] => Ok((true, text)),
        behind @ [first, below @ ..] => {
            if *first == b'\n' {
                next_part(flow, least, found, text, below)
            } else if is_bad(*first) {
                Err(syntax(behind))
            } else {
                Ok((true, text))
            }
        }
    }
}

/// The plain scalar that begins here, its lines folded.
#[tactic(auto, unfolding(crate::specs::Plain::plain))]
pub fn plain_scalar(
    alloc: Global,
    flow: bool,
    least: usize,
    text: &[u8],
) -> Result<(Text, &[u8]), Halt>
    ensures exact { Reads (λ r. (r.0, r.1.now)) result (spec.plain flow least text.now) }
    ensures within { IfOk result (λ r. length r.1.now ≤ length text.now) }
{
    let (part, mut rest) = text.split_at(plain_len(flow, text));
    let mut found = Vec::from_slice(alloc, part)?;
    loop {
        let (last, left) = plain_turn(flow, least, &mut found, rest)?;
        rest = left;
        if last {
            return Ok((text_of(alloc, found.as_slice())?, rest));
        }
    }
}
