// Characters and lines, each function over the text that is left.
ghost use Rattle.std.specs.Prelude.{◌≡◌, ◌≢◌, ◌<◌, ◌≤◌, ◌+◌, ◌&&◌, ◌==◌, true, false, [], ◌∷◌, MatchOption, length, drop, ◌-◌, slice_index, IfOk, IfErr};
ghost use Rattle.yaml_text.specs.Characters.{hash};
ghost use Rattle.yaml_text.specs.Outcome.{IsRefused, Reads, syntax};
ghost use Rattle.yaml_text.specs.Line as spec;

use crate::characters::DELETE;
use crate::refusal::{Halt, syntax};

/// A space or a tab.
pub fn is_white(byte: u8) -> bool
    ensures { result ≡ spec.is_white byte }
{
    byte == b' ' || byte == b'\t'
}

/// A character that no text may have.
pub fn is_bad(byte: u8) -> bool
    ensures { result ≡ spec.is_bad byte }
{
    (byte < b' ' && !(byte == b'\t' || byte == b'\n')) || byte == DELETE
}

/// The byte at a place, and 0 behind the end.
pub fn byte(text: &[u8], at: usize) -> u8
    ensures value { result ≡ slice_index text.now at }
    ensures within { result ≢ 0 → at < length text.now }
{
    if at < text.len() { text[at] } else { 0 }
}

/// The first byte and the text behind it.
#[inline]
pub fn split_first(text: &[u8]) -> Option<(u8, &[u8])>
    ensures { MatchOption result (text.now ≡ []) (λ r. text.now ≡ r.0 ∷ r.1.now) }
{
    match text {
        [] => None,
        [first, rest @ ..] => Some((*first, rest)),
    }
}

/// The text behind so many bytes.
pub fn behind(text: &[u8], count: usize) -> &[u8]
    ensures value { result.now ≡ drop count text.now }
    ensures len { length result.now ≡ length text.now - count }
{
    text.split_at(count.min(text.len())).1
}

/// How many spaces the text begins with.
pub fn spaces(text: &[u8]) -> usize
    ensures value { result ≡ spec.spaces text.now }
    ensures within { result ≤ length text.now }
{
    let mut count = 0;
    while count < text.len() && text[count] == b' ' {
        count += 1;
    }
    count
}

fn whites(text: &[u8]) -> usize
    ensures value { result ≡ spec.whites text.now }
    ensures within { result ≤ length text.now }
{
    let mut count = 0;
    while count < text.len() && is_white(text[count]) {
        count += 1;
    }
    count
}

/// The text behind the spaces at its start.
pub fn past_spaces(text: &[u8]) -> &[u8]
    ensures rest { result.now ≡ spec.past_spaces text.now }
    ensures within { length result.now ≤ length text.now }
{
    text.split_at(spaces(text)).1
}

/// The text behind the spaces and tabs at its start.
pub fn past_white(text: &[u8]) -> &[u8]
    ensures rest { result.now ≡ spec.past_white text.now }
    ensures within { length result.now ≤ length text.now }
{
    text.split_at(whites(text)).1
}

fn is_white_end(mut text: &[u8]) -> bool
    ensures { result ≡ spec.is_white_end text.entry.now }
{
    while let [first, rest @ ..] = text {
        if *first == b'\n' || *first == b'#' {
            return true;
        }
        if !is_white(*first) {
            return false;
        }
        text = rest;
    }
    true
}

/// Whether nothing but white space and a comment follows on the line, right behind an indicator.
pub fn is_rest_empty(text: &[u8]) -> bool
    ensures { result ≡ spec.is_rest_empty text.now }
{
    match text {
        [] => true,
        [first, rest @ ..] => *first == b'\n' || (is_white(*first) && is_white_end(rest)),
    }
}

fn comment(mut text: &[u8]) -> Result<&[u8], Halt>
    ensures exact { Reads (λ rest. rest.now) result (spec.comment text.entry.now) }
    ensures within { IfOk result (λ rest. length rest.now ≤ length text.entry.now) }
    ensures refused { IfErr result IsRefused }
{
    while let [first, rest @ ..] = text {
        if *first == b'\n' {
            return Ok(rest);
        }
        if is_bad(*first) {
            return Err(syntax(text));
        }
        text = rest;
    }
    Ok(text)
}

/// The text behind the line, on which only white space and a comment may be left.
pub fn rest_of_line(mut may: bool, mut text: &[u8]) -> Result<&[u8], Halt>
    ensures exact { Reads (λ rest. rest.now) result (spec.rest_of_line may text.entry.now) }
    ensures within { IfOk result (λ rest. length rest.now ≤ length text.entry.now) }
    ensures refused { IfErr result IsRefused }
{
    while let [first, rest @ ..] = text {
        if *first == b'\n' {
            return Ok(rest);
        }
        if !is_white(*first) {
            return behind_white(may, *first, text, rest);
        }
        may = true;
        text = rest;
    }
    Ok(text)
}

fn behind_white<'a>(may: bool, first: u8, text: &'a [u8], rest: &'a [u8]) -> Result<&'a [u8], Halt>
    requires { length rest.now < length text.now }
    ensures comment { may ≡ true → first ≡ hash → Reads (λ rest. rest.now) result (spec.comment rest.now) }
    ensures other { (may && first == hash) ≡ false → Reads (λ rest. rest.now) result (syntax text.now) }
    ensures within { IfOk result (λ left. length left.now ≤ length rest.now) }
    ensures refused { IfErr result IsRefused }
{
    if may && first == b'#' {
        comment(rest)
    } else {
        Err(syntax(text))
    }
}

/// From the start of a line on: the text from the first line on that is neither blank nor a comment.
pub fn first_line(mut text: &[u8]) -> Result<&[u8], Halt>
    ensures exact { Reads (λ rest. rest.now) result (spec.first_line text.entry.now) }
    ensures within { IfOk result (λ rest. length rest.now ≤ length text.entry.now) }
    ensures refused { IfErr result IsRefused }
{
    let mut start = text;
    let mut inside = false;
    while let [first, rest @ ..] = text {
        if *first == b'\n' {
            start = rest;
            inside = false;
        } else if inside {
            if is_bad(*first) {
                return Err(syntax(text));
            }
        } else if *first == b'#' {
            inside = true;
        } else if !is_white(*first) {
            return Ok(start);
        }
        text = rest;
    }
    Ok(text)
}

/// Whether the text begins with a line `---`.
pub fn is_marker(text: &[u8]) -> bool
    ensures { result ≡ spec.is_marker text.now }
{
    match text {
        [b'-', b'-', b'-', rest @ ..] => is_rest_empty(rest),
        _ => false,
    }
}

/// From the start of a line on: the next line that may begin a node of block style.
#[tactic(auto, unfolding(crate::specs::Line::next_line))]
pub fn next_line(text: &[u8]) -> Result<&[u8], Halt>
    ensures exact { Reads (λ rest. rest.now) result (spec.next_line text.now) }
    ensures within { IfOk result (λ rest. length rest.now ≤ length text.now) }
    ensures refused { IfErr result IsRefused }
{
    let start = first_line(text)?;
    check_line(start)
}

fn check_line(start: &[u8]) -> Result<&[u8], Halt>
    ensures exact { Reads (λ rest. rest.now) result (spec.check_line start.now) }
    ensures within { IfOk result (λ rest. length rest.now ≤ length start.now) }
    ensures refused { IfErr result IsRefused }
{
    let inner = past_spaces(start);
    if byte(inner, 0) == b'\t' || is_marker(start) {
        Err(syntax(inner))
    } else {
        Ok(start)
    }
}

/// From the start of a line on: how many blank lines there are, and the text behind them.
#[tactic(auto, unfolding(crate::specs::Line::blank_lines))]
pub fn blank_lines(mut text: &[u8]) -> (usize, &[u8])
    ensures value { (result.0, result.1.now) ≡ spec.blank_lines text.entry.now }
    ensures within { result.0 + length result.1.now ≤ length text.entry.now }
{
    let mut start = text;
    let mut count = 0;
    while let [first, rest @ ..] = text {
        if *first == b'\n' {
            start = rest;
            count += 1;
        } else if !is_white(*first) {
            return (count, start);
        }
        text = rest;
    }
    (count, text)
}
