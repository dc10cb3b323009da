// A text as the rules read it.
ghost use Rattle.std.specs.Prelude.{◌≡◌, ◌<◌, ◌≤◌, ◌+◌, ◌^◌, ◌++◌, ◌∷◌, length, take, drop, count_by, IfOk, ◌==◌, false};
ghost use Rattle.yaml_text.specs.Characters.{line_feed, null};
ghost use Rattle.yaml_text.specs.Source as spec;

use crate::line::{byte, is_rest_empty, is_white};
use dvc_base::{NoMemory, Text};
use std::alloc::Global;

// The text behind a byte order mark, if it begins with one.
fn past_mark(text: &[u8]) -> &[u8]
    ensures { result.now ≡ spec.past_mark text.now }
{
    if byte(text, 0) == 0xef && byte(text, 1) == 0xbb && byte(text, 2) == 0xbf {
        text.split_at(3).1
    } else {
        text
    }
}

fn with_line_feeds(alloc: Global, mut text: &[u8]) -> Result<Vec<u8>, NoMemory>
    ensures { IfOk result (λ lines. lines.items ≡ spec.with_line_feeds text.entry.now) }
{
    let mut lines = Vec::with_capacity(alloc, text.len())?;
    while let [first, rest @ ..] = text {
        if !(*first == b'\r' && byte(rest, 0) == b'\n') {
            lines.push(*first)?;
        }
        text = rest;
    }
    Ok(lines)
}

// The bytes with a null, a character that no text may have, before those from `at` on.
fn with_null(alloc: Global, bytes: &[u8], at: usize) -> Result<Vec<u8>, NoMemory>
    requires { at ≤ length bytes.now }
    ensures { IfOk result (λ text. text.items ≡ take at bytes.now ++ null ∷ drop at bytes.now) }
{
    let (valid, other) = bytes.split_at(at);
    let mut text = Vec::from_slice(alloc, valid)?;
    text.push(b'\0')?;
    text.extend_from_slice(other)?;
    Ok(text)
}

/// The text, without a byte order mark, each line ended by a line feed; a character that no text may have stands before its
/// first byte that isn't UTF-8.
#[tactic(auto, using(crate::proofs::SourceLemmas::source_whole))]
pub fn source(alloc: Global, bytes: &[u8]) -> Result<Vec<u8>, NoMemory>
    ensures { IfOk result (λ text. text.items ≡ spec.source bytes.now) }
{
    match std::str::from_utf8(bytes) {
        Ok(_) => with_line_feeds(alloc, past_mark(bytes)),
        Err(fault) => {
            let marked = with_null(alloc, bytes, fault.valid_up_to())?;
            with_line_feeds(alloc, past_mark(marked.as_slice()))
        }
    }
}

fn is_all_blank(mut text: &[u8]) -> bool
    ensures { result ≡ spec.is_all_blank false text.entry.now }
{
    let mut inside = false;
    while let [first, rest @ ..] = text {
        if *first == b'\n' {
            inside = false;
        } else if *first == b'#' {
            inside = true;
        } else if !inside && !is_white(*first) {
            return false;
        }
        text = rest;
    }
    true
}

fn is_last_marker(text: &[u8]) -> bool
    ensures { result ≡ spec.is_last_marker text.now }
{
    match text {
        [b'.', b'.', b'.', rest @ ..] => is_rest_empty(rest) && is_all_blank(rest),
        _ => false,
    }
}

/// How long the text is before the last line that isn't blank, where that is `...`.
#[tactic(auto, unfolding(crate::specs::Source::body_len))]
pub fn body_len(text: &[u8]) -> usize
    ensures value { result ≡ spec.body_len text.now }
    ensures within { result ≤ length text.now }
{
    let mut begins = true;
    let mut at = 0;
    let mut rest = text;
    while let [first, behind @ ..] = rest {
        if begins && is_last_marker(rest) {
            return at;
        }
        begins = *first == b'\n';
        at += 1;
        rest = behind;
    }
    at
}

/// The line that has the first of the bytes that are left; for none of them the last line.
#[tactic(auto, unfolding(crate::specs::Source::line_of))]
pub fn line_of(text: &[u8], left: usize) -> u32
    requires { count_by (λ b. b == line_feed) text.now + 1 < 2 ^ 32 }
    ensures { result ≡ spec.line_of text.now left }
{
    let before = text.split_at(text.len().saturating_sub(left.max(1))).0;
    before.iter().filter(|byte| **byte == b'\n').count() as u32 + 1
}

/// The text that these bytes of a text are. They are cut out of a valid text at characters, so the
/// answer where they are not UTF-8 never comes.
pub fn text_of(alloc: Global, bytes: &[u8]) -> Result<Text, NoMemory>
    ensures same { IfOk result (λ text. text ≡ bytes.now) }
{
    match std::str::from_utf8(bytes) {
        Ok(text) => Text::of(alloc, text),
        Err(_) => Err(NoMemory),
    }
}
