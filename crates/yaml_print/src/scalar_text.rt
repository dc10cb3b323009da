// Texts as scalars on one line.
ghost use Rattle.std.specs.Prelude.{◌≡◌, ◌<◌, ◌++◌, ◌∷◌, [], IfOk, OnOk};
ghost use Rattle.std.specs.Char.{encode_utf8};
ghost use Rattle.std.specs.List.{list_any};
ghost use Rattle.std.specs.Str.{IsUtf8, chars};
ghost use Rattle.yaml_text.specs.Characters.{backslash};
ghost use Rattle.yaml_scalars.specs.Kind as kind;
ghost use Rattle.yaml_print.specs.ScalarText as spec;

use dvc_base::{NoMemory, Node, Text};
use std::alloc::Global;
use yaml_scalars::{begins_plain, plain_len, scalar};
use yaml_text::{Halt, SMALL_OFFSET};

// Whether only double quotes can hold the character, as an escape.
fn needs_escape(character: char) -> bool
    ensures { result ≡ spec.needs_escape character }
{
    character < ' '
        || character == '\u{7f}'
        || character == '\u{85}'
        || character == '\u{2028}'
        || character == '\u{2029}'
        || character == '\u{feff}'
}

fn has_escapes(text: &str) -> bool
    ensures { result ≡ list_any spec.needs_escape (chars text.now) }
{
    text.chars().any(needs_escape)
}

fn hex_digit(digit: u8) -> u8
    requires { digit < 16 }
    ensures { result ≡ spec.hex_digit digit }
{
    if digit < 10 {
        b'0' + digit
    } else {
        SMALL_OFFSET + digit
    }
}

fn push_hex(out: &mut Vec<u8>, byte: u8) -> Result<(), NoMemory>
    ensures { OnOk result (out.new.items ≡ out.old.items ++ spec.hex_2 byte) }
{
    out.push(hex_digit(byte / 16))?;
    out.push(hex_digit(byte % 16))?;
    Ok(())
}

// The number of a character, as it stands behind a backslash.
fn push_number(out: &mut Vec<u8>, character: char) -> Result<(), NoMemory>
    requires { character < 65536 }
    ensures { OnOk result (out.new.items ≡ out.old.items ++ spec.by_number character) }
{
    let number = character as u32;
    if number < 128 {
        out.push(b'x')?;
        push_hex(out, number as u8)
    } else {
        out.push(b'u')?;
        push_hex(out, (number / 256) as u8)?;
        push_hex(out, (number % 256) as u8)
    }
}

fn push_character(out: &mut Vec<u8>, character: char) -> Result<(), NoMemory>
    ensures { OnOk result (out.new.items ≡ out.old.items ++ encode_utf8 character) }
{
    let mut bytes = [0; 4];
    out.extend_from_slice(character.encode_utf8(&mut bytes).as_bytes())?;
    Ok(())
}

fn push_escape(out: &mut Vec<u8>, letter: u8) -> Result<(), NoMemory>
    ensures { OnOk result (out.new.items ≡ out.old.items ++ backslash ∷ letter ∷ []) }
{
    out.push(b'\\')?;
    out.push(letter)?;
    Ok(())
}

#[tactic(auto, unfolding(crate::specs::ScalarText::in_double))]
fn push_in_double(out: &mut Vec<u8>, character: char) -> Result<(), NoMemory>
    ensures { OnOk result (out.new.items ≡ out.old.items ++ spec.in_double character) }
{
    if character == '"' || character == '\\' {
        push_escape(out, character as u8)
    } else if character == '\n' {
        push_escape(out, b'n')
    } else if character == '\t' {
        push_escape(out, b't')
    } else if needs_escape(character) {
        out.push(b'\\')?;
        push_number(out, character)
    } else {
        push_character(out, character)
    }
}

#[tactic(auto, unfolding(crate::specs::ScalarText::in_single))]
fn push_in_single(out: &mut Vec<u8>, character: char) -> Result<(), NoMemory>
    ensures { OnOk result (out.new.items ≡ out.old.items ++ spec.in_single character) }
{
    if character == '\'' {
        out.extend_from_slice(b"''")?;
        Ok(())
    } else {
        push_character(out, character)
    }
}

fn push_between(out: &mut Vec<u8>, quote: u8, character: char) -> Result<(), NoMemory>
    ensures { OnOk result (out.new.items ≡ out.old.items ++ spec.between quote character) }
{
    if quote == b'"' {
        push_in_double(out, character)
    } else {
        push_in_single(out, character)
    }
}

// A text in quotes of this kind.
#[tactic(auto, unfolding(crate::specs::ScalarText::in_quotes))]
fn push_quoted(out: &mut Vec<u8>, quote: u8, text: &str) -> Result<(), NoMemory>
    ensures { OnOk result (out.new.items ≡ out.old.items ++ spec.in_quotes quote text.now) }
{
    out.push(quote)?;
    for character in text.chars() {
        push_between(out, quote, character)?;
    }
    out.push(quote)?;
    Ok(())
}

// Whether a plain scalar of these characters stands for a text.
fn is_text(alloc: Global, text: &str) -> Result<bool, NoMemory>
    ensures { IfOk result (λ is. is ≡ spec.is_text (kind.scalar 0 text.now)) }
{
    match scalar(0, Text::of(alloc, text)?) {
        Ok(node) => Ok(matches!(node, Node::Text(_))),
        Err(Halt::NoMemory) => Err(NoMemory),
        Err(Halt::Refused(_)) => Ok(false),
    }
}

// Whether the text begins as a mark between documents does.
fn begins_as_marker(text: &[u8]) -> bool
    ensures { result ≡ spec.begins_as_marker text.now }
{
    let begin = text.split_at(text.len().min(3)).0;
    begin == b"---".as_slice() || begin == b"...".as_slice()
}

fn is_one_line(text: &[u8]) -> bool
    ensures { result ≡ spec.is_one_line text.now }
{
    begins_plain(false, text) && plain_len(false, text) == text.len() && !begins_as_marker(text)
}

// Whether a plain scalar of these characters stands for just this text, as a key too.
#[tactic(auto, unfolding(crate::specs::ScalarText::is_plain))]
fn is_plain(alloc: Global, text: &str) -> Result<bool, NoMemory>
    ensures { IfOk result (λ is. is ≡ spec.is_plain text.now) }
{
    let bytes = text.as_bytes();
    if is_one_line(bytes) && bytes != b"<<".as_slice() {
        is_text(alloc, text)
    } else {
        Ok(false)
    }
}

/// Writes a text as a scalar.
#[tactic(auto, unfolding(crate::specs::ScalarText::scalar_text))]
pub fn write_text(alloc: Global, out: &mut Vec<u8>, text: &str) -> Result<(), NoMemory>
    ensures exact { OnOk result (out.new.items ≡ out.old.items ++ spec.scalar_text text.now) }
    ensures spelt { IsUtf8 text.now }
{
    if has_escapes(text) {
        push_quoted(out, b'"', text)
    } else if is_plain(alloc, text)? {
        out.extend_from_slice(text.as_bytes())?;
        Ok(())
    } else {
        push_quoted(out, b'\'', text)
    }
}
