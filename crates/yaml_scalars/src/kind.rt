// What a plain scalar stands for.
ghost use Rattle.std.specs.Prelude.{◌≡◌, ◌≤◌, true, false, length, drop, bytes_eq, option_map, IfErr};
ghost use Rattle.std.specs.Char.{is_ascii_hexdigit};
ghost use Rattle.std.specs.List.{list_all};
ghost use Rattle.yaml_text.specs.Outcome.{IsRefused, Reads};
ghost use Rattle.yaml_scalars.specs.Kind as spec;
ghost use Rattle.yaml_scalars.specs.Number as numbers;

use crate::number::{are_digits, is_wide, number, parts_of, past_sign};
use dvc_base::{Node, Text};
use yaml_text::{Halt, Refusal, behind, byte};

fn is_word(text: &[u8], word: &[u8]) -> bool
    ensures { result ≡ bytes_eq text.now word.now }
{
    text == word
}

fn is_null(text: &[u8]) -> bool
    ensures { result ≡ spec.is_null text.now }
{
    text.len() == 0
        || is_word(text, b"~")
        || is_word(text, b"null")
        || is_word(text, b"Null")
        || is_word(text, b"NULL")
}

fn is_true(text: &[u8]) -> bool
    ensures { result ≡ spec.is_true text.now }
{
    is_word(text, b"true") || is_word(text, b"True") || is_word(text, b"TRUE")
}

fn is_false(text: &[u8]) -> bool
    ensures { result ≡ spec.is_false text.now }
{
    is_word(text, b"false") || is_word(text, b"False") || is_word(text, b"FALSE")
}

fn is_based(sign: u8, text: &[u8]) -> bool
    ensures { result ≡ spec.is_based sign text.now }
{
    byte(text, 0) == b'0' && byte(text, 1) == sign
}

fn has_octal_alone(text: &[u8]) -> bool
    ensures { result ≡ list_all numbers.is_octal_digit text.now }
{
    text.iter().all(|digit| b'0' <= *digit && *digit <= b'7')
}

fn is_octal(text: &[u8]) -> bool
    ensures { result ≡ spec.is_octal text.now }
{
    let digits = behind(text, 2);
    is_based(b'o', text) && digits.len() > 0 && has_octal_alone(digits)
}

fn has_hex_alone(text: &[u8]) -> bool
    ensures { result ≡ list_all is_ascii_hexdigit text.now }
{
    text.iter().all(|digit| digit.is_ascii_hexdigit())
}

fn is_hexadecimal(text: &[u8]) -> bool
    ensures { result ≡ spec.is_hexadecimal text.now }
{
    let digits = behind(text, 2);
    is_based(b'x', text) && digits.len() > 0 && has_hex_alone(digits)
}

fn fits_whole(below: bool, size: u128) -> bool
    ensures { result ≡ spec.fits_whole below size }
{
    if below {
        size <= 1 << 127
    } else {
        size < 1 << 127
    }
}

// A size with its sign.
fn with_sign(below: bool, size: u128) -> i128
    requires { spec.fits_whole below size ≡ true }
    ensures { result ≡ spec.with_sign below size }
{
    if !below {
        size as i128
    } else if size == 0 {
        0
    } else {
        -((size - 1) as i128) - 1
    }
}

fn whole(left: usize, text: Text, below: bool, size: u128) -> Result<Node, Halt>
    ensures exact { Reads (λ node. node) result (spec.whole left text below size) }
    ensures refused { IfErr result IsRefused }
{
    if fits_whole(below, size) {
        Ok(Node::Whole {
            value: with_sign(below, size),
            text,
        })
    } else {
        Err(Halt::Refused(Refusal::TooWide(left)))
    }
}

// A whole number of digits alone, whose size stands for itself only up to 2^128 - 1.
#[tactic(auto, using(crate::proofs::KindLemmas::whole_cut))]
fn decimal_whole(left: usize, text: Text) -> Result<Node, Halt>
    ensures exact { Reads (λ node. node) result (spec.whole left text (numbers.is_negative text) (numbers.number 10 (numbers.past_sign text))) }
    ensures refused { IfErr result IsRefused }
{
    let bytes = text.as_str().as_bytes();
    let size = number(10, past_sign(bytes));
    let below = byte(bytes, 0) == b'-';
    whole(left, text, below, size)
}

#[tactic(auto, using(crate::proofs::KindLemmas::whole_cut))]
fn based_whole(left: usize, text: Text, base: u8) -> Result<Node, Halt>
    requires { 1 ≤ base }
    ensures exact { Reads (λ node. node) result (spec.whole left text false (numbers.number base (drop 2 text))) }
    ensures refused { IfErr result IsRefused }
{
    let size = number(base, behind(text.as_str().as_bytes(), 2));
    whole(left, text, false, size)
}

fn decimal(left: usize, text: Text) -> Result<Node, Halt>
    ensures exact { Reads (λ node. node) result (spec.decimal left text (option_map numbers.is_wide (numbers.parts_of text))) }
    ensures refused { IfErr result IsRefused }
{
    // Whether it is too wide, where it is a number with a point or an exponent.
    let wide = parts_of(text.as_str().as_bytes()).map(|numeral| is_wide(&numeral));
    match wide {
        None => Ok(Node::Text(text)),
        Some(true) => Err(Halt::Refused(Refusal::TooWide(left))),
        Some(false) => Ok(Node::Decimal { text }),
    }
}

fn numeral(left: usize, text: Text) -> Result<Node, Halt>
    ensures exact { Reads (λ node. node) result (spec.numeral left text) }
    ensures refused { IfErr result IsRefused }
{
    let bytes = text.as_str().as_bytes();
    if are_digits(past_sign(bytes)) {
        decimal_whole(left, text)
    } else if is_octal(bytes) {
        based_whole(left, text, 8)
    } else if is_hexadecimal(bytes) {
        based_whole(left, text, 16)
    } else {
        decimal(left, text)
    }
}

/// What a plain scalar of this text stands for. A number that is too wide is refused with `left` bytes left.
#[tactic(auto, unfolding(crate::specs::Kind::scalar))]
pub fn scalar(left: usize, text: Text) -> Result<Node, Halt>
    ensures exact { Reads (λ node. node) result (spec.scalar left text) }
    ensures refused { IfErr result IsRefused }
{
    let bytes = text.as_str().as_bytes();
    if is_null(bytes) {
        Ok(Node::Null)
    } else if is_true(bytes) {
        Ok(Node::Bool(true))
    } else if is_false(bytes) {
        Ok(Node::Bool(false))
    } else {
        numeral(left, text)
    }
}
