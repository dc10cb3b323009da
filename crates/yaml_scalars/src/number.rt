// Numbers as they are written.
ghost use Rattle.std.specs.Prelude.{◌≡◌, ◌<◌, ◌≤◌, ◌+◌, ◌-◌, ◌*◌, ◌^◌, ◌++◌, min, nat_le, length, option_map, IfSome};
ghost use Rattle.std.specs.Char.{is_ascii_digit};
ghost use Rattle.std.specs.List.{fold, list_all};
ghost use Rattle.yaml_scalars.specs.Number as spec;
ghost use Rattle.yaml_scalars.specs.Quoted.{digit_value};
ghost use Rattle.yaml_scalars.specs.NumeralParts.{as_parts, IsSameToLimit};

use yaml_text::{CAPITAL_OFFSET, SMALL_OFFSET, behind, byte, split_first};

// 10 ^ 30, the first exponent that is too wide.
const WIDE_EXPONENT: u128 = 1_000_000_000_000_000_000_000_000_000_000;

// 2 ^ 127, the greatest number without zeros at its ends.
const WIDEST: u128 = 1 << 127;

/// The parts of a number: the digits before and behind the point, and those of the exponent.
#[derive(Drop)]
pub struct Numeral<'a> {
    pub whole: &'a [u8],
    pub fraction: &'a [u8],
    /// Whether the exponent has a `-`.
    pub below: bool,
    pub exponent: &'a [u8],
}

fn value_of(digit: u8) -> u128
    ensures { result ≡ digit_value digit }
{
    if digit <= b'9' {
        u128::from(digit.saturating_sub(b'0'))
    } else if digit <= b'F' {
        u128::from(digit.saturating_sub(CAPITAL_OFFSET))
    } else {
        u128::from(digit.saturating_sub(SMALL_OFFSET))
    }
}

/// What the digits stand for, and 2^128 - 1 where it is more.
pub fn number(base: u8, digits: &[u8]) -> u128
    requires { 1 ≤ base }
    ensures { result ≡ min (spec.number base digits.now) (2 ^ 128 - 1) }
{
    let mut value = 0u128;
    let mut rest = digits;
    while let Some((first, behind)) = split_first(rest) {
        value = value
            .saturating_mul(u128::from(base))
            .saturating_add(value_of(first));
        rest = behind;
    }
    value
}

/// The text behind its sign, if it has one.
pub fn past_sign(text: &[u8]) -> &[u8]
    ensures value { result.now ≡ spec.past_sign text.now }
    ensures within { length result.now ≤ length text.now }
{
    if byte(text, 0) == b'+' || byte(text, 0) == b'-' {
        behind(text, 1)
    } else {
        text
    }
}

fn digits_len(text: &[u8]) -> usize
    ensures value { result ≡ spec.digits_len text.now }
    ensures within { result ≤ length text.now }
{
    let mut len = 0;
    while len < text.len() && text[len].is_ascii_digit() {
        len += 1;
    }
    len
}

/// Whether the text is digits alone, one at least.
pub fn are_digits(text: &[u8]) -> bool
    ensures { result ≡ spec.are_all is_ascii_digit text.now }
{
    text.len() > 0 && has_digits_alone(text)
}

fn has_digits_alone(text: &[u8]) -> bool
    ensures { result ≡ list_all is_ascii_digit text.now }
{
    text.iter().all(|digit| digit.is_ascii_digit())
}

fn exponent_of<'a>(whole: &'a [u8], fraction: &'a [u8], text: &'a [u8]) -> Option<Numeral<'a>>
    ensures value { option_map as_parts result ≡ spec.exponent_of whole.now fraction.now text.now }
    ensures same { IfSome result (λ n. (n.whole.now ≡ whole.now) × (n.fraction.now ≡ fraction.now)) }
{
    match split_first(text) {
        None => Some(Numeral {
            whole,
            fraction,
            below: false,
            exponent: text,
        }),
        Some((first, rest)) => {
            if (first == b'e' || first == b'E') && are_digits(past_sign(rest)) {
                Some(Numeral {
                    whole,
                    fraction,
                    below: byte(rest, 0) == b'-',
                    exponent: past_sign(rest),
                })
            } else {
                None
            }
        }
    }
}

fn fraction_of<'a>(whole: &'a [u8], text: &'a [u8]) -> Option<Numeral<'a>>
    ensures value { option_map as_parts result ≡ spec.fraction_of whole.now text.now }
    ensures within { IfSome result (λ n. length n.whole.now + length n.fraction.now ≤ length whole.now + length text.now) }
{
    let len = digits_len(text);
    if len == 0 {
        return None;
    }
    let (fraction, rest) = text.split_at(len);
    exponent_of(whole, fraction, rest)
}

fn behind_whole<'a>(whole: &'a [u8], text: &'a [u8]) -> Option<Numeral<'a>>
    ensures value { option_map as_parts result ≡ spec.behind_whole whole.now text.now }
    ensures within { IfSome result (λ n. length n.whole.now + length n.fraction.now ≤ length whole.now + length text.now) }
{
    if byte(text, 0) == b'.' {
        fraction_of(whole, behind(text, 1))
    } else if whole.len() == 0 {
        None
    } else {
        exponent_of(whole, &[], text)
    }
}

/// The parts of a number that may have a point or an exponent.
#[tactic(auto, unfolding(crate::specs::Number::parts_of))]
pub fn parts_of(text: &[u8]) -> Option<Numeral<'_>>
    ensures value { option_map as_parts result ≡ spec.parts_of text.now }
    ensures within { IfSome result (λ n. length n.whole.now + length n.fraction.now ≤ length text.now) }
{
    let digits = past_sign(text);
    let (whole, rest) = digits.split_at(digits_len(digits));
    behind_whole(whole, rest)
}

// The number with so many zeros at its end, and 2^128 - 1 where it is more.
fn with_zeros(number: u128, count: usize) -> u128
    ensures { result ≡ min (number * 10 ^ count) (2 ^ 128 - 1) }
{
    let mut value = number;
    let mut left = count;
    while left > 0 {
        value = value.saturating_mul(10);
        left -= 1;
    }
    value
}

// The number with one more digit, and the count of zeros at its end, which it is taken without.
fn with_digit(number: u128, zeros: usize, digit: u8) -> (u128, usize)
    requires { zeros + 1 < 2 ^ 64 }
    ensures value { IsSameToLimit result (spec.with_digit (number, zeros) digit) }
    ensures within { result.1 ≤ zeros + 1 }
{
    if digit == b'0' {
        (number, zeros + 1)
    } else {
        (
            with_zeros(number, zeros + 1).saturating_add(value_of(digit)),
            0,
        )
    }
}

// The number with all these digits.
fn significant_part(number: u128, zeros: usize, digits: &[u8]) -> (u128, usize)
    requires { zeros + length digits.now < 2 ^ 64 }
    ensures value { IsSameToLimit result (fold spec.with_digit (number, zeros) digits.now) }
    ensures within { result.1 ≤ zeros + length digits.now }
{
    let mut value = number;
    let mut count = zeros;
    let mut rest = digits;
    while let Some((first, behind)) = split_first(rest) {
        let (more, ends) = with_digit(value, count, first);
        value = more;
        count = ends;
        rest = behind;
    }
    (value, count)
}

fn distance(a: u128, b: u128) -> u128
    ensures { result ≡ spec.distance a b }
{
    if a < b { b - a } else { a - b }
}

fn is_wide_exponent(below: bool, exponent: &[u8], zeros: usize, fraction: usize) -> bool
    ensures { result ≡ nat_le (10 ^ 30) (spec.canonical_exponent below (spec.number 10 exponent.now) zeros fraction) }
{
    let exponent = number(10, exponent);
    let (zeros, fraction) = (zeros as u128, fraction as u128);
    if below {
        WIDE_EXPONENT <= distance(zeros, exponent.saturating_add(fraction))
    } else {
        WIDE_EXPONENT <= distance(exponent.saturating_add(zeros), fraction)
    }
}

fn is_wide_number(number: u128, zeros: usize, numeral: &Numeral<'_>) -> bool
    ensures { result ≡ spec.is_wide_number (number, zeros) (as_parts numeral.now) }
{
    if number > WIDEST || numeral.exponent.len() > 30 {
        return true;
    }
    number > 0
        && is_wide_exponent(
            numeral.below,
            numeral.exponent,
            zeros,
            numeral.fraction.len(),
        )
}

/// Whether the number needs more than 128 bits, or its exponent more than 30 digits.
#[tactic(auto, unfolding(crate::specs::Number::is_wide))]
pub fn is_wide(numeral: &Numeral<'_>) -> bool
    requires { length numeral.now.whole.now + length numeral.now.fraction.now < 2 ^ 64 }
    ensures { result ≡ spec.is_wide (as_parts numeral.now) }
{
    let (number, zeros) = significant_part(0, 0, numeral.whole);
    let (number, zeros) = significant_part(number, zeros, numeral.fraction);
    is_wide_number(number, zeros, numeral)
}
