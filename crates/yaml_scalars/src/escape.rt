// Escapes of double quotes.
ghost use Rattle.std.specs.Prelude.{◌≡◌, ◌<◌, ◌≤◌, ◌^◌, length, option_map, IfSome};
ghost use Rattle.yaml_text.specs.Characters.{digit_zero, first_high_surrogate, first_low_surrogate};
ghost use Rattle.yaml_scalars.specs.Quoted as spec;

use yaml_text::{
    BEHIND_SURROGATES, CAPITAL_OFFSET, FIRST_HIGH_SURROGATE, FIRST_LOW_SURROGATE,
    FIRST_SUPPLEMENTARY, SMALL_OFFSET, byte, split_first,
};

fn digit_value(digit: u8) -> u32
    requires { (digit_zero ≤ digit) × (digit < 128) }
    ensures { result ≡ spec.digit_value digit }
{
    if digit <= b'9' {
        u32::from(digit - b'0')
    } else if digit <= b'F' {
        u32::from(digit.saturating_sub(CAPITAL_OFFSET))
    } else {
        u32::from(digit.saturating_sub(SMALL_OFFSET))
    }
}

fn hex_digit(text: &[u8]) -> Option<(u32, &[u8])>
    ensures value { option_map (λ r. (r.0, r.1.now)) result ≡ spec.hex_digit text.now }
    ensures small { IfSome result (λ r. r.0 < 16) }
    ensures within { IfSome result (λ r. length r.1.now ≤ length text.now) }
{
    match split_first(text) {
        None => None,
        Some((first, rest)) => {
            if first.is_ascii_hexdigit() {
                Some((digit_value(first), rest))
            } else {
                None
            }
        }
    }
}

#[tactic(auto, unfolding(crate::specs::Quoted::hex_2))]
fn hex_2(text: &[u8]) -> Option<(u32, &[u8])>
    ensures value { option_map (λ r. (r.0, r.1.now)) result ≡ spec.hex_2 text.now }
    ensures small { IfSome result (λ r. r.0 < 256) }
    ensures within { IfSome result (λ r. length r.1.now ≤ length text.now) }
{
    let (high, rest) = hex_digit(text)?;
    let (low, rest) = hex_digit(rest)?;
    Some((16 * high + low, rest))
}

#[tactic(auto, unfolding(crate::specs::Quoted::hex_4))]
fn hex_4(text: &[u8]) -> Option<(u32, &[u8])>
    ensures value { option_map (λ r. (r.0, r.1.now)) result ≡ spec.hex_4 text.now }
    ensures small { IfSome result (λ r. r.0 < 65536) }
    ensures within { IfSome result (λ r. length r.1.now ≤ length text.now) }
{
    let (high, rest) = hex_2(text)?;
    let (low, rest) = hex_2(rest)?;
    Some((256 * high + low, rest))
}

#[tactic(auto, unfolding(crate::specs::Quoted::hex_8))]
fn hex_8(text: &[u8]) -> Option<(u32, &[u8])>
    ensures value { option_map (λ r. (r.0, r.1.now)) result ≡ spec.hex_8 text.now }
    ensures within { IfSome result (λ r. length r.1.now ≤ length text.now) }
{
    let (high, rest) = hex_4(text)?;
    let (low, rest) = hex_4(rest)?;
    Some((65536 * high + low, rest))
}

fn character(code: u32, rest: &[u8]) -> Option<(char, &[u8])>
    ensures value { option_map (λ r. (r.0, r.1.now)) result ≡ spec.character (code, rest.now) }
    ensures within { IfSome result (λ r. length r.1.now ≤ length rest.now) }
{
    match char::from_u32(code) {
        Some(character) => Some((character, rest)),
        None => None,
    }
}

// The character that a high and a low surrogate stand for.
fn pair_character(high: u32, low: u32, rest: &[u8]) -> Option<(char, &[u8])>
    requires { (first_high_surrogate ≤ high) × (high < first_low_surrogate) }
    ensures value { option_map (λ r. (r.0, r.1.now)) result ≡ spec.pair_character high (low, rest.now) }
    ensures within { IfSome result (λ r. length r.1.now ≤ length rest.now) }
{
    if FIRST_LOW_SURROGATE <= low && low < BEHIND_SURROGATES {
        character(
            FIRST_SUPPLEMENTARY
                + (high - FIRST_HIGH_SURROGATE) * 1024
                + (low - FIRST_LOW_SURROGATE),
            rest,
        )
    } else {
        None
    }
}

// Behind a high surrogate: the escape of a low one, and the character that both stand for.
#[tactic(auto, unfolding(crate::specs::Quoted::surrogate_pair))]
fn surrogate_pair(high: u32, text: &[u8]) -> Option<(char, &[u8])>
    requires { (first_high_surrogate ≤ high) × (high < first_low_surrogate) }
    ensures value { option_map (λ r. (r.0, r.1.now)) result ≡ spec.surrogate_pair high text.now }
    ensures within { IfSome result (λ r. length r.1.now ≤ length text.now) }
{
    if byte(text, 0) == b'\\' && byte(text, 1) == b'u' {
        let (low, rest) = hex_4(text.split_at(2).1)?;
        pair_character(high, low, rest)
    } else {
        None
    }
}

// The character of a unit of UTF-16, which a number of four digits is. A high surrogate takes the low one behind it with it.
fn unit_character(code: u32, rest: &[u8]) -> Option<(char, &[u8])>
    ensures value { option_map (λ r. (r.0, r.1.now)) result ≡ spec.unit_character (code, rest.now) }
    ensures within { IfSome result (λ r. length r.1.now ≤ length rest.now) }
{
    if FIRST_HIGH_SURROGATE <= code && code < FIRST_LOW_SURROGATE {
        surrogate_pair(code, rest)
    } else {
        character(code, rest)
    }
}

// The character of an escape of one letter.
fn letter(byte: u8) -> Option<char>
    ensures { result ≡ spec.letter byte }
{
    match byte {
        b'0' => Some('\0'),
        b'a' => Some('\x07'),
        b'b' => Some('\x08'),
        b't' => Some('\t'),
        b'n' => Some('\n'),
        b'v' => Some('\x0b'),
        b'f' => Some('\x0c'),
        b'r' => Some('\r'),
        b'e' => Some('\x1b'),
        b'"' => Some('"'),
        b'/' => Some('/'),
        b'\\' => Some('\\'),
        b' ' => Some(' '),
        b'N' => Some('\u{85}'),
        b'_' => Some('\u{a0}'),
        b'L' => Some('\u{2028}'),
        b'P' => Some('\u{2029}'),
        _ => None,
    }
}

fn escape_by(first: u8, rest: &[u8]) -> Option<(char, &[u8])>
    ensures value { option_map (λ r. (r.0, r.1.now)) result ≡ spec.escape_by first rest.now }
    ensures within { IfSome result (λ r. length r.1.now ≤ length rest.now) }
{
    match first {
        b'x' => {
            let (code, rest) = hex_2(rest)?;
            character(code, rest)
        }
        b'u' => {
            let (code, rest) = hex_4(rest)?;
            unit_character(code, rest)
        }
        b'U' => {
            let (code, rest) = hex_8(rest)?;
            character(code, rest)
        }
        _ => Some((letter(first)?, rest)),
    }
}

/// Behind a backslash: the character that the escape stands for, and what is left behind it.
#[tactic(auto, unfolding(crate::specs::Quoted::escape))]
pub fn escape(text: &[u8]) -> Option<(char, &[u8])>
    ensures value { option_map (λ r. (r.0, r.1.now)) result ≡ spec.escape text.now }
    ensures within { IfSome result (λ r. length r.1.now ≤ length text.now) }
{
    match split_first(text) {
        None => None,
        Some((first, rest)) => escape_by(first, rest),
    }
}
