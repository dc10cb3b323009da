// Numbers of decimal digits, each cut at 2^128 - 1.
ghost use Rattle.std.specs.Prelude.{◌≡◌, ◌==◌, ◌||◌, ◌<◌, ◌≤◌, ◌+◌, ◌-◌, ◌*◌, ◌^◌, min, length};
ghost use Rattle.std.specs.Char.{is_ascii_digit};
ghost use Rattle.std.specs.List.{after_first, before_first, fold, list_all};
ghost use Rattle.yaml_scalars.specs.Number as numbers;
ghost use Rattle.yaml_scalars.specs.Quoted.{digit_value};
ghost use Rattle.yaml_scalars.specs.NumeralParts.{IsSameToLimit};

use yaml_text::{behind, byte, split_first};

/// Whether the text is digits alone, one at least.
pub fn are_digits(text: &[u8]) -> bool
    ensures exact { result ≡ numbers.are_all is_ascii_digit text.now }
{
    text.len() > 0 && has_digits_alone(text)
}

fn has_digits_alone(text: &[u8]) -> bool
    ensures exact { result ≡ list_all is_ascii_digit text.now }
{
    text.iter().all(|digit| digit.is_ascii_digit())
}

// What a digit stands for, and what other bytes do in a definition that asks nothing of them.
fn value_of(digit: u8) -> u128
    ensures exact { result ≡ digit_value digit }
{
    let digit = u128::from(digit);
    if digit <= 57 {
        digit.saturating_sub(48)
    } else if digit <= 70 {
        digit.saturating_sub(55)
    } else {
        digit.saturating_sub(87)
    }
}

/// What the digits stand for, and 2^128 - 1 where it is more.
pub fn number(digits: &[u8]) -> u128
    ensures exact { result ≡ min (numbers.number 10 digits.now) (2 ^ 128 - 1) }
{
    let mut value = 0u128;
    let mut rest = digits;
    while let Some((first, behind)) = split_first(rest) {
        value = value.saturating_mul(10).saturating_add(value_of(first));
        rest = behind;
    }
    value
}

/// The text behind its sign, if it has one.
pub fn past_sign(text: &[u8]) -> &[u8]
    ensures exact { result.now ≡ numbers.past_sign text.now }
    ensures within { length result.now ≤ length text.now }
{
    if byte(text, 0) == b'+' || byte(text, 0) == b'-' {
        behind(text, 1)
    } else {
        text
    }
}

/// The text before the first of two bytes, and the text behind that.
pub fn split(text: &[u8], one: u8, other: u8) -> (&[u8], &[u8])
    ensures before { result.0.now ≡ before_first (λ b. (b == one) || (b == other)) text.now }
    ensures behind { result.1.now ≡ after_first (λ b. (b == one) || (b == other)) text.now }
    ensures within { length result.0.now + length result.1.now ≤ length text.now }
{
    let mut len = 0;
    while len < text.len() && text[len] != one && text[len] != other {
        len += 1;
    }
    let (before, rest) = text.split_at(len);
    (before, behind(rest, 1))
}

// The number with so many zeros at its end, and 2^128 - 1 where it is more.
fn with_zeros(number: u128, count: usize) -> u128
    ensures exact { result ≡ min (number * 10 ^ count) (2 ^ 128 - 1) }
{
    let mut value = number;
    let mut left = count;
    while left > 0 {
        value = value.saturating_mul(10);
        left -= 1;
    }
    value
}

// The number with one more digit, and the count of zeros at its end, which it is taken without.
fn with_digit(number: u128, zeros: usize, digit: u8) -> (u128, usize)
    requires { zeros + 1 < 2 ^ 64 }
    ensures exact { IsSameToLimit result (numbers.with_digit (number, zeros) digit) }
    ensures within { result.1 ≤ zeros + 1 }
{
    if digit == b'0' {
        (number, zeros + 1)
    } else {
        (
            with_zeros(number, zeros + 1).saturating_add(value_of(digit)),
            0,
        )
    }
}

/// The number with all these digits and the count of zeros at its end, which it is taken without.
pub fn significant_part(number: u128, zeros: usize, digits: &[u8]) -> (u128, usize)
    requires { zeros + length digits.now < 2 ^ 64 }
    ensures exact { IsSameToLimit result (fold numbers.with_digit (number, zeros) digits.now) }
    ensures within { result.1 ≤ zeros + length digits.now }
{
    let mut value = number;
    let mut count = zeros;
    let mut rest = digits;
    while let Some((first, behind)) = split_first(rest) {
        let (more, ends) = with_digit(value, count, first);
        value = more;
        count = ends;
        rest = behind;
    }
    (value, count)
}
