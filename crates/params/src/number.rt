// Numbers as values.
ghost use Rattle.std.specs.Prelude.{◌≡◌, ◌<◌, ◌^◌, Ok};
ghost use Rattle.dvc_base.specs.declared.node.Node.TheVariants as nd;
ghost use Rattle.yaml_scalars.specs.Kind.{scalar};
ghost use Rattle.yaml_scalars.specs.Number as numbers;
ghost use Rattle.params.specs.Number as spec;

use crate::digits::{number, past_sign, significant_part, split};
use itoa::Buffer;
use yaml_text::byte;

/// A number: its sign, its digits without zeros at either end, and its exponent with a sign.
#[derive(Clone, Copy)]
pub struct Number {
    pub below: bool,
    pub digits: u128,
    pub down: bool,
    pub exponent: u128,
}

/// The number that a text with a point or an exponent is.
pub fn decimal_number(text: &[u8]) -> Number
    ensures exact { scalar 0 text.now ≡ Ok (nd.Decimal text.now) → result ≡ spec.decimal_number text.now }
{
    let (mantissa, power) = split(past_sign(text), b'e', b'E');
    let (whole, fraction) = split(mantissa, b'.', b'.');
    let (front, ends) = significant_part(0, 0, whole);
    let (digits, zeros) = significant_part(front, ends, fraction);
    let up = number(past_sign(power));
    let (down, exponent) = exponent_of(byte(power, 0) == b'-', up, zeros, fraction.len());
    Number {
        below: byte(text, 0) == b'-',
        digits,
        down,
        exponent,
    }
}

// The exponent of a number whose digits had so many zeros at their end, and so long a fraction: whether it is below
// zero, and its size.
fn exponent_of(below: bool, exponent: u128, zeros: usize, fraction: usize) -> (bool, u128)
    ensures exact { exponent < 2 ^ 127 →
        (result.0 ≡ spec.is_down below exponent zeros fraction) × (result.1 ≡ numbers.canonical_exponent below exponent zeros fraction) }
{
    let (zeros, fraction) = (zeros as u128, fraction as u128);
    if below {
        let down = exponent.saturating_add(fraction);
        (zeros < down, distance(zeros, down))
    } else {
        let up = exponent.saturating_add(zeros);
        (up < fraction, distance(up, fraction))
    }
}

fn distance(a: u128, b: u128) -> u128
    ensures exact { result ≡ numbers.distance a b }
{
    if a < b { b - a } else { a - b }
}

/// A whole number.
pub fn whole_number(value: i128) -> Number
    ensures exact { result ≡ spec.whole_number value }
{
    let mut buffer = Buffer::new();
    let (digits, zeros) = significant_part(0, 0, buffer.format(value.unsigned_abs()).as_bytes());
    Number {
        below: value < 0,
        digits,
        down: false,
        exponent: zeros as u128,
    }
}

/// Whether two numbers are one.
pub fn is_one(a: Number, b: Number) -> bool
    ensures exact { result ≡ spec.is_one a b }
{
    if a.digits == 0 {
        return b.digits == 0;
    }
    a.digits == b.digits && a.below == b.below && a.down == b.down && a.exponent == b.exponent
}
