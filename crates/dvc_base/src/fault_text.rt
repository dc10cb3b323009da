// The text of a fault, in parts that take no memory.
ghost use Rattle.std.specs.Prelude.{◌≡◌};
ghost use Rattle.dvc_base.specs.FaultParts.{part_text};

use crate::Text;

/// A part of a fault's text.
#[derive(Clone, Copy)]
pub enum Part<'a> {
    Nothing,
    Bytes(&'a [u8]),
    /// A number, in decimal digits.
    Number(u64),
    /// A code, in decimal digits with its sign.
    Code(i32),
    /// Names, each below the next.
    Walk(&'a [Text]),
}

impl<'a> Part<'a> {
    pub(crate) fn of(text: &'a str) -> Part<'a>
        ensures same { part_text result ≡ text.now }
    {
        Part::Bytes(text.as_bytes())
    }
}

/// The parts of a fault's text, one after another.
#[derive(Clone, Copy)]
pub struct FaultText<'a> {
    pub parts: [Part<'a>; 7],
}
