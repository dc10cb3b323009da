// Characters and numbers of Unicode that have no literal.

/// The last character of ASCII, which no text may have.
pub const DELETE: u8 = 127;

/// What is taken from the code of a hexadecimal digit `A` to `F` for its value.
pub const CAPITAL_OFFSET: u8 = 55;

/// What is taken from the code of a hexadecimal digit `a` to `f` for its value.
pub const SMALL_OFFSET: u8 = 87;

/// The first of the surrogates that stand first in a pair.
pub const FIRST_HIGH_SURROGATE: u32 = 0xd800;

/// The first of the surrogates that stand last in a pair.
pub const FIRST_LOW_SURROGATE: u32 = 0xdc00;

/// The first number behind the surrogates.
pub const BEHIND_SURROGATES: u32 = 0xe000;

/// The first character that a pair of surrogates stands for.
pub const FIRST_SUPPLEMENTARY: u32 = 0x10000;
