//! The characters and lines of a YAML text, and the places at which it can be refused.
#![tactic(auto)]

mod cases;
mod characters;
mod line;
mod refusal;
mod whole;

pub use cases::worked_cases;
pub use characters::{
    BEHIND_SURROGATES, CAPITAL_OFFSET, FIRST_HIGH_SURROGATE, FIRST_LOW_SURROGATE,
    FIRST_SUPPLEMENTARY, SMALL_OFFSET,
};
pub use line::{
    behind, blank_lines, byte, first_line, is_bad, is_marker, is_rest_empty, is_white, next_line,
    past_spaces, past_white, rest_of_line, spaces, split_first,
};
pub use refusal::{Halt, Refusal, syntax};
pub use whole::{body_len, line_of, source, text_of};
