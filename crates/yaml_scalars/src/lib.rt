//! The scalars of a YAML text.
#![tactic(auto)]

mod cases;
mod escape;
mod kind;
mod lines;
mod number;
mod plain;
mod quoted;

pub use cases::worked_cases;
pub use kind::scalar;
pub use lines::block_scalar;
pub use plain::{begins_plain, is_colon, is_flow_sign, plain_len, plain_scalar};
pub use quoted::quoted_scalar;
