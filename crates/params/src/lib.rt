//! Parameters: files of them, what a key leads to, canonical nodes, and whether two nodes are the same value.
#![tactic(auto)]

mod canonical;
mod cases;
mod depth;
mod digits;
mod fault;
mod keys;
mod laws;
mod number;
mod read;
mod same;

pub use canonical::canon;
pub use cases::worked_cases;
pub use fault::ParamsFault;
pub use keys::lookup;
pub use laws::canon_law;
pub use read::read_params;
pub use same::same_value;
