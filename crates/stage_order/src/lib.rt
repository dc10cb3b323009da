//! The order of numbered stages, the walk round a cycle, and the stages that chosen ones bring.
#![tactic(auto)]

mod chosen;
mod law;
mod marks;
mod order;
mod waiting;
mod walk;

pub use chosen::brought;
pub use law::{brought_law, order_law};
pub use order::{Ordered, order_of};
pub use walk::walk_of;
