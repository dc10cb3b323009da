//! The comparison of what is remembered of a stage with what is seen of it.
#![tactic(auto)]

mod canonical;
mod diff;
mod differences;
mod keys;
mod same;
mod seen;
mod sides;

pub use canonical::canonical_files;
pub use diff::{Diff, Diffs, Gaps, How, LostKey, LostKeys};
pub use differences::compare;
pub use same::{agrees, is_named, same_entry};
pub use seen::{Seen, SeenPath, SeenPaths};
