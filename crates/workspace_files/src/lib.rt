//! What a workspace says beyond `dvc.yaml`: a walk over it, its `.dvcignore` files, and its track files.
#![tactic(auto)]

mod ignores;
mod name;
mod read;
mod search;
mod tracks;
mod walk;

pub use ignores::check_ignores;
pub use read::read_text;
pub use search::{Found, find};
pub use tracks::read_tracks;
