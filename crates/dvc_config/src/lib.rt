//! The config of a repository: `.dvc/config` read, the urls of its remotes, and the text that a new repository has.
//!
//! A text is read in two steps: its lines are looked through for the first one that can't be read, and then their settings are
//! taken.
#![tactic(auto)]

mod cases;
mod config;
mod fault;
mod law;
mod line;
mod piece;
mod read;
mod setting;
mod url;

pub use cases::worked_cases;
pub use config::{Config, Remote, Remotes, first_config};
pub use fault::ConfigFault;
pub use law::url_law;
pub use read::read_config;
