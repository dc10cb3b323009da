//! The record of track files: the values that they track are put into the cache, and a file is published where an entry differs.
#![tactic(auto)]

mod record;
mod source;

pub use record::record_tracks;
