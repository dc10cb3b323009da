//! The schema of `dvc.yaml`, and what a stage says.
#![tactic(auto)]

mod build;
mod check;
mod each;
mod fault;
mod keys;
mod node;
mod outs;
mod params;
mod paths;
mod stage;
mod value;
mod vars;
mod wants;

pub use build::stage_with;
pub use check::{check_root, check_wanted};
pub use fault::{ExpandFault, schema_at, stage_place, unsupported_at};
pub use keys::check_stage;
pub use node::{has_key, items_at, items_of, pairs_at, pairs_of, text_of, value_at};
pub use paths::{check_paths, is_url, outside};
pub use stage::{Out, Outs, ParamWant, ParamWants, Stage, Stages};
pub use value::is_outs_key;
