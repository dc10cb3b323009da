//! What a `dvc.yaml` comes to: variables put into its texts, and the stages that `foreach` and `matrix` make.
#![tactic(auto)]

mod cases;
mod expansion;
mod fault;
mod files;
mod fill;
mod made;
mod matrix;
mod part;
mod vars;
mod walk;
mod wanted;

pub use cases::worked_cases;
pub use expansion::expand;
pub use files::{VarFile, VarFiles};
pub use made::Made;
pub use stage_schema::{ExpandFault, Out, Outs, ParamWant, ParamWants, Stage, Stages};
pub use vars::Vars;
pub use wanted::wanted_files;
