//! Variables of templates: mappings merged into one another, looked up, and put into texts.
#![tactic(auto)]

mod cases;
mod fault;
mod fill;
mod item;
mod laws;
mod merge;
mod scope;
mod spaces;
mod turn;
mod variables;

pub use cases::worked_cases;
pub use fault::TemplateFault;
pub use fill::{node_of_key, resolve, scalar_text};
pub use item::{WantedFile, chosen, wanted_of};
pub use laws::variable_laws;
pub use scope::Scope;
pub use turn::{has_template, whole_key};
pub use variables::Variables;
