// Files of variables, as they were read.
use dvc_base::{Node, Plural, Rel};

/// A file that a `dvc.yaml` names for its variables, with what it holds; nothing where it is missing.
#[derive(Drop)]
pub struct VarFile {
    pub file: Rel,
    pub node: Option<Node>,
}

/// Files of variables.
pub type VarFiles = Plural<VarFile>;
