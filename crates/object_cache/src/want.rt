// A value that is wanted at a path.
use dvc_base::{Name, NoMemory, Plain, Plural, Rel};
use std::alloc::Global;

/// A value that is wanted at a path, under the name that is remembered of it.
#[derive(Drop)]
pub struct Want {
    pub path: Rel,
    pub name: Name,
    /// Whether a listing of it that can't be had is a fault, where the names of all that is wanted are asked for.
    pub strict: bool,
}

/// A list of wanted values.
pub type Wants = Plural<Want>;

impl Plain for Want {
    fn copy(&self, alloc: Global) -> Result<Want, NoMemory> {
        Ok(Want {
            path: self.path.copy(alloc)?,
            name: self.name,
            strict: self.strict,
        })
    }
}
