// The members of a folder, with their names.

use dvc_base::{Name, NoMemory, Plain, Plural, Rel};
use std::alloc::Global;

/// A file of a folder: its path from there, and the name of its bytes.
#[derive(Drop)]
pub struct Member {
    pub path: Rel,
    pub name: Name,
}

/// The members of a folder, in the order of the texts of their paths.
pub type Listing = Plural<Member>;

impl Plain for Member {
    fn copy(&self, alloc: Global) -> Result<Member, NoMemory> {
        Ok(Member {
            path: self.path.copy(alloc)?,
            name: self.name,
        })
    }
}
