// The config of a repository, and that of a new one.
ghost use Rattle.std.specs.Prelude.{◌≡◌, codes};

use dvc_base::{NoMemory, Plain, Plural, Text};
use std::alloc::Global;

/// A place elsewhere at which objects are kept.
#[derive(Drop)]
pub struct Remote {
    pub name: Text,
    pub url: Text,
}

/// A list of remotes.
pub type Remotes = Plural<Remote>;

/// What `.dvc/config` says.
#[derive(Drop)]
pub struct Config {
    /// The name of the remote that is used where none is named.
    pub chosen: Option<Text>,
    /// The urls of remotes as they are written. The last one of a name counts.
    pub remotes: Remotes,
}

impl Plain for Remote {
    fn copy(&self, alloc: Global) -> Result<Remote, NoMemory> {
        Ok(Remote {
            name: self.name.copy(alloc)?,
            url: self.url.copy(alloc)?,
        })
    }
}

/// The text of `.dvc/config` in a new repository.
pub fn first_config() -> &'static [u8]
    ensures exact { result.now ≡ codes "[core]\n    no_scm = True\n" }
{
    b"[core]\n    no_scm = True\n"
}
