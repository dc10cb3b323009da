// What is told of a value by its name.
use dvc_base::Name;

/// The name of a value, how many bytes it has, and of a folder how many files.
#[derive(Clone, Copy, Debug, PartialEq, Eq)]
pub struct Named {
    pub name: Name,
    pub size: u64,
    pub nfiles: Option<u64>,
}
