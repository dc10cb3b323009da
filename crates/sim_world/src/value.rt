// What a test puts into the world, and what a command is given and leaves.
ghost use Rattle.std.specs.Prelude.{◌≡◌, IfOk};
ghost use Rattle.sim_world.specs.Answer.{found};
ghost use Rattle.sim_world.specs.Good.{IsGood, AreGood};

use crate::FileMap;
use dvc_base::{Bytes, NoMemory, Plain, Plural, Text};
use std::alloc::Global;

/// What stands at a path, or is to stand there.
#[derive(Drop)]
pub enum Value {
    Nothing,
    File(Bytes),
    /// A folder's files. Without a file it is an empty folder.
    Files(FileMap),
}

impl Value {
    // Each map of files is one of a folder.
    pub(crate) fn check(&self)
        ensures good { IsGood self.now }
    {
        match self {
            Value::Nothing => (),
            Value::File(_) => (),
            Value::Files(map) => map.check(),
        }
    }
}

impl Plain for Value {
    fn copy(&self, alloc: Global) -> Result<Value, NoMemory> {
        match self {
            Value::Nothing => Ok(Value::Nothing),
            Value::File(bytes) => Ok(Value::File(bytes.copy(alloc)?)),
            Value::Files(map) => Ok(Value::Files(map.copy(alloc)?)),
        }
    }
}

/// A path as a stage names it, with a value.
#[derive(Drop)]
pub struct PathValue {
    pub path: Text,
    pub value: Value,
}

impl Plain for PathValue {
    fn copy(&self, alloc: Global) -> Result<PathValue, NoMemory> {
        Ok(PathValue {
            path: self.path.copy(alloc)?,
            value: self.value.copy(alloc)?,
        })
    }
}

/// A list of paths with their values.
pub type PathValues = Plural<PathValue>;

// The first value that stands under the path's text; Nothing where there is none.
pub(crate) fn find_value(alloc: Global, values: &PathValues, path: &str) -> Result<Value, NoMemory>
    ensures found { IfOk result (λ value. value ≡ found values.now path.now) }
{
    for entry in values.as_slice() {
        if entry.path.as_str() == path {
            return entry.value.copy(alloc);
        }
    }
    Ok(Value::Nothing)
}

// Each value is as the code makes one.
pub(crate) fn check_values(values: &PathValues)
    ensures good { AreGood values.now }
{
    for entry in values.as_slice() {
        entry.value.check();
    }
}
