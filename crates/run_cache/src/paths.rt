// Where run records stand.
ghost use Rattle.std.specs.Prelude.{◌≡◌, ◌<◌, [], ◌∷◌, ◌++◌, length, IsTrue, IfOk, Ok};
ghost use Rattle.std.specs.List.{list_all};
ghost use Rattle.dvc_base.specs.Join.{join};
ghost use Rattle.dvc_base.specs.Name.{is_digit};
ghost use Rattle.run_cache.specs.Records as spec;

use dvc_base::{Key, NoMemory, Rel, Text};
use std::alloc::Global;

/// The folder of the records of a key.
pub fn key_folder(alloc: Global, key: &Key) -> Result<Rel, NoMemory>
    ensures exact { IfOk result (λ path. path ≡ spec.key_folder key.now) }
{
    let runs = join(alloc, &Rel::root(alloc), ".dvc/cache/runs")?;
    let shelf = below(alloc, &runs, &key.digits[..2])?;
    below(alloc, &shelf, &key.digits)
}

/// The path of what has some digits for its name, directly in a folder.
pub fn below(alloc: Global, folder: &Rel, digits: &[u8]) -> Result<Rel, NoMemory>
    requires some { 0 < length digits.now }
    requires digits { IsTrue (list_all is_digit digits.now) }
    ensures exact { IfOk result (λ path. path ≡ folder.now ++ digits.now ∷ []) }
{
    let name = Text::of_ascii(alloc, digits)?;
    join(alloc, folder, name.as_str())
}

// Each text that is given leads to a path that isn't too long, so the only refusal is want of memory.
fn join(alloc: Global, at: &Rel, text: &str) -> Result<Rel, NoMemory>
    ensures read { IfOk result (λ path. join at.now text.now ≡ Ok path) }
{
    match at.join(alloc, text) {
        Ok(path) => Ok(path),
        Err(_) => Err(NoMemory),
    }
}
