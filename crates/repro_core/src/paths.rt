// Paths that are read from another one: a member of a folder, and the folder above.
ghost use Rattle.std.specs.Prelude.{◌≡◌, ◌≢◌, [], ◌∷◌, ◌++◌, IfOk, Ok};
ghost use Rattle.dvc_base.specs.Join.{join};
ghost use Rattle.dvc_base.specs.Normal.{IsName};
ghost use Rattle.world_api.specs.Calls.{parent};

use dvc_base::{NoMemory, Rel};
use std::alloc::Global;

/// The path of a member of a folder.
pub(crate) fn below(alloc: Global, at: &Rel, part: &str) -> Result<Rel, NoMemory>
    requires { IsName part.now }
    ensures exact { IfOk result (λ path. path ≡ at.now ++ part.now ∷ []) }
{
    join(alloc, at, part)
}

/// The folder above a path.
pub(crate) fn above(alloc: Global, at: &Rel) -> Result<Rel, NoMemory>
    requires { at.now ≢ [] }
    ensures exact { IfOk result (λ path. path ≡ parent at.now) }
{
    join(alloc, at, "..")
}

// Each text that is given leads to a path that isn't too long, so the only refusal is want of memory.
fn join(alloc: Global, at: &Rel, text: &str) -> Result<Rel, NoMemory>
    ensures read { IfOk result (λ path. join at.now text.now ≡ Ok path) }
{
    match at.join(alloc, text) {
        Ok(path) => Ok(path),
        Err(_) => Err(NoMemory),
    }
}
