// Where objects stand, and the paths above them.
ghost use Rattle.std.specs.Prelude.{◌≡◌, ◌≢◌, [], ◌∷◌, ◌++◌, IfOk, Ok};
ghost use Rattle.dvc_base.specs.Join.{join};
ghost use Rattle.dvc_base.specs.Normal.{IsName};
ghost use Rattle.world_api.specs.Calls.{parent};
ghost use Rattle.object_cache.specs.Objects.{cache_path, object_path};

use dvc_base::{Name, NoMemory, Rel};
use std::alloc::Global;

/// Where the object of a name stands.
pub fn object_path(alloc: Global, name: &Name) -> Result<Rel, NoMemory>
    ensures exact { IfOk result (λ path. path ≡ object_path name.now) }
{
    let cache = join(alloc, &Rel::root(alloc), ".dvc/cache")?;
    let place = name.place(alloc)?;
    join(alloc, &cache, place.text())
}

// The path of a member of a folder.
pub(crate) fn below(alloc: Global, at: &Rel, part: &str) -> Result<Rel, NoMemory>
    requires { IsName part.now }
    ensures exact { IfOk result (λ path. path ≡ at.now ++ part.now ∷ []) }
{
    join(alloc, at, part)
}

// The path of a file below a folder.
pub(crate) fn follow(alloc: Global, at: &Rel, path: &Rel) -> Result<Rel, NoMemory>
    ensures exact { IfOk result (λ whole. whole ≡ at.now ++ path.now) }
{
    let _ = path.parts();
    join(alloc, at, path.text())
}

// The folder above a path.
pub(crate) fn above(alloc: Global, at: &Rel) -> Result<Rel, NoMemory>
    requires { at.now ≢ [] }
    ensures exact { IfOk result (λ path. path ≡ parent at.now) }
{
    join(alloc, at, "..")
}

// Each text that is given leads to a path that isn't too long, so the only refusal is want of memory.
fn join(alloc: Global, at: &Rel, text: &str) -> Result<Rel, NoMemory>
    ensures read { IfOk result (λ path. join at.now text.now ≡ Ok path) }
{
    match at.join(alloc, text) {
        Ok(path) => Ok(path),
        Err(_) => Err(NoMemory),
    }
}
