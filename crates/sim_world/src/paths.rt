// Paths that are made of others.
ghost use Rattle.std.specs.Prelude.{◌≡◌, ◌≢◌, ◌++◌, ◌∷◌, [], length, drop, true, IfOk, Ok};
ghost use Rattle.dvc_base.specs.Path.{under};
ghost use Rattle.dvc_base.specs.Join.{join};
ghost use Rattle.dvc_base.specs.Normal.{IsName};
ghost use Rattle.world_api.specs.Tree.{IsRelPath};
ghost use Rattle.world_api.specs.Calls.{parent};
ghost use Rattle.sim_world.specs.Root.{is_root};

use dvc_base::{NoMemory, Rel, Text};
use std::alloc::Global;

pub(crate) fn is_root(at: &Rel) -> bool
    ensures empty { result ≡ is_root at.now }
    ensures fits { IsRelPath at.now }
{
    at.parts().is_empty()
}

// Each path is one that a workspace may have.
pub(crate) fn check_path(at: &Rel)
    ensures fits { IsRelPath at.now }
{
    let _ = at.parts();
}

// The folder above a path.
pub(crate) fn parent_of(alloc: Global, at: &Rel) -> Result<Rel, NoMemory>
    requires { at.now ≢ [] }
    ensures above { IfOk result (λ path. path ≡ parent at.now) }
{
    // The parent's text is never too long, since its child's isn't.
    at.join(alloc, "..").map_err(|_| NoMemory)
}

// The path that a text names from another. One that is too long is refused as if memory were short.
fn read_from(alloc: Global, at: &Rel, text: &str) -> Result<Rel, NoMemory>
    ensures read { IfOk result (λ path. join at.now text.now ≡ Ok path) }
{
    match at.join(alloc, text) {
        Ok(path) => Ok(path),
        Err(_) => Err(NoMemory),
    }
}

// The path of a file below another.
pub(crate) fn join_below(alloc: Global, at: &Rel, below: &Rel) -> Result<Rel, NoMemory>
    ensures joined { IfOk result (λ path. path ≡ at.now ++ below.now) }
    ensures fits { IfOk result IsRelPath }
{
    let _ = below.parts();
    let path = read_from(alloc, at, below.text())?;
    let _ = path.parts();
    Ok(path)
}

// The path of what lies directly in a folder.
fn join_name(alloc: Global, at: &Rel, name: &Text) -> Result<Rel, NoMemory>
    requires { IsName name.now }
    ensures joined { IfOk result (λ path. path ≡ at.now ++ name.now ∷ []) }
{
    read_from(alloc, at, name.as_str())
}

// A path as it is from a folder above it.
pub(crate) fn path_within(alloc: Global, at: &Rel, path: &Rel) -> Result<Rel, NoMemory>
    requires { under at.now path.now ≡ true }
    ensures rest { IfOk result (λ rest. rest ≡ drop (length at.now) path.now) }
{
    let mut rest = Rel::root(alloc);
    let parts = path.parts();
    let mut index = at.parts().len();
    while index < parts.len() {
        rest = join_name(alloc, &rest, &parts[index])?;
        index += 1;
    }
    Ok(rest)
}
