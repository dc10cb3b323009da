// Paths that a walk leaves out, and paths that it looks for.
ghost use Rattle.std.specs.Prelude.{◌≡◌};
ghost use Rattle.workspace_files.specs.Walk as spec;

use dvc_base::Rel;

/// Whether the path is a folder that a walk leaves out, or lies in one.
pub fn is_left_out(path: &Rel) -> bool
    ensures exact { result ≡ spec.is_left_out path.now }
{
    match path.parts() {
        [first, ..] => is_tool_name(first.as_str()),
        [] => false,
    }
}

fn is_tool_name(name: &str) -> bool
    ensures exact { result ≡ spec.is_tool_name name.now }
{
    name == ".dvc" || name == ".git" || name == ".hg"
}

/// Whether a file at the path would be one of rules.
pub fn is_ignore_path(path: &Rel) -> bool
    ensures exact { result ≡ spec.is_ignore_path path.now }
{
    !is_left_out(path) && has_ignore_name(path)
}

fn has_ignore_name(path: &Rel) -> bool
    ensures exact { result ≡ spec.has_name spec.is_ignore_name path.now }
{
    match path.parts().last() {
        Some(name) => name.as_str() == ".dvcignore",
        None => false,
    }
}

/// Whether a file at the path would be a track file.
pub fn is_track_path(path: &Rel) -> bool
    ensures exact { result ≡ spec.is_track_path path.now }
{
    !is_left_out(path) && has_track_name(path)
}

fn has_track_name(path: &Rel) -> bool
    ensures exact { result ≡ spec.has_name spec.is_track_name path.now }
{
    match path.parts().last() {
        Some(name) => is_track_name(name.as_str().as_bytes()),
        None => false,
    }
}

fn is_track_name(name: &[u8]) -> bool
    ensures exact { result ≡ spec.is_track_name name.now }
{
    name.ends_with(b".dvc") && name.len() > b".dvc".len()
}
