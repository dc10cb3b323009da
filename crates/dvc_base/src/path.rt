// A path of the workspace: components from the root of the repository down.
ghost use Rattle.std.specs.Prelude.{◌≡◌, ℕ, List, [], ◌∷◌, ◌++◌, ◌↔◌, IsTrue, IfOk, MatchResult, Ok, Err, Some, None, string_bytes};
ghost use Rattle.std.specs.List.{slice_split};
ghost use Rattle.std.specs.Prelude.{◌⊎◌, ◌==◌, ◌<◌, ◌≤◌, OnOk, length};
ghost use Rattle.dvc_base.specs.Path.{joined, path_text, under, overlap, is_within, is_one};
ghost use Rattle.dvc_base.specs.Normal.{IsNormal};
ghost use Rattle.dvc_base.specs.Join.{step, walk};
ghost use Rattle.dvc_base.specs.declared.path.PathFault.TheVariants.{NoMemory as Memory, Outside, TooLong};

use crate::{NoMemory, Plain, Text};
use std::alloc::Global;
use std::marker::Model;
use thiserror::Error;

/// The most bytes that a path's text may have.
pub const MAX_PATH: usize = 1024;

/// Why a text is no path of the workspace.
#[derive(Debug, Drop, Error)]
pub enum PathFault {
    #[error("the path is empty")]
    Empty,
    #[error("the path has a NUL")]
    BadCharacter,
    #[error("the path leaves the workspace")]
    Outside,
    #[error("the path is too long")]
    TooLong,
    #[error("out of memory")]
    NoMemory,
}

impl From<NoMemory> for PathFault {
    ghost use Rattle.dvc_base.specs.declared.path.PathFault.TheVariants.{NoMemory as Memory};

    ghost from_gives = { λ _ fault. fault ≡ Memory };

    fn from(_: NoMemory) -> PathFault {
        PathFault::NoMemory
    }
}

/// A path, relative to the root of the repository, in normal form: no component is `.` or `..`.
/// Its text is kept beside its components.
#[derive(Drop)]
pub struct Rel {
    parts: Vec<Text>,
    text: String,
}

impl Model for Rel {
    ghost Value = { List (List ℕ) };

    ghost view = { λ r. r.parts.items };

    ghost invariant = { λ r. record {
      text_is : string_bytes r.text ≡ joined r.parts.items;
      normal : IsNormal r.parts.items;
      short : length (joined r.parts.items) ≤ 1024;
    } };
}

impl Rel {
    ghost use Rattle.dvc_base.specs.Join.{join};

    /// The root of the repository. It takes no memory.
    pub fn root(alloc: Global) -> Rel
        ensures root { result ≡ [] }
    {
        Rel {
            parts: Vec::new(alloc),
            text: String::new(alloc),
        }
    }

    // The path of these components.
    pub(crate) fn of_parts(alloc: Global, parts: Vec<Text>) -> Result<Rel, NoMemory>
        requires normal { IsNormal parts.items }
        requires short { length (joined parts.items) ≤ 1024 }
        ensures same { IfOk result (λ path. path ≡ parts.items) }
    {
        let text = joined_text(alloc, &parts)?;
        Ok(Rel { parts, text })
    }

    /// A text read as a path from this one: empty components and `.` are dropped, and `..` goes up.
    pub fn join(&self, alloc: Global, text: &str) -> Result<Rel, PathFault>
        ensures read { MatchResult result
            (λ path. join self.now text.now ≡ Ok path)
            (λ why. (why ≡ Memory) ⊎ (join self.now text.now ≡ Err why)) }
    {
        if text.is_empty() {
            return Err(PathFault::Empty);
        }
        let bytes = text.as_bytes();
        if bytes.contains(&0) {
            return Err(PathFault::BadCharacter);
        }
        if bytes[0] == b'/' {
            return Err(PathFault::Outside);
        }
        let parts = follow(alloc, &self.parts, text)?;
        let text = short_text(alloc, &parts)?;
        Ok(Rel { parts, text })
    }

    /// The path with a slash between its components, `.` for the root.
    pub fn text(&self) -> &str
        ensures by_parts { result.now ≡ path_text self.now }
    {
        if self.parts.is_empty() {
            "."
        } else {
            self.text.as_str()
        }
    }

    /// The components, from the root down.
    pub fn parts(&self) -> &[Text]
        ensures same { result.now ≡ self.now }
        ensures normal { IsNormal self.now }
        ensures short { length (joined self.now) ≤ 1024 }
    {
        self.parts.as_slice()
    }
}

impl Plain for Rel {
    fn copy(&self, alloc: Global) -> Result<Rel, NoMemory> {
        let parts = copy_parts(alloc, &self.parts)?;
        let text = self.text.clone()?;
        Ok(Rel { parts, text })
    }
}

/// Whether one of the two paths is the other, or lies in it.
pub fn overlaps(a: &Rel, b: &Rel) -> bool
    ensures by_parts { result ≡ overlap a.now b.now }
{
    is_at_or_below(a, b) || is_at_or_below(b, a)
}

/// Whether the first path lies in the second. No path lies in itself.
pub fn lies_in(inner: &Rel, outer: &Rel) -> bool
    ensures by_parts { result ≡ is_within inner.now outer.now }
{
    is_at_or_below(inner, outer) && outer.parts.len() < inner.parts.len()
}

/// Whether the first path is the second, or lies in it.
pub fn is_at_or_below(inner: &Rel, outer: &Rel) -> bool
    ensures by_parts { result ≡ under outer.now inner.now }
{
    begins_with(&inner.parts, &outer.parts)
}

/// Whether the two paths are one.
pub fn is_same(a: &Rel, b: &Rel) -> bool
    ensures equal { IsTrue result ↔ (a.now ≡ b.now) }
    ensures by_parts { result ≡ is_one a.now b.now }
{
    is_at_or_below(a, b) && is_at_or_below(b, a)
}

fn begins_with(inner: &[Text], outer: &[Text]) -> bool
    ensures by_parts { result ≡ under outer.now inner.now }
{
    let Some((head, outer)) = outer.split_first() else {
        return true;
    };
    let Some((first, inner)) = inner.split_first() else {
        return false;
    };
    head.as_str() == first.as_str() && begins_with(inner, outer)
}

fn copy_parts(alloc: Global, parts: &[Text]) -> Result<Vec<Text>, NoMemory>
    ensures same { IfOk result (λ copy. copy.items ≡ parts.now) }
{
    let mut copy = Vec::new(alloc);
    for part in parts {
        copy.push(part.copy(alloc)?)?;
    }
    Ok(copy)
}

// Goes where the pieces of a text lead, from these components.
fn follow(alloc: Global, parts: &[Text], text: &str) -> Result<Vec<Text>, PathFault>
    ensures read { let end = walk parts.now (slice_split (λ byte. byte == 47) text.now) in MatchResult result
        (λ parts. end ≡ Some parts.items)
        (λ why. (why ≡ Memory) ⊎ ((why ≡ Outside) × (end ≡ None))) }
{
    let mut parts = copy_parts(alloc, parts)?;
    for piece in text.split('/') {
        take_piece(alloc, &mut parts, piece)?;
    }
    Ok(parts)
}

// Goes where one piece of a text leads.
fn take_piece(alloc: Global, parts: &mut Vec<Text>, piece: &str) -> Result<(), PathFault>
    ensures read { MatchResult result
        (λ _. step parts.old.items piece.now ≡ Some parts.new.items)
        (λ why. (why ≡ Memory) ⊎ ((why ≡ Outside) × (step parts.old.items piece.now ≡ None))) }
{
    if piece.is_empty() || piece == "." {
        return Ok(());
    }
    if piece == ".." {
        return match parts.pop() {
            Some(_) => Ok(()),
            None => Err(PathFault::Outside),
        };
    }
    push_part(alloc, parts, piece)?;
    Ok(())
}

pub(crate) fn push_part(alloc: Global, parts: &mut Vec<Text>, part: &str) -> Result<(), NoMemory>
    ensures ok { OnOk result (parts.new.items ≡ parts.old.items ++ part.now ∷ []) }
{
    parts.push(Text::of(alloc, part)?)?;
    Ok(())
}

// The text of the path of these components, if it is not too long.
fn short_text(alloc: Global, parts: &[Text]) -> Result<String, PathFault>
    ensures read { MatchResult result
        (λ text. (string_bytes text ≡ joined parts.now) × (length (joined parts.now) ≤ 1024))
        (λ why. (why ≡ Memory) ⊎ ((why ≡ TooLong) × (1024 < length (joined parts.now)))) }
{
    let text = joined_text(alloc, parts)?;
    if text.len() > MAX_PATH {
        return Err(PathFault::TooLong);
    }
    Ok(text)
}

fn joined_text(alloc: Global, parts: &[Text]) -> Result<String, NoMemory>
    ensures joined { IfOk result (λ text. string_bytes text ≡ joined parts.now) }
{
    let mut text = String::new(alloc);
    let mut first = true;
    for part in parts {
        if !first {
            text.push('/')?;
        }
        text.push_str(part.as_str())?;
        first = false;
    }
    Ok(text)
}
