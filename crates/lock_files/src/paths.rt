// The paths of a list that were met so far, in order beside it, so that a look for one is fast.
ghost use Rattle.std.specs.Prelude.{◌≡◌, [], ◌∷◌, ◌++◌, OnOk, string_bytes};
ghost use Rattle.lock_files.specs.Refused.{is_among};
ghost use Rattle.lock_files.specs.Met.{HasTexts};

use dvc_base::{NoMemory, Text, Texts};
use std::alloc::Global;
use std::collections::BTreeSet;
use std::marker::Model;

/// Paths so far.
#[derive(Drop)]
pub struct Paths {
    texts: Texts,
    set: BTreeSet<String>,
}

impl Model for Paths {
    ghost use Rattle.std.specs.Prelude.{List, ℕ};
    ghost use Rattle.lock_files.specs.Met.{HasTexts};

    ghost Value = { List (List ℕ) };

    ghost view = { λ p. p.texts };

    ghost invariant = { λ p. HasTexts p.set p.texts };
}

impl Paths {
    /// No path.
    pub fn new(alloc: Global) -> Paths
        ensures empty { result ≡ [] }
    {
        Paths {
            texts: Texts::new(alloc),
            set: BTreeSet::new(alloc),
        }
    }

    /// Whether this is one of the paths.
    pub fn has(&self, path: &str) -> bool
        ensures exact { result ≡ is_among path.now self.now }
    {
        self.set.contains(path)
    }

    /// Adds a path at the end. Where memory runs out no path is left.
    pub fn push(&mut self, alloc: Global, path: &str) -> Result<(), NoMemory>
        ensures ok { OnOk result (self.new ≡ self.old ++ path.now ∷ []) }
    {
        match add(alloc, &mut self.set, &mut self.texts, path) {
            Ok(()) => Ok(()),
            Err(stop) => {
                self.set = BTreeSet::new(alloc);
                self.texts = Texts::new(alloc);
                Err(stop)
            }
        }
    }
}

/// Adds a path to both.
fn add(
    alloc: Global,
    set: &mut BTreeSet<String>,
    texts: &mut Texts,
    path: &str,
) -> Result<(), NoMemory>
    requires { HasTexts set.old texts.old }
    ensures ok { OnOk result (texts.new ≡ texts.old ++ path.now ∷ []) }
    ensures holds { OnOk result (HasTexts set.new texts.new) }
{
    let copy = String::from_str(alloc, path)?;
    set.insert(copy)?;
    let text = Text::of(alloc, path)?;
    texts.push(text)?;
    Ok(())
}
