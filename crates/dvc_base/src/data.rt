// Shared data: tracked parameters, keys of run records, and lists of paths and names.
ghost use Rattle.std.specs.Prelude.{◌≡◌, Some, None, IsTrue, length};
ghost use Rattle.std.specs.List.{list_all};
ghost use Rattle.dvc_base.specs.Name.{is_digit};
ghost use Rattle.dvc_base.specs.RunKey.{are_key_digits, key_in};

use crate::name::are_lower_hex;
use crate::{Name, NoMemory, PairList, Plain, Plural, Rel, Text};
use std::alloc::Global;
use std::marker::Model;

/// A list of paths.
pub type Rels = Plural<Rel>;

/// A list of names.
pub type Names = Plural<Name>;

/// The keys of a parameter file with their values.
pub type KeyValues = PairList;

/// A parameter file with the keys of it that are tracked.
#[derive(Drop)]
pub struct ParamFile {
    pub file: Text,
    pub keys: KeyValues,
}

/// A list of parameter files.
pub type ParamFiles = Plural<ParamFile>;

impl Plain for ParamFile {
    fn copy(&self, alloc: Global) -> Result<ParamFile, NoMemory> {
        Ok(ParamFile {
            file: self.file.copy(alloc)?,
            keys: self.keys.copy(alloc)?,
        })
    }
}

impl Plain for Name {
    fn copy(&self, _: Global) -> Result<Name, NoMemory> {
        Ok(*self)
    }
}

// How many digits a key has.
const DIGITS: usize = 64;

/// The key of a run record: a SHA-256 in lower-case digits.
#[derive(Clone, Copy, Debug, PartialEq, Eq)]
pub struct Key {
    pub digits: [u8; 64],
}

impl Model for Key {
    ghost use Rattle.std.specs.Prelude.{IsTrue};
    ghost use Rattle.dvc_base.specs.RunKey.{RunKey, are_key_digits};

    ghost Value = { RunKey };

    ghost view = { λ key. record { digits = key.digits } };

    ghost invariant = { λ key. IsTrue (are_key_digits key.digits) };

    ghost inverse = { λ value. record { digits = value.digits } };
}

impl Key {
    /// The key that has this text: 64 lower-case hexadecimal digits.
    pub fn parse(text: &[u8]) -> Option<Key>
        ensures exact { result ≡ key_in text.now }
    {
        if text.len() != DIGITS {
            return None;
        }
        if !are_lower_hex(text) {
            return None;
        }
        let mut digits = [0; DIGITS];
        digits.copy_from_slice(text);
        Some(Key { digits })
    }
}
