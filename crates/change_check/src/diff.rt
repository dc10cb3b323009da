// The differences between what is remembered of a stage and what is seen of it.
use dvc_base::{Plural, Text, Texts};

/// How a thing differs from what is remembered of it.
#[derive(Clone, Copy, Debug, PartialEq, Eq)]
pub enum How {
    /// It is there, and nothing is remembered of it.
    New,
    /// It is there, and something else is remembered.
    Modified,
    /// It isn't there, or the stage no longer has it.
    Deleted,
    /// It is there as it is remembered, but isn't whole in the cache.
    NotInCache,
}

/// A difference between what is remembered of a stage and what is seen of it.
#[derive(Drop)]
pub enum Diff {
    /// The commands are others, or nothing is remembered of the stage.
    Command,
    Dep { path: Text, how: How },
    Param { file: Text, key: Text, how: How },
    Out { path: Text, how: How },
}

/// A list of differences.
pub type Diffs = Plural<Diff>;

/// A tracked key that isn't present: its file hasn't got it, or is missing.
#[derive(Drop)]
pub struct LostKey {
    pub file: Text,
    pub key: Text,
}

/// A list of keys that aren't present.
pub type LostKeys = Plural<LostKey>;

/// What isn't there of a stage, beside what is seen: `Seen` has the keys that are present alone, and knows no cache.
#[derive(Drop)]
pub struct Gaps {
    /// The tracked keys that aren't present, in the order of their files' and keys' bytes.
    pub lost: LostKeys,
    /// The paths of the outputs that are cached, and aren't whole in the cache.
    pub absent: Texts,
}
