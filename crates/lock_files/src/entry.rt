// What is remembered of a stage, and what a track file says.
use dvc_base::{Name, NoMemory, PairList, ParamFiles, Plain, Plural, Text, Texts};
use std::alloc::Global;

/// A path that a stage read or wrote, with the name and the size of what stood there.
#[derive(Drop)]
pub struct PathEntry {
    pub path: Text,
    pub name: Name,
    pub size: u64,
    /// How many files a folder had.
    pub nfiles: Option<u64>,
}

/// A list of paths with their names.
pub type PathEntries = Plural<PathEntry>;

/// What a stage ran, what it read and what it wrote. Lists are in the order of their paths, files and keys.
#[derive(Drop)]
pub struct Entry {
    pub commands: Texts,
    pub deps: PathEntries,
    pub params: ParamFiles,
    pub outs: PathEntries,
}

/// A track file: what it records, and its other pairs, which are kept.
#[derive(Drop)]
pub struct Track {
    pub outs: PathEntries,
    pub rest: PairList,
}

impl Plain for PathEntry {
    fn copy(&self, alloc: Global) -> Result<PathEntry, NoMemory> {
        Ok(PathEntry {
            path: self.path.copy(alloc)?,
            name: self.name,
            size: self.size,
            nfiles: self.nfiles,
        })
    }
}

impl Plain for Entry {
    fn copy(&self, alloc: Global) -> Result<Entry, NoMemory> {
        Ok(Entry {
            commands: self.commands.copy(alloc)?,
            deps: self.deps.copy(alloc)?,
            params: self.params.copy(alloc)?,
            outs: self.outs.copy(alloc)?,
        })
    }
}

impl Plain for Track {
    fn copy(&self, alloc: Global) -> Result<Track, NoMemory> {
        Ok(Track {
            outs: self.outs.copy(alloc)?,
            rest: self.rest.copy(alloc)?,
        })
    }
}
