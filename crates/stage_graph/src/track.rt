// Track files, with where they stand.
use dvc_base::{NoMemory, Plain, Plural, Rel};
use lock_files::Track;
use std::alloc::Global;

/// A track file of the workspace.
#[derive(Drop)]
pub struct TrackFile {
    pub file: Rel,
    pub track: Track,
}

/// Track files, in the order of their paths.
pub type Tracks = Plural<TrackFile>;

impl Plain for TrackFile {
    fn copy(&self, alloc: Global) -> Result<TrackFile, NoMemory> {
        Ok(TrackFile {
            file: self.file.copy(alloc)?,
            track: self.track.copy(alloc)?,
        })
    }
}
