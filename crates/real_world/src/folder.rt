// A real folder, and what stays open in it from one call to the next.
ghost use Rattle.std.specs.Prelude.{◌≡◌, IfOk, string_bytes};
ghost use Rattle.real_world.specs.Place.{place};

use crate::findings::{done_if_missing, is_missing, kind_of};
use crate::lanes::OpenLane;
use crate::reading::Reading;
use dvc_base::{NoMemory, Rel};
use std::alloc::{AllocError, Global};
use std::fs::OpenFile;
use std::io::ErrorKind;
use std::rt::Runtime;
use std::{fs, io};
use world_api::Kind;

#[derive(Drop)]
pub(crate) struct Folder<R: Runtime> {
    pub(crate) rt: R,
    pub(crate) alloc: Global,
    pub(crate) root: String,
    /// The lane that was begun last, until it is published. No job's output lies among the lanes.
    pub(crate) lane: Option<OpenLane<R::File>>,
    /// The file that was read last, until another call than a read.
    pub(crate) reading: Option<Reading<R::File>>,
}

impl<R: Runtime> Folder<R> {
    /// The folder of this path, with nothing open.
    pub(crate) fn new(rt: R, alloc: Global, root: &str) -> Result<Folder<R>, NoMemory> {
        let root = String::from_str(alloc, root)?;
        Ok(Folder {
            rt,
            alloc,
            root,
            lane: None,
            reading: None,
        })
    }

    /// Where a path of the workspace stands in the file system: the root's text, a slash and the path's
    /// text; for the root itself its own text.
    pub(crate) fn place(&self, at: &Rel) -> Result<String, AllocError>
        ensures place { IfOk result (λ text. string_bytes text ≡ place (string_bytes self.now.root) at.now) }
    {
        let mut text = String::from_str(self.alloc, self.root.as_str())?;
        if !at.parts().is_empty() {
            text.push('/')?;
            text.push_str(at.text())?;
        }
        Ok(text)
    }

    /// A link is read as what it points to.
    pub(crate) fn look(&self, at: &Rel) -> io::Result<Kind> {
        let place = self.place(at)?;
        kind_of(fs::metadata(&self.rt, place.as_str()))
    }

    pub(crate) fn remove(&self, at: &Rel) -> io::Result<()> {
        let place = self.place(at)?;
        remove_place(&self.rt, place.as_str())
    }

    /// Removes what stands there, and puts that on the disk. Where nothing stands, somebody may have removed
    /// it just before, so the folder above is put there too.
    pub(crate) fn clear(&mut self, at: &Rel) -> io::Result<()> {
        self.forget();
        self.remove(at)?;
        done_if_missing(self.sync_above(at))
    }

    /// Puts the names in the folder above the path on the disk.
    pub(crate) fn sync_above(&self, at: &Rel) -> io::Result<()> {
        let place = self.inside_above(at)?;
        sync(&self.rt, place.as_str())
    }

    // The dot lets nothing but a folder be opened: a pipe would wait for one who writes.
    fn inside_above(&self, at: &Rel) -> io::Result<String> {
        let mut place = self.place_above(at)?;
        place.push_str("/.")?;
        Ok(place)
    }

    fn place_above(&self, at: &Rel) -> io::Result<String> {
        let above = at
            .join(self.alloc, "..")
            .map_err(|_| io::Error::from(ErrorKind::InvalidInput))?;
        Ok(self.place(&above)?)
    }

    /// Lets go the file that was read last, which may stand there no longer.
    pub(crate) fn forget(&mut self) {
        self.reading = None;
    }
}

/// A link goes alone, and never what it points to.
pub(crate) fn remove_place<R: Runtime>(rt: &R, place: &str) -> io::Result<()> {
    match fs::symlink_metadata(rt, place) {
        Ok(found) if found.is_dir() => fs::remove_dir_all(rt, place),
        Ok(_) => fs::remove_file(rt, place),
        Err(error) if is_missing(&error) => Ok(()),
        Err(error) => Err(error),
    }
}

/// A folder is opened for reading as a file is, and synced in the same way.
pub(crate) fn sync<R: Runtime>(rt: &R, place: &str) -> io::Result<()> {
    let file = fs::open(rt, place)?;
    file.sync_all()
}
