// Folders that are made.
use crate::findings::is_taken;
use crate::folder::Folder;
use dvc_base::Rel;
use std::io::ErrorKind;
use std::rt::Runtime;
use std::{fs, io};
use world_api::Kind;

impl<R: Runtime> Folder<R> {
    /// Makes the folder and all that are missing above it, from above down. One that stands takes a single look.
    pub(crate) fn make_folder(&self, at: &Rel) -> io::Result<()> {
        if self.stands(at)? {
            return Ok(());
        }
        self.make_road(at)
    }

    fn make_road(&self, at: &Rel) -> io::Result<()> {
        let mut above = Rel::root(self.alloc);
        for name in at.parts() {
            above = self.go_down(&above, name.as_str())?;
        }
        Ok(())
    }

    fn go_down(&self, above: &Rel, name: &str) -> io::Result<Rel> {
        let at = above
            .join(self.alloc, name)
            .map_err(|_| io::Error::from(ErrorKind::InvalidInput))?;
        self.make_if_missing(&at)?;
        Ok(at)
    }

    /// Makes the folder where it is missing. What stands above it has to be there.
    pub(crate) fn make_if_missing(&self, at: &Rel) -> io::Result<()> {
        if self.stands(at)? {
            return Ok(());
        }
        self.make(at)
    }

    /// Makes the folder, and puts its name on the disk. Another process may have made it meanwhile, and not
    /// have put its name there yet.
    pub(crate) fn make(&self, at: &Rel) -> io::Result<()> {
        let place = self.place(at)?;
        match fs::create_dir(&self.rt, place.as_str()) {
            Err(error) if is_taken(&error) && self.stands(at)? => {}
            made => made?,
        }
        self.sync_above(at)
    }

    /// Whether a folder stands there.
    pub(crate) fn stands(&self, at: &Rel) -> io::Result<bool> {
        Ok(self.look(at)? == Kind::Folder)
    }
}
