// The names of what stands in a folder.
ghost use Rattle.std.specs.Prelude.{IfOk};
ghost use Rattle.world_api.specs.Calls.{AreNames};

use crate::findings::in_memory;
use crate::folder::Folder;
use crate::names::are_names;
use dvc_base::{NoMemory, Rel, Text, Texts};
use std::alloc::Global;
use std::io::ErrorKind;
use std::rt::Runtime;
use std::{fs, io};

impl<R: Runtime> Folder<R> {
    /// The names in the folder, in the order of their bytes. A link to a folder is read as that folder.
    pub(crate) fn list(&self, alloc: Global, at: &Rel) -> io::Result<Texts>
        ensures good { IfOk result AreNames }
    {
        let place = self.place(at)?;
        let names = self.names_in(alloc, place.as_str())?;
        in_order(alloc, names)
    }

    // A name that isn't UTF-8 is an error of std.
    fn names_in(&self, alloc: Global, place: &str) -> io::Result<Vec<Text>> {
        let mut names = Vec::new(alloc);
        for entry in fs::read_dir(&self.rt, place)? {
            let entry = entry?;
            let name = String::from_str(alloc, entry.file_name())?;
            names.push(Text::from_string(name))?;
        }
        Ok(names)
    }
}

// No clause of std speaks of the names, so they are looked through here.
fn in_order(alloc: Global, mut names: Vec<Text>) -> io::Result<Texts>
    ensures good { IfOk result AreNames }
{
    names.sort()?;
    let names = in_memory(texts_of(alloc, names))?;
    if are_names(names.as_slice()) {
        Ok(names)
    } else {
        Err(io::Error::from(ErrorKind::InvalidData))
    }
}

fn texts_of(alloc: Global, names: Vec<Text>) -> Result<Texts, NoMemory> {
    let mut texts = Texts::new(alloc);
    for name in names {
        texts.push(name)?;
    }
    Ok(texts)
}
