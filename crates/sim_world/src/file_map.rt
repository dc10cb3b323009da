// The files of a folder, as a value.
ghost use Rattle.std.specs.Prelude.{◌≡◌, not, IsTrue, OnOk, OnErr};
ghost use Rattle.std.specs.List.{list_all};
ghost use Rattle.std.specs.FinMap.{insert, empty, entries};
ghost use Rattle.dvc_base.specs.Path.{overlap};
ghost use Rattle.file_hash.specs.Files.{IsFileMap};
ghost use Rattle.sim_world.specs.FileMap.{is_free};
ghost use Rattle.sim_world.specs.Sorted.{pairs_of};

use crate::paths::is_root;
use crate::sorted::{Member, Sorted};
use dvc_base::{Bytes, NoMemory, Plain, Rel, overlaps};
use std::alloc::Global;
use std::marker::Model;

/// Files by their paths below a folder, none of which lies below another. Empty folders aren't seen.
#[derive(Drop)]
pub struct FileMap {
    files: Sorted<Bytes>,
}

impl Model for FileMap {
    ghost use Rattle.std.specs.Prelude.{ℕ, List};
    ghost use Rattle.std.specs.FinMap.{FinMap};
    ghost use Rattle.world_api.specs.Tree.{path_cmp};
    ghost use Rattle.file_hash.specs.Files.{IsFileMap};
    ghost use Rattle.sim_world.specs.TreeCode.{file_map_code};

    ghost Value = { FinMap path_cmp (List ℕ) };

    ghost coded = { file_map_code };

    ghost view = { λ m. m.files };

    ghost invariant = { λ m. IsFileMap m.files };
}

impl FileMap {
    /// No file. It takes no memory.
    pub fn new(alloc: Global) -> FileMap
        ensures empty { result ≡ empty }
    {
        FileMap {
            files: Sorted::new(alloc),
        }
    }

    /// Whether a file may be put at the path: it isn't the root, and overlaps none of the map.
    pub fn is_free(&self, at: &Rel) -> bool
        ensures told { result ≡ is_free self.now at.now }
    {
        if is_root(at) {
            return false;
        }
        is_apart(self.members(), at)
    }

    /// Adds a file.
    pub fn put(&mut self, at: Rel, bytes: Bytes) -> Result<(), NoMemory>
        requires { IsTrue (is_free self.old at) }
        ensures ok { OnOk result (self.new ≡ insert self.old at bytes) }
        ensures err { OnErr result (self.new ≡ self.old) }
    {
        let _ = at.parts();
        self.files.put(at, bytes)
    }

    // The map of these files.
    pub(crate) fn of(files: Sorted<Bytes>) -> FileMap
        requires { IsFileMap files }
        ensures same { result ≡ files }
    {
        FileMap { files }
    }

    // The files, in the order of their paths.
    pub(crate) fn members(&self) -> &[Member<Bytes>]
        ensures all { pairs_of result.now ≡ entries self.now }
    {
        self.files.as_slice()
    }

    // Each map is one of a folder's files.
    pub(crate) fn check(&self)
        ensures files { IsFileMap self.now }
    {
        let _ = &self.files;
    }
}

impl Plain for FileMap {
    fn copy(&self, alloc: Global) -> Result<FileMap, NoMemory> {
        Ok(FileMap {
            files: self.files.copy(alloc)?,
        })
    }
}

fn is_apart(members: &[Member<Bytes>], at: &Rel) -> bool
    ensures told { result ≡ list_all (λ m. not (overlap at.now m.path)) members.now }
{
    for member in members {
        if overlaps(at, &member.path) {
            return false;
        }
    }
    true
}
