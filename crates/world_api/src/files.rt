// The files of the workspace, as the tool reads, clears and writes them.
ghost use Rattle.std.specs.Prelude.{◌≡◌, ◌≢◌, ◌≤◌, false, [], length, IsTrue, IsErrOf, IfOk, OnOk};
ghost use Rattle.dvc_base.specs.Path.{under};
ghost use Rattle.world_api.specs.Tree.{item_at, names_in};
ghost use Rattle.world_api.specs.History.{HasCause, IsCaused};
ghost use Rattle.world_api.specs.Outside.{tree_of, IsUntouched, PassesFrom, HasTrees};
ghost use Rattle.world_api.specs.Layout.{dvc_path, lane_path};
ghost use Rattle.world_api.specs.Calls.{kind_of, IsFileAt, ReadsFrom, AreNames, IsCleared, InClear};
ghost use Rattle.world_api.specs.declared.files.ListFault.TheVariants.{Failed as Unlisted};
ghost use Rattle.world_api.specs.Writes.{IsNoFileAt, HasRoad, IsFolderAt, InMakeFolder, HasRoom, IsFirmLane, InBegin, IsBegun, InAppend, IsAppended, InSettle, IsSettled, InPublish, IsPublished};

use crate::Ground;
use dvc_base::{Failed, NoMemory, Rel, Texts};
use std::alloc::Global;

/// What stands at a path.
#[derive(Clone, Copy, Debug, PartialEq, Eq)]
pub enum Kind {
    Missing,
    /// A file, with the number of its bytes.
    File { size: u64 },
    Folder,
}

/// Why the names in a folder were not told.
#[derive(Clone, Copy, Debug, PartialEq, Eq)]
pub enum ListFault {
    /// The call failed.
    Failed,
    /// Memory ran out.
    NoMemory,
}

impl From<NoMemory> for ListFault {
    ghost use Rattle.std.specs.Prelude.{◌≡◌};
    ghost use Rattle.world_api.specs.declared.files.ListFault.TheVariants.{NoMemory as Memory};

    ghost from_gives = { λ _ fault. fault ≡ Memory };

    fn from(_: NoMemory) -> ListFault {
        ListFault::NoMemory
    }
}

/// What reads the files and folders below the repository's root, and changes nothing. Nobody else writes there during a
/// command.
pub trait ReadFiles: Ground {
    /// What stands at the path. It changes nothing.
    fn kind(&mut self, at: &Rel) -> Result<Kind, Failed>
        ensures told { IsTrue Self.tells → IfOk result (λ kind.
            kind ≡ kind_of (item_at (tree_of (Self.history self.old)) at.now)) }
        ensures unchanged { IsUntouched Self.tells (Self.history self.old) (Self.history self.new) }
        ensures cause { HasCause (Self.faults self.old) (Self.faults self.new) result };

    /// Puts bytes of the file, from an offset on, at the front of the buffer, and answers how many: none
    /// only at or past the end, or where the buffer is empty. It changes nothing.
    fn read_at(&mut self, at: &Rel, from: u64, into: &mut [u8]) -> Result<usize, Failed>
        requires { IsTrue Self.tells → IsFileAt (tree_of (Self.history self.old)) at.now }
        ensures within { IfOk result (λ count. count ≤ length into.old) }
        ensures read { IsTrue Self.tells → IfOk result (λ count.
            ReadsFrom (item_at (tree_of (Self.history self.old)) at.now) from into.old into.new count) }
        ensures unchanged { IsUntouched Self.tells (Self.history self.old) (Self.history self.new) }
        ensures cause { HasCause (Self.faults self.old) (Self.faults self.new) result };

    /// The names of what stands directly in the folder, in the order of their bytes. It changes nothing.
    fn list(&mut self, alloc: Global, at: &Rel) -> Result<Texts, ListFault>
        requires { IsTrue Self.tells → IsFolderAt (tree_of (Self.history self.old)) at.now }
        ensures told { IsTrue Self.tells → IfOk result (λ names.
            names ≡ names_in (tree_of (Self.history self.old)) at.now) }
        ensures good { IfOk result AreNames }
        ensures unchanged { IsUntouched Self.tells (Self.history self.old) (Self.history self.new) }
        ensures cause { IsCaused (Self.faults self.old) (Self.faults self.new) (IsErrOf result Unlisted) };

    /// At each moment that is told, the parent of each member is a folder, and its path is one that a workspace
    /// may have.
    ghost stands: { (world : Self) → IsTrue Self.tells → HasTrees (Self.history world) };
}

/// What writes there too.
pub trait Files: ReadFiles {
    /// Removes what stands at the path, with all below it.
    fn clear(&mut self, at: &Rel) -> Result<(), Failed>
        requires { at.now ≢ [] }
        ensures cleared { IsTrue Self.tells → OnOk result (IsCleared at.now (Self.history self.new).present) }
        ensures moments { IsTrue Self.tells →
            PassesFrom (InClear at.now) (Self.history self.old) (Self.history self.new) }
        ensures cause { HasCause (Self.faults self.old) (Self.faults self.new) result };

    /// Makes the folder, and all that are missing above it. It changes nothing else.
    fn make_folder(&mut self, at: &Rel) -> Result<(), Failed>
        requires { IsTrue Self.tells → HasRoad at.now (tree_of (Self.history self.old)) }
        ensures made { IsTrue Self.tells → OnOk result (IsFolderAt (tree_of (Self.history self.new)) at.now) }
        ensures moments { IsTrue Self.tells →
            PassesFrom (InMakeFolder at.now) (Self.history self.old) (Self.history self.new) }
        ensures cause { HasCause (Self.faults self.old) (Self.faults self.new) result };

    /// Makes the lane an empty file, in place of what stands there, which may be lost in a stop. It makes the folders
    /// above it where they are missing; a file in place of the lower one gives way.
    fn begin(&mut self, lane: u32) -> Result<(), Failed>
        requires { IsTrue Self.tells → IsNoFileAt (tree_of (Self.history self.old)) dvc_path }
        ensures begun { IsTrue Self.tells → OnOk result (IsBegun lane (Self.history self.new).present) }
        ensures moments { IsTrue Self.tells →
            PassesFrom (InBegin lane) (Self.history self.old) (Self.history self.new) }
        ensures cause { HasCause (Self.faults self.old) (Self.faults self.new) result };

    /// Puts the bytes at the end of the lane. They may be lost in a stop.
    fn append(&mut self, lane: u32, bytes: &[u8]) -> Result<(), Failed>
        requires { IsTrue Self.tells → IsFileAt (tree_of (Self.history self.old)) (lane_path lane) }
        ensures appended { IsTrue Self.tells → OnOk result
            (IsAppended lane bytes.now (Self.history self.old).present (Self.history self.new).present) }
        ensures moments { IsTrue Self.tells →
            PassesFrom (InAppend lane) (Self.history self.old) (Self.history self.new) }
        ensures cause { HasCause (Self.faults self.old) (Self.faults self.new) result };

    /// Puts the lane on the disk, so that a stop leaves it whole.
    fn settle(&mut self, lane: u32) -> Result<(), Failed>
        requires { IsTrue Self.tells → IsFileAt (tree_of (Self.history self.old)) (lane_path lane) }
        ensures settled { IsTrue Self.tells → OnOk result
            (IsSettled lane (Self.history self.old).present (Self.history self.new).present) }
        ensures moments { IsTrue Self.tells →
            PassesFrom (InSettle lane) (Self.history self.old) (Self.history self.new) }
        ensures cause { HasCause (Self.faults self.old) (Self.faults self.new) result };

    /// Moves a settled lane to the path, in place of a file there. The path is old or new at each moment, and never missing.
    fn publish(&mut self, lane: u32, at: &Rel) -> Result<(), Failed>
        requires apart { under (lane_path lane) at.now ≡ false }
        requires settled { IsTrue Self.tells → IsFirmLane lane (Self.history self.old).present }
        requires room { IsTrue Self.tells → HasRoom at.now (tree_of (Self.history self.old)) }
        ensures published { IsTrue Self.tells → OnOk result
            (IsPublished lane at.now (Self.history self.old).present (Self.history self.new).present) }
        ensures moments { IsTrue Self.tells →
            PassesFrom (InPublish lane at.now) (Self.history self.old) (Self.history self.new) }
        ensures cause { HasCause (Self.faults self.old) (Self.faults self.new) result };
}
