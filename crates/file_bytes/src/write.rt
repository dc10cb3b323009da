// A file of the tool's own, put in place of the old one as a whole.
ghost use Rattle.std.specs.Prelude.{IsTrue, OnOk};
ghost use Rattle.world_api.specs.Layout.{dvc_path, lane_path};
ghost use Rattle.world_api.specs.Calls.{IsFileAt};
ghost use Rattle.world_api.specs.Outside.{tree_of, PassesFrom};
ghost use Rattle.world_api.specs.History.{Passes, HasCause};
ghost use Rattle.world_api.specs.Writes.{IsNewFile, IsNoFileAt, InScratch, InWrite, IsNoScratch, CanWrite};

use dvc_base::{Failed, Rel};
use world_api::Files;

// The lane of all that is written at a stage's turn.
const LANE: u32 = 0;

/// Begins the lane of the writes. What can't be written is told by this before anything else is touched.
pub fn begin_write<F: Files>(files: &mut F) -> Result<(), Failed>
    requires { IsTrue F.tells → IsNoFileAt (tree_of (F.history files.old)) dvc_path }
    ensures begun { IsTrue F.tells → OnOk result (IsFileAt (tree_of (F.history files.new)) (lane_path 0)) }
    ensures moments { IsTrue F.tells → PassesFrom InScratch (F.history files.old) (F.history files.new) }
    ensures cause { HasCause (F.faults files.old) (F.faults files.new) result }
{
    files.begin(LANE)
}

/// Writes the bytes to the path, in place of a file there: at each moment the path is as it was, or has all of the
/// bytes and is on the disk. It takes no memory.
pub fn write_bytes<F: Files>(files: &mut F, at: &Rel, bytes: &[u8]) -> Result<(), Failed>
    requires apart { IsNoScratch at.now }
    requires place { IsTrue F.tells → CanWrite at.now (F.history files.old).present.tree }
    ensures written { IsTrue F.tells → OnOk result (IsNewFile at.now bytes.now (F.history files.new).present) }
    ensures moments { IsTrue F.tells →
        Passes (InWrite at.now bytes.now (F.history files.old).present) (F.history files.old) (F.history files.new) }
    ensures cause { HasCause (F.faults files.old) (F.faults files.new) result }
{
    files.begin(LANE)?;
    files.append(LANE, bytes)?;
    files.settle(LANE)?;
    files.publish(LANE, at)
}
