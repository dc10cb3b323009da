// The track files of a workspace, read.
ghost use Rattle.std.specs.Prelude.{◌≡◌, ◌≤◌, length, IsTrue, IfOk, IsErrOf};
ghost use Rattle.dvc_base.specs.Answer.{fault_in};
ghost use Rattle.dvc_base.specs.Fault.{MayBe, IsHonest};
ghost use Rattle.dvc_base.specs.Limits.{limit_of};
ghost use Rattle.dvc_base.specs.declared.fault.Fault.TheVariants.{WorldFault};
ghost use Rattle.dvc_base.specs.declared.limits.What.TheVariants.{YamlText};
ghost use Rattle.world_api.specs.Tree.{item_at};
ghost use Rattle.world_api.specs.History.{IsCaused};
ghost use Rattle.world_api.specs.Outside.{tree_of, IsUntouched};
ghost use Rattle.lock_files.specs.Read.{track_read};
ghost use Rattle.workspace_files.specs.Read.{IsRead};
ghost use Rattle.workspace_files.specs.Tracks as spec;
ghost use Rattle.workspace_files.specs.Tracks.{track_at, track_or, tracks_of, IsTrackAt, AreTracks, record_kinds, track_kinds};

use crate::read::read_text;
use dvc_base::{Bytes, Fault, Plain, Rel};
use lock_files::{LockFault, read_track};
use stage_graph::{TrackFile, Tracks};
use std::alloc::Global;
use world_api::ReadFiles;

/// Reads the track files at the paths, in their order, up to the first refusal.
pub fn read_tracks<F: ReadFiles>(
    alloc: Global,
    files: &mut F,
    paths: &[Rel],
) -> Result<Tracks, Fault>
    ensures read { IsTrue F.tells → IsRead result (tracks_of (tree_of (F.history files.old)) paths.now) }
    // Over any world there is one for each path.
    ensures form { IfOk result (AreTracks paths.now) }
    ensures unchanged { IsUntouched F.tells (F.history files.old) (F.history files.new) }
    ensures kinds { MayBe track_kinds (fault_in result) }
    ensures honest { IsHonest F.tells (fault_in result) }
    ensures cause { IsCaused (F.faults files.old) (F.faults files.new) (IsErrOf result WorldFault) }
{
    let mut tracks = Tracks::new(alloc);
    for path in paths {
        tracks.push(read_file(alloc, files, path)?)?;
    }
    Ok(tracks)
}

fn read_file<F: ReadFiles>(alloc: Global, files: &mut F, at: &Rel) -> Result<TrackFile, Fault>
    ensures read { IsTrue F.tells →
        IsRead result (track_at at.now (item_at (tree_of (F.history files.old)) at.now)) }
    ensures form { IfOk result (IsTrackAt at.now) }
    ensures unchanged { IsUntouched F.tells (F.history files.old) (F.history files.new) }
    ensures kinds { MayBe track_kinds (fault_in result) }
    ensures honest { IsHonest F.tells (fault_in result) }
    ensures cause { IsCaused (F.faults files.old) (F.faults files.new) (IsErrOf result WorldFault) }
{
    match read_text(alloc, files, at)? {
        Some(text) => track_of(alloc, at, &text),
        None => Err(Fault::NoFile {
            file: at.copy(alloc)?,
        }),
    }
}

fn track_of(alloc: Global, at: &Rel, text: &Bytes) -> Result<TrackFile, Fault>
    requires short { length text.now ≤ limit_of YamlText }
    ensures read { IsRead result (track_or at.now (track_read text.now)) }
    ensures form { IfOk result (IsTrackAt at.now) }
    ensures kinds { MayBe record_kinds (fault_in result) }
{
    let file = at.copy(alloc)?;
    match read_track(alloc, text.as_slice()) {
        Ok(track) => Ok(TrackFile { file, track }),
        Err(why) => Err(track_answer(file, why)),
    }
}

// The answer to each refusal of a track file.
fn track_answer(file: Rel, why: LockFault) -> Fault
    ensures exact { result ≡ spec.track_answer file why }
{
    match why {
        LockFault::Yaml { fault } => Fault::Yaml { file, fault },
        LockFault::Schema { key } => Fault::Schema { file, key },
        LockFault::Unsupported { key } => Fault::Unsupported { file, key },
        LockFault::Legacy => Fault::Legacy { file },
        LockFault::NoMemory => Fault::NoMemory,
    }
}
