// Track files, recorded one after another.
ghost use Rattle.std.specs.Prelude.{◌≡◌, ◌&&◌, [], ◌∷◌, map, IsTrue, IfOk, OnOk, IsErrOf};
ghost use Rattle.std.specs.List.{AllByRecursion};
ghost use Rattle.dvc_base.specs.Answer.{fault_in};
ghost use Rattle.dvc_base.specs.Fault.{MayBe, IsHonest};
ghost use Rattle.dvc_base.specs.declared.fault.Fault.TheVariants.{WorldFault};
ghost use Rattle.world_api.specs.History.{IsCaused};
ghost use Rattle.world_api.specs.Outside.{tree_of, PassesFrom};
ghost use Rattle.world_api.specs.Writes.{IsNewFile, InWrite, IsNoScratch, CanWrite};
ghost use Rattle.yaml_print.specs.Print.{print_text};
ghost use Rattle.lock_files.specs.Form.{IsTrack};
ghost use Rattle.lock_files.specs.Nodes.{track_node};
ghost use Rattle.stage_graph.specs.Paths.{folder_of};
ghost use Rattle.repro_laws.specs.Headline.{IsApart};
ghost use Rattle.repro_laws.specs.Moments.{is_own};
ghost use Rattle.repro_laws.specs.Sound.{IsAnswerAt};
ghost use Rattle.repro_core.specs.Steps.{InStored, record_kinds};
ghost use Rattle.track_record.specs.Sources.{source_paths, all_sources, entry_now, is_same, track_fault, tracks_fault};
ghost use Rattle.track_record.specs.Records.{AreTracked, AreReady, InRecords, AreRecorded, AreHeld, source_kinds, TellsOfSource};

use crate::source::put_entry;
use dvc_base::{Fault, Plain, Rel};
use file_bytes::write_bytes;
use lock_files::{PathEntries, Track, print_track};
use stage_graph::{TrackFile, folder_of};
use std::alloc::Global;
use world_api::Files;

/// Records track files, in their order: what stands at each out is put into the cache, and a file with an entry that differs from
/// what stands there is published with the new ones. Its other pairs stay.
///
/// The first refusal ends it, and is answered: an out where nothing stands, a limit, a file in the way of the cache.
pub fn record_tracks<F: Files>(
    alloc: Global,
    files: &mut F,
    tracks: &[TrackFile],
) -> Result<(), Fault>
    requires tracked { AreTracked tracks.now }
    requires ready { IsTrue F.tells → AreReady tracks.now (tree_of (F.history files.old)) }
    // Ok leaves each file as is due, and what the files name in the cache.
    ensures recorded { IsTrue F.tells → OnOk result
        (AreRecorded tracks.now (F.history files.old).present (F.history files.new).present) }
    // It answers the refusal that is due, where one is, and else Ok.
    ensures answer { IsTrue F.tells → IsAnswerAt (tree_of (F.history files.new)) (fault_in result)
        (tracks_fault (tree_of (F.history files.old)) tracks.now) }
    // In each moment a file is as it was, or has its new text and all that it names in the cache.
    ensures moments { IsTrue F.tells →
        PassesFrom (InRecords tracks.now) (F.history files.old) (F.history files.new) }
    // Without track files nothing is touched.
    ensures none { IsTrue F.tells → tracks.now ≡ [] → F.history files.new ≡ F.history files.old }
    ensures told { TellsOfSource (all_sources tracks.now) (fault_in result) }
    ensures kinds { MayBe source_kinds (fault_in result) }
    ensures honest { IsHonest F.tells (fault_in result) }
    ensures cause { IsCaused (F.faults files.old) (F.faults files.new) (IsErrOf result WorldFault) }
{
    for track in tracks {
        record_track(alloc, files, track)?;
    }
    Ok(())
}

// Records one track file.
fn record_track<F: Files>(alloc: Global, files: &mut F, track: &TrackFile) -> Result<(), Fault>
    requires tracked { AreTracked (track.now ∷ []) }
    requires ready { IsTrue F.tells → AreReady (track.now ∷ []) (tree_of (F.history files.old)) }
    ensures recorded { IsTrue F.tells → OnOk result
        (AreRecorded (track.now ∷ []) (F.history files.old).present (F.history files.new).present) }
    ensures answer { IsTrue F.tells → IsAnswerAt (tree_of (F.history files.new)) (fault_in result)
        (track_fault (tree_of (F.history files.old)) track.now) }
    ensures moments { IsTrue F.tells →
        PassesFrom (InRecords (track.now ∷ [])) (F.history files.old) (F.history files.new) }
    ensures told { TellsOfSource (source_paths track.now) (fault_in result) }
    ensures kinds { MayBe source_kinds (fault_in result) }
    ensures honest { IsHonest F.tells (fault_in result) }
    ensures cause { IsCaused (F.faults files.old) (F.faults files.new) (IsErrOf result WorldFault) }
{
    let found = put_sources(alloc, files, track)?;
    if found.same {
        return Ok(());
    }
    publish(alloc, files, track, found.outs)
}

// ---- the outs

/// The outs of a track file, with the names of what stands there.
#[derive(Drop)]
struct Found {
    outs: PathEntries,
    /// Whether each is as the file says.
    same: bool,
}

// Puts what stands at the outs of a track file into the cache.
fn put_sources<F: Files>(alloc: Global, files: &mut F, track: &TrackFile) -> Result<Found, Fault>
    requires outs { AllByRecursion (IsApart is_own) (source_paths track.now) }
    ensures outs { IsTrue F.tells → IfOk result (λ found.
        found.outs ≡ map (entry_now (folder_of track.now.file) (tree_of (F.history files.old))) track.now.track.outs) }
    ensures same { IsTrue F.tells → IfOk result (λ found.
        found.same ≡ is_same (tree_of (F.history files.old)) track.now) }
    ensures form { IsTrack track.now.track → IfOk result (λ found.
        IsTrack (record { outs = found.outs; rest = track.now.track.rest })) }
    ensures held { IsTrue F.tells → OnOk result
        (AreHeld (tree_of (F.history files.old)) (tree_of (F.history files.new)) track.now) }
    ensures answer { IsTrue F.tells → IsAnswerAt (tree_of (F.history files.new)) (fault_in result)
        (track_fault (tree_of (F.history files.old)) track.now) }
    ensures moments { IsTrue F.tells → PassesFrom InStored (F.history files.old) (F.history files.new) }
    ensures told { TellsOfSource (source_paths track.now) (fault_in result) }
    ensures kinds { MayBe source_kinds (fault_in result) }
    ensures honest { IsHonest F.tells (fault_in result) }
    ensures cause { IsCaused (F.faults files.old) (F.faults files.new) (IsErrOf result WorldFault) }
{
    let dir = folder_of(alloc, &track.file)?;
    put_outs(alloc, files, track, &dir)
}

// The same, where `dir` is the folder of the file.
fn put_outs<F: Files>(
    alloc: Global,
    files: &mut F,
    track: &TrackFile,
    dir: &Rel,
) -> Result<Found, Fault>
    requires dir { dir.now ≡ folder_of track.now.file }
    requires outs { AllByRecursion (IsApart is_own) (source_paths track.now) }
    ensures outs { IsTrue F.tells → IfOk result (λ found.
        found.outs ≡ map (entry_now (folder_of track.now.file) (tree_of (F.history files.old))) track.now.track.outs) }
    ensures same { IsTrue F.tells → IfOk result (λ found.
        found.same ≡ is_same (tree_of (F.history files.old)) track.now) }
    ensures form { IsTrack track.now.track → IfOk result (λ found.
        IsTrack (record { outs = found.outs; rest = track.now.track.rest })) }
    ensures held { IsTrue F.tells → OnOk result
        (AreHeld (tree_of (F.history files.old)) (tree_of (F.history files.new)) track.now) }
    ensures answer { IsTrue F.tells → IsAnswerAt (tree_of (F.history files.new)) (fault_in result)
        (track_fault (tree_of (F.history files.old)) track.now) }
    ensures moments { IsTrue F.tells → PassesFrom InStored (F.history files.old) (F.history files.new) }
    ensures told { TellsOfSource (source_paths track.now) (fault_in result) }
    ensures kinds { MayBe source_kinds (fault_in result) }
    ensures honest { IsHonest F.tells (fault_in result) }
    ensures cause { IsCaused (F.faults files.old) (F.faults files.new) (IsErrOf result WorldFault) }
{
    let mut found = Found {
        outs: PathEntries::new(alloc),
        same: true,
    };
    for entry in track.track.outs.as_slice() {
        let put = put_entry(alloc, files, dir, entry)?;
        found.same = are_both(found.same, put.same);
        found.outs.push(put.out)?;
    }
    Ok(found)
}

fn are_both(first: bool, second: bool) -> bool
    ensures exact { result ≡ (first && second) }
{
    first && second
}

// ---- the file

// Publishes a track file with these outs.
fn publish<F: Files>(
    alloc: Global,
    files: &mut F,
    track: &TrackFile,
    outs: PathEntries,
) -> Result<(), Fault>
    requires form { IsTrack (record { outs = outs; rest = track.now.track.rest }) }
    requires apart { IsNoScratch track.now.file }
    requires room { IsTrue F.tells → CanWrite track.now.file (tree_of (F.history files.old)) }
    ensures written { IsTrue F.tells → OnOk result (IsNewFile track.now.file
        (print_text (track_node (record { outs = outs; rest = track.now.track.rest }))) (F.history files.new).present) }
    ensures moments { IsTrue F.tells → PassesFrom
        (InWrite track.now.file (print_text (track_node (record { outs = outs; rest = track.now.track.rest }))))
        (F.history files.old) (F.history files.new) }
    ensures kinds { MayBe record_kinds (fault_in result) }
    ensures cause { IsCaused (F.faults files.old) (F.faults files.new) (IsErrOf result WorldFault) }
{
    let track_now = Track {
        outs,
        rest: track.track.rest.copy(alloc)?,
    };
    let text = print_track(alloc, &track_now)?;
    match write_bytes(files, &track.file, text.as_slice()) {
        Ok(()) => Ok(()),
        Err(_) => Err(Fault::WorldFault),
    }
}
