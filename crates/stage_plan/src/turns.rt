// What is to be done of a plan.
ghost use Rattle.std.specs.Prelude.{◌≡◌, ◌<◌, ◌++◌, ◌∷◌, [], length, slice_get, IfOk, OnOk};
ghost use Rattle.std.specs.List.{filter_map};
ghost use Rattle.stage_plan.specs.Plan.{turns_at, stage_at};

use crate::choose::Chosen;
use crate::plan::Plan;
use crate::planned::{outs_of_all, planned, stage_of};
use dvc_base::{NoMemory, Plain};
use path_index::PathIndex;
use repro_laws::{Stage, Stages};
use stage_graph::{TrackFile, Tracks};
use std::alloc::Global;

/// What is to be done for a choice.
#[derive(Drop)]
pub struct Turns {
    /// The stages that have turns, in their order.
    pub stages: Stages,
    /// The track files that are recorded before, in the order of their paths.
    pub tracks: Tracks,
}

impl Plan {
    /// The turns of the chosen stages, without the frozen ones, and the chosen track files.
    pub fn turns(&self, alloc: Global, chosen: &Chosen) -> Result<Turns, NoMemory>
        ensures exact { IfOk result (λ turns. turns ≡ turns_at self.now chosen.now) }
    {
        Ok(Turns {
            stages: planned(alloc, self.stages.as_slice(), chosen.stages.as_slice())?,
            tracks: tracks_at(alloc, self.tracks.as_slice(), chosen.tracks.as_slice())?,
        })
    }

    /// A stage as its turn takes it.
    pub fn stage(&self, alloc: Global, number: u32) -> Result<Stage, NoMemory>
        requires there { number < length self.now.stages }
        ensures exact { IfOk result (λ stage. stage ≡ stage_at self.now number) }
    {
        let stages = self.stages.as_slice();
        let outs = PathIndex::of(alloc, outs_of_all(alloc, stages)?)?;
        stage_of(alloc, &stages[number as usize], &outs)
    }
}

// The track files of these numbers.
fn tracks_at(alloc: Global, tracks: &[TrackFile], numbers: &[u32]) -> Result<Tracks, NoMemory>
    ensures exact { IfOk result (λ found. found ≡ filter_map (slice_get tracks.now) numbers.now) }
{
    let mut found = Tracks::new(alloc);
    for number in numbers {
        push_track(alloc, &mut found, tracks, *number)?;
    }
    Ok(found)
}

fn push_track(
    alloc: Global,
    found: &mut Tracks,
    tracks: &[TrackFile],
    number: u32,
) -> Result<(), NoMemory>
    ensures ok { OnOk result (found.new ≡ found.old ++ filter_map (slice_get tracks.now) (number ∷ [])) }
{
    match tracks.get(number as usize) {
        Some(track) => found.push(track.copy(alloc)?)?,
        None => (),
    }
    Ok(())
}
