// What targets choose of a plan.
ghost use Rattle.std.specs.Prelude.{◌≡◌, IfOk, true, false};
ghost use Rattle.dvc_base.specs.Answer.{fault_in};
ghost use Rattle.dvc_base.specs.Fault.{MayBe};
ghost use Rattle.stage_plan.specs.Targets.{owners};
ghost use Rattle.stage_plan.specs.Plan.{IsPlan, chosen_by, owners_if, choice_of, target_kinds};
ghost use Rattle.workspace_files.specs.Read.{IsRead};

use crate::owners::owners;
use crate::plan::Plan;
use crate::targets::{check_targets, chosen, chosen_alone};
use crate::tracks::{track_numbers, tracks_alone};
use dvc_base::{Fault, NoMemory, Numbers, Rels, Text};
use std::alloc::Global;

/// The numbers of what targets choose.
#[derive(Drop)]
pub struct Chosen {
    /// Of stages, in dependency order.
    pub stages: Numbers,
    /// Of track files, in the order of their paths.
    pub tracks: Numbers,
}

impl Plan {
    /// What targets choose: stages by their names or groups, and track files by their paths; everything where there is no target.
    ///
    /// A stage brings all stages above it, and each chosen stage the track files of what it reads. A wide choice takes the paths
    /// of outputs and of what is tracked as targets too, and chooses what targets name alone.
    ///
    /// It answers `NoStage` with the first target that is none.
    pub fn choose(&self, alloc: Global, targets: &[Text], wide: bool) -> Result<Chosen, Fault>
        requires plan { IsPlan self.now }
        ensures chosen { IsRead result (choice_of wide targets.now self.now) }
        ensures kinds { MayBe target_kinds (fault_in result) }
    {
        let owned = self.owners_if(alloc, wide)?;
        check_targets(
            alloc,
            self.stages.as_slice(),
            self.tracks.as_slice(),
            owned.as_slice(),
            targets,
        )?;
        if wide {
            Ok(self.choose_alone(alloc, targets)?)
        } else {
            Ok(self.choose_above(alloc, targets)?)
        }
    }

    fn owners_if(&self, alloc: Global, wide: bool) -> Result<Rels, NoMemory>
        ensures exact { IfOk result (λ owned. owned ≡ owners_if wide self.now.stages self.now.tracks) }
    {
        if !wide {
            return Ok(Rels::new(alloc));
        }
        owners(alloc, self.stages.as_slice(), self.tracks.as_slice())
    }

    // With all that is above.
    fn choose_above(&self, alloc: Global, targets: &[Text]) -> Result<Chosen, NoMemory>
        requires plan { IsPlan self.now }
        ensures exact { IfOk result (λ made. made ≡ chosen_by false targets.now self.now.stages self.now.tracks) }
    {
        let stages = chosen(alloc, self.stages.as_slice(), &self.graph, targets)?;
        let tracks = track_numbers(
            alloc,
            self.stages.as_slice(),
            stages.as_slice(),
            self.tracks.as_slice(),
            targets,
        )?;
        Ok(Chosen { stages, tracks })
    }

    fn choose_alone(&self, alloc: Global, targets: &[Text]) -> Result<Chosen, NoMemory>
        requires plan { IsPlan self.now }
        ensures exact { IfOk result (λ made. made ≡ chosen_by true targets.now self.now.stages self.now.tracks) }
    {
        let stages = chosen_alone(alloc, self.stages.as_slice(), &self.graph, targets)?;
        let tracks = tracks_alone(
            alloc,
            self.stages.as_slice(),
            self.tracks.as_slice(),
            targets,
        )?;
        Ok(Chosen { stages, tracks })
    }
}
