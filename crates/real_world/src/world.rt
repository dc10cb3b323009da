// The world of a real folder.
ghost use Rattle.std.specs.Prelude.{◌≡◌, false, IfOk};
ghost use Rattle.real_world.specs.Told.{faults_of, nothing_told};

use crate::failures::Failures;
use crate::folder::Folder;
use dvc_base::NoMemory;
use std::alloc::Global;
use std::process::Processes;
use std::rt::Runtime;
use world_api::{Ground, World};

/// The files below a folder, and the programs that run there. It tells nothing of what they hold.
#[derive(Drop)]
pub struct RealWorld<R: Runtime> {
    pub(crate) folder: Folder<R>,
    pub(crate) failures: Failures,
}

impl<R: Runtime + Processes + Send> RealWorld<R> {
    /// The world below the folder of this path.
    pub fn new(rt: R, alloc: Global, root: &str) -> Result<RealWorld<R>, NoMemory>
        ensures fresh { IfOk result (λ world. (faults_of world.failures).count ≡ 0) }
    {
        Ok(RealWorld {
            folder: Folder::new(rt, alloc, root)?,
            failures: Failures::none(),
        })
    }
}

impl<R: Runtime + Processes + Send> Ground for RealWorld<R> {
    ghost tells = { false };

    ghost faults = { λ world. faults_of world.failures };

    ghost history = { λ _. nothing_told };
}

impl<R: Runtime + Processes + Send> World for RealWorld<R> {}
