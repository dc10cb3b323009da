// The files of a real folder.
ghost use Rattle.std.specs.Prelude.{◌≡◌, ◌≢◌, ◌≤◌, false, [], length, IfOk};
ghost use Rattle.dvc_base.specs.Path.{under};
ghost use Rattle.world_api.specs.Calls.{AreNames};
ghost use Rattle.world_api.specs.Layout.{lane_path};
ghost use Rattle.real_world.specs.Counting.{Counts};

use crate::RealWorld;
use dvc_base::{Failed, Rel, Texts};
use std::alloc::Global;
use std::process::Processes;
use std::rt::Runtime;
use world_api::{Files, Kind, ListFault, ReadFiles};

// Each call answers for its count alone. What the trait says of a failure's cause follows from that, and
// the rest of what it says holds where a world tells what it holds.
impl<R: Runtime + Processes + Send> ReadFiles for RealWorld<R> {
    fn kind(&mut self, at: &Rel) -> Result<Kind, Failed>
        ensures counted { Counts self.old.failures.count self.new.failures.count result }
    {
        self.folder.forget();
        let found = self.folder.look(at);
        self.failures.counted(found)
    }

    fn read_at(&mut self, at: &Rel, from: u64, into: &mut [u8]) -> Result<usize, Failed>
        ensures within { IfOk result (λ count. count ≤ length into.old) }
        ensures counted { Counts self.old.failures.count self.new.failures.count result }
    {
        let count = self.folder.read_at(at, from, into);
        self.failures.counted(count)
    }

    fn list(&mut self, alloc: Global, at: &Rel) -> Result<Texts, ListFault>
        ensures good { IfOk result AreNames }
        ensures counted { Counts self.old.failures.count self.new.failures.count result }
    {
        self.folder.forget();
        let names = self.folder.list(alloc, at);
        self.failures.counted_names(names)
    }

    ghost use Rattle.std.proofs.lemmas.Bool.{false≢true};

    ghost stands = { λ world told. absurd (false≢true told) };
}

impl<R: Runtime + Processes + Send> Files for RealWorld<R> {
    fn clear(&mut self, at: &Rel) -> Result<(), Failed>
        requires { at.now ≢ [] }
        ensures counted { Counts self.old.failures.count self.new.failures.count result }
    {
        let removed = self.folder.clear(at);
        self.failures.counted(removed)
    }

    fn make_folder(&mut self, at: &Rel) -> Result<(), Failed>
        ensures counted { Counts self.old.failures.count self.new.failures.count result }
    {
        self.folder.forget();
        let made = self.folder.make_folder(at);
        self.failures.counted(made)
    }

    fn begin(&mut self, lane: u32) -> Result<(), Failed>
        ensures counted { Counts self.old.failures.count self.new.failures.count result }
    {
        let begun = self.folder.begin(lane);
        self.failures.counted(begun)
    }

    fn append(&mut self, lane: u32, bytes: &[u8]) -> Result<(), Failed>
        ensures counted { Counts self.old.failures.count self.new.failures.count result }
    {
        let appended = self.folder.append(lane, bytes);
        self.failures.counted(appended)
    }

    fn settle(&mut self, lane: u32) -> Result<(), Failed>
        ensures counted { Counts self.old.failures.count self.new.failures.count result }
    {
        let settled = self.folder.settle(lane);
        self.failures.counted(settled)
    }

    fn publish(&mut self, lane: u32, at: &Rel) -> Result<(), Failed>
        requires { under (lane_path lane) at.now ≡ false }
        ensures counted { Counts self.old.failures.count self.new.failures.count result }
    {
        let published = self.folder.publish(lane, at);
        self.failures.counted(published)
    }
}
