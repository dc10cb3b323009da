// The files of a world in memory.
ghost use Rattle.std.specs.Prelude.{◌≡◌, ◌≢◌, ◌≤◌, false, [], length, IfOk, IfErr};
ghost use Rattle.dvc_base.specs.Path.{under};
ghost use Rattle.world_api.specs.Tree.{item_at, names_in};
ghost use Rattle.world_api.specs.declared.files.ListFault.TheVariants.{NoMemory as Memory};
ghost use Rattle.world_api.specs.Outside.{tree_of};
ghost use Rattle.world_api.specs.Layout.{dvc_path, lane_path};
ghost use Rattle.world_api.specs.Calls.{kind_of, IsFileAt, ReadsFrom, IsRead};
ghost use Rattle.world_api.specs.Writes.{IsNoFileAt, HasRoad, IsFolderAt, HasRoom, IsFirmLane};
ghost use Rattle.sim_world.specs.Call.{Makes, IsSame, Counted};
ghost use Rattle.sim_world.specs.Change.{grown, cleared};
ghost use Rattle.sim_world.specs.Writing.{road_made, IsOnRoad, begun, IsBeginning, appended, firm, moved};

use crate::change::Change;
use crate::folder::names_in;
use crate::{Rule, SimWorld};
use dvc_base::{Failed, NoMemory, Plain, Rel, Texts};
use std::alloc::Global;
use world_api::{Files, Kind, ListFault, ReadFiles};

impl<R: Rule> ReadFiles for SimWorld<R> {
    ghost use Rattle.sim_world.specs.World.{history_in, counts_in};
    ghost use Rattle.sim_world.specs.Answer.{effect_of};
    ghost use Rattle.sim_world.specs.Stands.{stands as each_stands};

    fn kind(&mut self, at: &Rel) -> Result<Kind, Failed>
        ensures told { IfOk result (λ kind. kind ≡ kind_of (item_at (tree_of (history_in self.old)) at.now)) }
        ensures unchanged { history_in self.new ≡ history_in self.old }
        ensures count { Counted result (counts_in self.old) (counts_in self.new) }
    {
        Ok(self.tree().kind(at))
    }

    fn read_at(&mut self, at: &Rel, from: u64, into: &mut [u8]) -> Result<usize, Failed>
        requires { IsFileAt (tree_of (history_in self.old)) at.now }
        ensures within { IfOk result (λ count. count ≤ length into.old) }
        ensures read { IfOk result (λ count.
            ReadsFrom (item_at (tree_of (history_in self.old)) at.now) from into.old into.new count) }
        ensures unchanged { history_in self.new ≡ history_in self.old }
        ensures count { Counted result (counts_in self.old) (counts_in self.new) }
    {
        match self.tree().file(at) {
            Some(bytes) => Ok(read_from(bytes, from, into)),
            None => Ok(0),
        }
    }

    // The names take the caller's memory. Where that is short, nothing has failed in the world, and nothing is counted.
    fn list(&mut self, alloc: Global, at: &Rel) -> Result<Texts, ListFault>
        requires { IsFolderAt (tree_of (history_in self.old)) at.now }
        ensures told { IfOk result (λ names. names ≡ names_in (tree_of (history_in self.old)) at.now) }
        ensures memory { IfErr result (λ fault. fault ≡ Memory) }
        ensures unchanged { history_in self.new ≡ history_in self.old }
        ensures count { counts_in self.new ≡ counts_in self.old }
    {
        let names = names_in(alloc, self.tree(), at)?;
        Ok(names)
    }

    ghost stands = { λ w told. each_stands (effect_of R.effect) w.opening w.log.items w.trees };
}

// Each call says what history it makes. What the trait says of it follows from that.
impl<R: Rule> Files for SimWorld<R> {
    ghost use Rattle.sim_world.specs.World.{history_in, counts_in};

    fn clear(&mut self, at: &Rel) -> Result<(), Failed>
        requires { at.now ≢ [] }
        ensures made { Makes result (grown (cleared at.now)) IsSame
            (history_in self.old) (history_in self.new) }
        ensures count { Counted result (counts_in self.old) (counts_in self.new) }
    {
        let answer = self.log_clear(at);
        self.counted(answer)
    }

    fn make_folder(&mut self, at: &Rel) -> Result<(), Failed>
        requires { HasRoad at.now (tree_of (history_in self.old)) }
        ensures made { Makes result (road_made (length at.now) at.now) (IsOnRoad at.now)
            (history_in self.old) (history_in self.new) }
        ensures count { Counted result (counts_in self.old) (counts_in self.new) }
    {
        let answer = self.log_road(at);
        self.counted(answer)
    }

    fn begin(&mut self, lane: u32) -> Result<(), Failed>
        requires { IsNoFileAt (tree_of (history_in self.old)) dvc_path }
        ensures made { Makes result (begun lane) IsBeginning
            (history_in self.old) (history_in self.new) }
        ensures count { Counted result (counts_in self.old) (counts_in self.new) }
    {
        let answer = self.log_begin(lane);
        self.counted(answer)
    }

    fn append(&mut self, lane: u32, bytes: &[u8]) -> Result<(), Failed>
        requires { IsFileAt (tree_of (history_in self.old)) (lane_path lane) }
        ensures made { Makes result (appended lane bytes.now) IsSame
            (history_in self.old) (history_in self.new) }
        ensures count { Counted result (counts_in self.old) (counts_in self.new) }
    {
        let answer = self.log_append(lane, bytes);
        self.counted(answer)
    }

    fn settle(&mut self, lane: u32) -> Result<(), Failed>
        requires { IsFileAt (tree_of (history_in self.old)) (lane_path lane) }
        ensures made { Makes result (firm lane) IsSame
            (history_in self.old) (history_in self.new) }
        ensures count { Counted result (counts_in self.old) (counts_in self.new) }
    {
        let answer = self.make(Change::Settled { lane });
        self.counted(answer)
    }

    fn publish(&mut self, lane: u32, at: &Rel) -> Result<(), Failed>
        requires apart { under (lane_path lane) at.now ≡ false }
        requires settled { IsFirmLane lane (history_in self.old).present }
        requires room { HasRoom at.now (tree_of (history_in self.old)) }
        ensures made { Makes result (moved lane at.now) IsSame
            (history_in self.old) (history_in self.new) }
        ensures count { Counted result (counts_in self.old) (counts_in self.new) }
    {
        let answer = self.log_publish(lane, at);
        self.counted(answer)
    }
}

impl<R: Rule> SimWorld<R> {
    ghost use Rattle.sim_world.specs.World.{history_in, counts_in};

    fn log_clear(&mut self, at: &Rel) -> Result<(), NoMemory>
        ensures made { Makes result (grown (cleared at.now)) IsSame
            (history_in self.old) (history_in self.new) }
        ensures count { counts_in self.new ≡ counts_in self.old }
    {
        let at = at.copy(self.alloc())?;
        self.make(Change::Cleared { at })
    }
}

// Puts bytes from an offset on at the front of the buffer, as many as there are and fit.
fn read_from(bytes: &[u8], from: u64, into: &mut [u8]) -> usize
    ensures within { result ≤ length into.old }
    ensures read { IsRead bytes.now from into.old into.new result }
{
    if from >= bytes.len() as u64 {
        return 0;
    }
    let rest = &bytes[from as usize..];
    let count = rest.len().min(into.len());
    into[..count].copy_from_slice(&rest[..count]);
    count
}
