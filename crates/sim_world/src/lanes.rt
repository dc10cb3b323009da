// The lanes of a world in memory, in which new bytes stand until they are published.
ghost use Rattle.std.specs.Prelude.{◌≡◌, ◌++◌, length, IfOk};
ghost use Rattle.world_api.specs.Tree.{item_at};
ghost use Rattle.sim_world.specs.Call.{Makes, IsSame};
ghost use Rattle.sim_world.specs.Writing.{held, lane_bytes, made_once, road_made, IsOnRoad, with_tmp, begun, IsMakingTmp, IsBeginning, appended, moved};

use crate::change::Change;
use crate::paths::{is_root, parent_of};
use crate::{Rule, SimWorld, Tree, Value};
use dvc_base::{Bytes, NoMemory, Plain, Rel};
use std::alloc::Global;
use world_api::{dvc_path, lane_path, tmp_path};

impl<R: Rule> SimWorld<R> {
    ghost use Rattle.sim_world.specs.World.{history_in, counts_in};

    // Makes the lane an empty file, and the folders above it where they are missing.
    pub(crate) fn log_begin(&mut self, lane: u32) -> Result<(), NoMemory>
        ensures made { Makes result (begun lane) IsBeginning
            (history_in self.old) (history_in self.new) }
        ensures count { counts_in self.new ≡ counts_in self.old }
    {
        self.make_tmp()?;
        let value = Value::File(Bytes::of(self.alloc(), b"")?);
        self.make(Change::Written { lane, value })
    }

    // Makes the folder of the lanes, and the one above it.
    fn make_tmp(&mut self) -> Result<(), NoMemory>
        ensures made { Makes result with_tmp IsMakingTmp
            (history_in self.old) (history_in self.new) }
        ensures count { counts_in self.new ≡ counts_in self.old }
    {
        self.make_missing(dvc_path(self.alloc())?)?;
        self.make_missing(tmp_path(self.alloc())?)
    }

    // Makes the folder, where it doesn't stand.
    fn make_missing(&mut self, at: Rel) -> Result<(), NoMemory>
        ensures made { Makes result (made_once at) IsSame
            (history_in self.old) (history_in self.new) }
        ensures count { counts_in self.new ≡ counts_in self.old }
    {
        if self.tree().is_folder(&at) {
            return Ok(());
        }
        self.make(Change::FolderMade { at })
    }

    // Makes the folder, and those above it that are missing, from above down.
    pub(crate) fn log_road(&mut self, at: &Rel) -> Result<(), NoMemory>
        ensures made { Makes result (road_made (length at.now) at.now) (IsOnRoad at.now)
            (history_in self.old) (history_in self.new) }
        ensures count { counts_in self.new ≡ counts_in self.old }
    {
        if is_root(at) {
            return Ok(());
        }
        let above = parent_of(self.alloc(), at)?;
        self.log_road(&above)?;
        self.make_last(at)
    }

    // Makes the folder, where it doesn't stand.
    fn make_last(&mut self, at: &Rel) -> Result<(), NoMemory>
        ensures made { Makes result (made_once at.now) IsSame
            (history_in self.old) (history_in self.new) }
        ensures count { counts_in self.new ≡ counts_in self.old }
    {
        self.make_missing(at.copy(self.alloc())?)
    }

    pub(crate) fn log_append(&mut self, lane: u32, bytes: &[u8]) -> Result<(), NoMemory>
        ensures made { Makes result (appended lane bytes.now) IsSame
            (history_in self.old) (history_in self.new) }
        ensures count { counts_in self.new ≡ counts_in self.old }
    {
        let value = Value::File(longer(self.alloc(), self.tree(), lane, bytes)?);
        self.make(Change::Written { lane, value })
    }

    pub(crate) fn log_publish(&mut self, lane: u32, at: &Rel) -> Result<(), NoMemory>
        ensures made { Makes result (moved lane at.now) IsSame
            (history_in self.old) (history_in self.new) }
        ensures count { counts_in self.new ≡ counts_in self.old }
    {
        let value = Value::File(longer(self.alloc(), self.tree(), lane, b"")?);
        let at = at.copy(self.alloc())?;
        self.make(Change::Published { lane, at, value })
    }
}

// What the lane holds, with more bytes behind it.
fn longer(alloc: Global, tree: &Tree, lane: u32, bytes: &[u8]) -> Result<Bytes, NoMemory>
    ensures grown { IfOk result (λ all. all ≡ lane_bytes lane tree.now ++ bytes.now) }
{
    let at = lane_path(alloc, lane)?;
    let mut all = Vec::from_slice(alloc, held(tree, &at))?;
    all.extend_from_slice(bytes)?;
    Ok(Bytes::from_vec(all))
}

// The bytes of the file at the path; none where another thing stands.
fn held<'a>(tree: &'a Tree, at: &Rel) -> &'a [u8]
    ensures told { result.now ≡ held (item_at tree.now at.now) }
{
    match tree.file(at) {
        Some(bytes) => bytes,
        None => &[],
    }
}
