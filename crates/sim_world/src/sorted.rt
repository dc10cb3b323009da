// Values by their paths, in the order of the paths.
ghost use Rattle.std.specs.Prelude.{◌≡◌, ◌++◌, not, map, IfOk, OnOk, OnErr, option_copied};
ghost use Rattle.std.specs.FinMap.{find, get, insert, empty, entries, retain_keys};
ghost use Rattle.dvc_base.specs.Path.{under};
ghost use Rattle.world_api.specs.Tree.{path_cmp};
ghost use Rattle.sim_world.specs.Sorted.{pair_of, pairs_of, IsPlace};

use dvc_base::{NoMemory, Plain, Rel, is_at_or_below, is_same};
use std::alloc::Global;
use std::cmp::Ordering;
use std::marker::Model;

// A value at one path.
#[derive(Drop)]
pub(crate) struct Member<V> {
    pub path: Rel,
    pub value: V,
}

impl<V: Plain> Plain for Member<V> {
    fn copy(&self, alloc: Global) -> Result<Member<V>, NoMemory> {
        Ok(Member {
            path: self.path.copy(alloc)?,
            value: self.value.copy(alloc)?,
        })
    }
}

// A map from paths to values.
#[derive(Drop)]
pub(crate) struct Sorted<V> {
    members: Vec<Member<V>>,
}

impl<V> Model for Sorted<V> {
    ghost use Rattle.std.specs.FinMap as finmap;
    ghost use Rattle.std.specs.Prelude.{ℕ, List};
    ghost use Rattle.std.specs.Coded.{coded_ℕ, coded_list};
    ghost use Rattle.world_api.specs.Tree.{path_cmp};

    ghost Value = { finmap.FinMap path_cmp V };

    ghost coded = { finmap.code (coded_list (coded_list coded_ℕ)) V.code };

    ghost use Rattle.sim_world.specs.Sorted.{pairs_of, IsInOrder};

    ghost view = { λ s. finmap.from_sorted (pairs_of s.members.items) };

    ghost invariant = { λ s. IsInOrder s.members.items };
}

impl<V> Sorted<V> {
    // No member. It takes no memory.
    pub fn new(alloc: Global) -> Sorted<V>
        ensures empty { result ≡ empty }
    {
        Sorted {
            members: Vec::new(alloc),
        }
    }

    // The members, in the order of their paths.
    pub fn as_slice(&self) -> &[Member<V>]
        ensures all { pairs_of result.now ≡ entries self.now }
    {
        self.members.as_slice()
    }

    pub fn get(&self, at: &Rel) -> Option<&V>
        ensures found { option_copied result ≡ get self.now at.now }
    {
        find(&self.members, at)
    }
}

impl<V: Drop> Sorted<V> {
    // Puts the value at the path, in place of the one there; or does nothing at all.
    pub fn put(&mut self, path: Rel, value: V) -> Result<(), NoMemory>
        ensures ok { OnOk result (self.new ≡ insert self.old path value) }
        ensures err { OnErr result (self.new ≡ self.old) }
    {
        let place = place_of(&self.members, &path);
        if place < self.members.len() && is_same(&self.members[place].path, &path) {
            self.members[place].value = value;
            return Ok(());
        }
        self.members.insert(place, Member { path, value })?;
        Ok(())
    }

    // Takes away what stands at or below the path.
    pub fn remove_below(&mut self, at: &Rel)
        ensures without { self.new ≡ retain_keys self.old (λ p. not (under at.now p)) }
    {
        self.members
            .retain(|member| !is_at_or_below(&member.path, at));
    }
}

impl<V: Plain> Plain for Sorted<V> {
    fn copy(&self, alloc: Global) -> Result<Sorted<V>, NoMemory> {
        let mut members = Vec::new(alloc);
        for member in self.members.as_slice() {
            members.push(member.copy(alloc)?)?;
        }
        Ok(Sorted { members })
    }
}

fn compare(a: &Rel, b: &Rel) -> Ordering
    ensures by_parts { result ≡ path_cmp a.now b.now }
{
    a.parts().cmp(b.parts())
}

// How many members stand before the path.
fn place_of<V>(members: &[Member<V>], at: &Rel) -> usize
    ensures place { IsPlace at.now (map (λ m. m.path) members.now) result }
{
    let mut place = 0;
    while place < members.len() && compare(at, &members[place].path) == Ordering::Greater {
        place += 1;
    }
    place
}

fn find<'a, V>(members: &'a [Member<V>], at: &Rel) -> Option<&'a V>
    ensures first { option_copied result ≡ find path_cmp at.now (pairs_of members.now) }
{
    for member in members {
        if is_same(&member.path, at) {
            return Some(&member.value);
        }
    }
    None
}
