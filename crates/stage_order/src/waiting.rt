// The stages that are not done: those that are ready, and for each stage those that wait for it.
//
// A stage waits for one stage at a time, the last of those above it that are not done. So when a stage is done, only those
// that wait for it are looked at again.
ghost use Rattle.std.specs.Prelude.{◌≡◌, ◌++◌, ◌∷◌, [], ◌<◌, ◌^◌, ℕ, List, true, false, length, replicate, IfOk, OnOk, MatchOption, slice_set};
ghost use Rattle.std.specs.List.{range_with_len};
ghost use Rattle.stage_order.specs.Order.{next};
ghost use Rattle.stage_order.specs.Seated.{waits_for, AreSeated};

use crate::marks::{is_marked, last_left, mark};
use dvc_base::{NoMemory, Numbers};
use std::alloc::Global;
use std::collections::BTreeSet;
use std::mem;

#[derive(Drop)]
pub struct Waiting {
    pub done: Vec<bool>,
    pub ready: BTreeSet<u32>,
    pub waits: Vec<Numbers>,
}

/// All stages, of which none is done.
pub fn all_waiting(alloc: Global, above: &[Numbers]) -> Result<Waiting, NoMemory>
    requires few { length above.now < 2 ^ 32 }
    ensures seated { IfOk result (λ w. AreSeated above.now [] [] w.done.items w.ready.keys w.waits.items) }
{
    let mut waiting = Waiting {
        done: unmarked(alloc, above.len())?,
        ready: BTreeSet::new(alloc),
        waits: no_waits(alloc, above.len())?,
    };
    waiting.seat_all(above)?;
    Ok(waiting)
}

fn unmarked(alloc: Global, count: usize) -> Result<Vec<bool>, NoMemory>
    ensures same { IfOk result (λ marks. marks.items ≡ replicate count false) }
{
    Ok(vec![in alloc; false; count]?)
}

fn no_waits(alloc: Global, count: usize) -> Result<Vec<Numbers>, NoMemory>
    ensures same { IfOk result (λ waits. waits.items ≡ replicate count []) }
{
    let mut waits = Vec::new(alloc);
    for _done in 0..count {
        waits.push(Numbers::new(alloc))?;
    }
    Ok(waits)
}

impl Waiting {
    fn seat_all(&mut self, above: &[Numbers]) -> Result<(), NoMemory>
        requires few { length above.now < 2 ^ 32 }
        ensures seated { OnOk result ((done : List ℕ)
            → AreSeated above.now done (range_with_len 0 (length above.now)) self.old.done.items self.old.ready.keys self.old.waits.items
            → AreSeated above.now done [] self.new.done.items self.new.ready.keys self.new.waits.items) }
    {
        let count = above.len() as u32;
        for stage in 0..count {
            self.seat(above, stage)?;
        }
        Ok(())
    }

    // Lets a stage be ready, or wait.
    fn seat(&mut self, above: &[Numbers], stage: u32) -> Result<(), NoMemory>
        ensures seated { OnOk result ((done pending : List ℕ)
            → AreSeated above.now done (stage ∷ pending) self.old.done.items self.old.ready.keys self.old.waits.items
            → AreSeated above.now done pending self.new.done.items self.new.ready.keys self.new.waits.items) }
    {
        if is_marked(&self.done, stage) {
            return Ok(());
        }
        let Some(needed) = above.get(stage as usize) else {
            return Ok(());
        };
        match last_left(&self.done, needed.as_slice()) {
            Some(other) => let_wait(&mut self.waits, other, stage),
            None => {
                self.ready.insert(stage)?;
                Ok(())
            }
        }
    }

    /// Takes the next stage, which is done then; none where no stage is ready.
    pub fn take_next(&mut self, alloc: Global, above: &[Numbers]) -> Result<Option<u32>, NoMemory>
        ensures next { IfOk result (λ taken. (done : List ℕ)
            → AreSeated above.now done [] self.old.done.items self.old.ready.keys self.old.waits.items
            → (taken ≡ next above.now done)
            × MatchOption taken (AreSeated above.now done [] self.new.done.items self.new.ready.keys self.new.waits.items)
            (λ s. AreSeated above.now (done ++ s ∷ []) [] self.new.done.items self.new.ready.keys self.new.waits.items)) }
    {
        let Some(stage) = self.ready.pop_first() else {
            return Ok(None);
        };
        let waiting = self.finish(alloc, stage);
        self.seat_each(above, waiting.as_slice())?;
        Ok(Some(stage))
    }

    // Marks a stage as done; the answer is those that waited for it.
    fn finish(&mut self, alloc: Global, stage: u32) -> Numbers
        ensures waited { result ≡ waits_for self.old.waits.items stage }
        ensures done { self.new.done.items ≡ slice_set self.old.done.items stage true }
        ensures waits { self.new.waits.items ≡ slice_set self.old.waits.items stage [] }
        ensures ready { self.new.ready.keys ≡ self.old.ready.keys }
    {
        mark(&mut self.done, stage);
        match self.waits.get_mut(stage as usize) {
            Some(waiting) => mem::replace(waiting, Numbers::new(alloc)),
            None => Numbers::new(alloc),
        }
    }

    fn seat_each(&mut self, above: &[Numbers], stages: &[u32]) -> Result<(), NoMemory>
        ensures seated { OnOk result ((done : List ℕ)
            → AreSeated above.now done stages.now self.old.done.items self.old.ready.keys self.old.waits.items
            → AreSeated above.now done [] self.new.done.items self.new.ready.keys self.new.waits.items) }
    {
        for stage in stages {
            self.seat(above, *stage)?;
        }
        Ok(())
    }
}

fn let_wait(waits: &mut Vec<Numbers>, other: u32, stage: u32) -> Result<(), NoMemory>
    ensures ok { OnOk result (waits.new.items ≡ slice_set waits.old.items other (waits_for waits.old.items other ++ stage ∷ [])) }
{
    match waits.get_mut(other as usize) {
        Some(waiting) => waiting.push(stage),
        None => Ok(()),
    }
}
