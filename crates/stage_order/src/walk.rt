// The walk round a cycle.
ghost use Rattle.std.specs.Prelude.{◌≡◌, ◌<◌, ◌^◌, [], Some, length, suc, IfOk};
ghost use Rattle.std.specs.List.{range_with_len};
ghost use Rattle.stage_order.specs.Order.{above_of};
ghost use Rattle.stage_order.specs.Seated.{is_marked};
ghost use Rattle.stage_order.specs.Walk.{first_left, walk, first_walk};

use crate::marks::is_marked;
use dvc_base::{NoMemory, Numbers};
use std::alloc::Global;

/// The walk from the first stage that isn't done, each time to the first one that is left above the last, up to and with the
/// first repetition; none where all stages are done.
pub fn walk_of(alloc: Global, above: &[Numbers], done: &[bool]) -> Result<Option<Numbers>, NoMemory>
    requires few { length above.now < 2 ^ 32 }
    ensures exact { IfOk result (λ walked. walked ≡ first_walk above.now (is_marked done.now)) }
{
    match first_left(done, above.len() as u32) {
        Some(stage) => Ok(Some(walk(alloc, above, done, stage)?)),
        None => Ok(None),
    }
}

fn first_left(done: &[bool], count: u32) -> Option<u32>
    ensures exact { result ≡ first_left (is_marked done.now) (range_with_len 0 count) }
{
    for stage in 0..count {
        if !is_marked(done, stage) {
            return Some(stage);
        }
    }
    None
}

fn walk(alloc: Global, above: &[Numbers], done: &[bool], stage: u32) -> Result<Numbers, NoMemory>
    ensures exact { IfOk result (λ walked. walked ≡ walk above.now (is_marked done.now) stage) }
{
    let mut walked = Numbers::new(alloc);
    let mut last = stage;
    for _step in 0..above.len() + 1 {
        let seen = walked.as_slice().contains(&last);
        walked.push(last)?;
        if seen {
            return Ok(walked);
        }
        match left_above(above, done, last) {
            Some(stage) => last = stage,
            None => return Ok(walked),
        }
    }
    Ok(walked)
}

fn left_above(above: &[Numbers], done: &[bool], stage: u32) -> Option<u32>
    ensures exact { result ≡ first_left (is_marked done.now) (above_of above.now stage) }
{
    match above.get(stage as usize) {
        Some(numbers) => first_of(done, numbers.as_slice()),
        None => None,
    }
}

fn first_of(done: &[bool], numbers: &[u32]) -> Option<u32>
    ensures exact { result ≡ first_left (is_marked done.now) numbers.now }
{
    for number in numbers {
        if !is_marked(done, *number) {
            return Some(*number);
        }
    }
    None
}
