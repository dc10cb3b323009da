// The changes of a world in memory, of which its history is made.
ghost use Rattle.std.specs.Prelude.{◌≡◌, ◌<◌, ◌++◌, ◌∷◌, [], OnOk, OnErr};
ghost use Rattle.std.specs.Vec.{vec_len, vec_capacity};
ghost use Rattle.world_api.specs.Layout.{lane_path};
ghost use Rattle.world_api.specs.Tree.{IsTree};
ghost use Rattle.sim_world.specs.Applied.{tree_changed, jobs_changed};
ghost use Rattle.sim_world.specs.Edits.{left_tree, published_tree};

use crate::{Jobs, Tree, Value};
use dvc_base::{NoMemory, Plain, Rel};
use std::alloc::Global;
use world_api::{Job, lane_path};

// One step of the world, which is one moment.
#[derive(Drop)]
pub(crate) enum Change {
    // The value stands at the path, with the folders above it.
    Edited { at: Rel, value: Value },
    // What stands at or below the path is gone.
    Cleared { at: Rel },
    // The job has begun to write at or below its outputs.
    Started { job: Job },
    // A run left the value at the path.
    Left { at: Rel, value: Value },
    // The job has run.
    Ran { job: Job },
    // A folder stands at the path, in place of a file there.
    FolderMade { at: Rel },
    // The lane has the value, which may be lost in a stop.
    Written { lane: u32, value: Value },
    // The lane is on the disk.
    Settled { lane: u32 },
    // The value moved from the lane to the path.
    Published { lane: u32, at: Rel, value: Value },
    // The value at the path was met.
    Met { at: Rel },
}

// Makes the change of the tree and the jobs, or nothing at all.
fn apply(alloc: Global, tree: &mut Tree, jobs: &mut Jobs, change: &Change) -> Result<(), NoMemory>
    ensures tree_ok { OnOk result (tree.new ≡ tree_changed change.now tree.old) }
    ensures jobs_ok { OnOk result (jobs.new ≡ jobs_changed change.now jobs.old) }
    ensures tree_err { OnErr result (tree.new ≡ tree.old) }
    ensures jobs_err { OnErr result (jobs.new ≡ jobs.old) }
{
    match change {
        Change::Edited { at, value } => tree.edit(alloc, at, value),
        Change::Cleared { at } => {
            tree.clear(at);
            Ok(())
        }
        Change::Started { job: _ } => Ok(()),
        Change::Left { at, value } => tree.leave(alloc, at, value),
        Change::Ran { job } => add_job(alloc, jobs, job),
        Change::FolderMade { at } => tree.make(alloc, at),
        Change::Written { lane, value } => write_lane(alloc, tree, *lane, value),
        Change::Settled { lane: _ } => Ok(()),
        Change::Published { lane, at, value } => publish_lane(alloc, tree, *lane, at, value),
        Change::Met { at: _ } => Ok(()),
    }
}

fn add_job(alloc: Global, jobs: &mut Jobs, job: &Job) -> Result<(), NoMemory>
    ensures ok { OnOk result (jobs.new ≡ jobs.old ++ job.now ∷ []) }
    ensures err { OnErr result (jobs.new ≡ jobs.old) }
{
    let job = job.copy(alloc)?;
    jobs.push(job)
}

fn write_lane(alloc: Global, tree: &mut Tree, lane: u32, value: &Value) -> Result<(), NoMemory>
    ensures ok { OnOk result (tree.new ≡ left_tree (lane_path lane) value.now tree.old) }
    ensures err { OnErr result (tree.new ≡ tree.old) }
{
    let at = lane_path(alloc, lane)?;
    tree.leave(alloc, &at, value)
}

fn publish_lane(
    alloc: Global,
    tree: &mut Tree,
    lane: u32,
    at: &Rel,
    value: &Value,
) -> Result<(), NoMemory>
    ensures ok { OnOk result (tree.new ≡ published_tree (lane_path lane) at.now value.now tree.old) }
    ensures err { OnErr result (tree.new ≡ tree.old) }
{
    let from = lane_path(alloc, lane)?;
    tree.publish(alloc, &from, at, value)
}

// Makes the change and puts it at the end of the log, or does nothing at all.
pub(crate) fn record_change(
    alloc: Global,
    log: &mut Vec<Change>,
    tree: &mut Tree,
    jobs: &mut Jobs,
    change: Change,
) -> Result<(), NoMemory>
    ensures log_ok { OnOk result (log.new.items ≡ log.old.items ++ change ∷ []) }
    ensures tree_ok { OnOk result (tree.new ≡ tree_changed change tree.old) }
    ensures jobs_ok { OnOk result (jobs.new ≡ jobs_changed change jobs.old) }
    ensures log_err { OnErr result (log.new.items ≡ log.old.items) }
    ensures tree_err { OnErr result (tree.new ≡ tree.old) }
    ensures jobs_err { OnErr result (jobs.new ≡ jobs.old) }
    ensures trees { IsTree tree.new }
{
    let answer = apply_with_room(alloc, log, tree, jobs, &change);
    tree.check();
    put_last(log, change, answer)
}

// Makes room in the log, and then the change of the tree and the jobs; or nothing at all. So nothing is refused once the
// tree has changed.
fn apply_with_room(
    alloc: Global,
    log: &mut Vec<Change>,
    tree: &mut Tree,
    jobs: &mut Jobs,
    change: &Change,
) -> Result<(), NoMemory>
    ensures room { OnOk result (vec_len log.new < vec_capacity log.new) }
    ensures log_same { log.new.items ≡ log.old.items }
    ensures tree_ok { OnOk result (tree.new ≡ tree_changed change.now tree.old) }
    ensures jobs_ok { OnOk result (jobs.new ≡ jobs_changed change.now jobs.old) }
    ensures tree_err { OnErr result (tree.new ≡ tree.old) }
    ensures jobs_err { OnErr result (jobs.new ≡ jobs.old) }
{
    log.reserve(1)?;
    apply(alloc, tree, jobs, change)
}

// Puts the item at the end of a list that has room for it, where what came before went well. It is generic, so that its
// proof looks at no item's parts.
fn put_last<T: Drop>(
    list: &mut Vec<T>,
    item: T,
    answer: Result<(), NoMemory>,
) -> Result<(), NoMemory>
    requires { OnOk answer (vec_len list.old < vec_capacity list.old) }
    ensures same { result ≡ answer }
    ensures ok { OnOk result (list.new.items ≡ list.old.items ++ item ∷ []) }
    ensures err { OnErr result (list.new.items ≡ list.old.items) }
{
    match answer {
        Ok(()) => {
            if list.push(item).is_err() {
                unreachable!();
            }
            Ok(())
        }
        Err(why) => Err(why),
    }
}
