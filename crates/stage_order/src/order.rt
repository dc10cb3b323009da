// The order in which stages have their turns.
ghost use Rattle.std.specs.Prelude.{◌≡◌, [], ◌<◌, ◌^◌, ℕ, length, IfOk};
ghost use Rattle.stage_order.specs.Order.{is_in, order};
ghost use Rattle.stage_order.specs.Seated.{is_marked, AreSeated};

use crate::waiting::{Waiting, all_waiting};
use dvc_base::{NoMemory, Numbers};
use std::alloc::Global;

/// Stages in order, and for each stage whether it stands there. Those in a cycle, or below one, don't.
#[derive(Drop)]
pub struct Ordered {
    pub order: Numbers,
    pub done: Vec<bool>,
}

/// Again and again the first stage that isn't done and whose stages above are all done.
pub fn order_of(alloc: Global, above: &[Numbers]) -> Result<Ordered, NoMemory>
    requires few { length above.now < 2 ^ 32 }
    ensures order { IfOk result (λ ordered. ordered.order ≡ order above.now) }
    ensures done { IfOk result (λ ordered. (s : ℕ) → is_marked ordered.done.items s ≡ is_in (order above.now) s) }
{
    let mut waiting = all_waiting(alloc, above)?;
    let order = turns(alloc, above, &mut waiting)?;
    Ok(Ordered {
        order,
        done: waiting.done,
    })
}

fn turns(alloc: Global, above: &[Numbers], waiting: &mut Waiting) -> Result<Numbers, NoMemory>
    requires seated { AreSeated above.now [] [] waiting.old.done.items waiting.old.ready.keys waiting.old.waits.items }
    ensures order { IfOk result (λ taken. taken ≡ order above.now) }
    ensures done { IfOk result (λ taken. (s : ℕ) → is_marked waiting.new.done.items s ≡ is_in taken s) }
{
    let mut order = Numbers::new(alloc);
    for _turn in 0..above.len() {
        match waiting.take_next(alloc, above)? {
            Some(stage) => order.push(stage)?,
            None => return Ok(order),
        }
    }
    Ok(order)
}
