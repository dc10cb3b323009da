// What is so of every order, and of what chosen stages bring.
ghost use Rattle.std.specs.Prelude.{ℕ, List};
ghost use Rattle.stage_order.specs.Order.{order};
ghost use Rattle.stage_order.specs.Brought.{brought};
ghost use Rattle.stage_order.specs.Closure.{StandsBehind, IsClosure};

/// In the order each stage stands once, and behind all that are above it.
pub fn order_law()
    ensures behind { (above : List (List ℕ)) → StandsBehind above (order above) }
{}

/// Chosen stages bring themselves and all that are above them, step by step, and no other.
pub fn brought_law()
    ensures closure { (above : List (List ℕ)) (chosen stages : List ℕ) → StandsBehind above stages → IsClosure above chosen stages (brought above chosen stages) }
{}
