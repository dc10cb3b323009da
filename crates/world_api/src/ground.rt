// What every part of a world tells.
ghost use Rattle.std.specs.Prelude.{Bool};
ghost use Rattle.world_api.specs.History.{History, Faults};

/// The meaning of a world: whether it tells what it holds, what it has held, and how often it has failed.
pub trait Ground {
    /// Whether the world tells what it holds. A real disk doesn't.
    ghost tells: { Bool };

    /// How often a call has failed. It never falls, and no caller can raise it.
    ghost faults: { Self → Faults };

    /// What the world holds, and each moment so far that a stop could have left.
    ghost history: { Self → History };
}
