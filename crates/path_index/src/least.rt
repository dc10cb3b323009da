// The least of some places.
ghost use Rattle.std.specs.Prelude.{ℕ, Bool, ◌||◌};
ghost use Rattle.path_index.specs.First.{IsFirst};
ghost use Rattle.path_index.specs.Table.{is_in};

// The least of the places.
pub(crate) fn least(places: &[usize]) -> Option<usize>
    ensures first { IsFirst (is_in places.now) result }
{
    let mut first = None;
    for place in places {
        first = earlier(first, Some(*place));
    }
    first
}

// The lesser of the two, where there are two.
pub(crate) fn earlier(a: Option<usize>, b: Option<usize>) -> Option<usize>
    ensures first { (p q : ℕ → Bool) → IsFirst p a → IsFirst q b → IsFirst (λ n. p n || q n) result }
{
    let Some(x) = a else {
        return b;
    };
    let Some(y) = b else {
        return a;
    };
    Some(x.min(y))
}
