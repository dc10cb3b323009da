// Two lists in order, side by side.
ghost use Rattle.std.specs.Prelude.{◌≡◌, [], map, IfOk, MatchOption, option_copied};
ghost use Rattle.std.specs.declared.cmp.Ordering.{Ordering as AnOrdering};
ghost use Rattle.change_check.specs.Sides as spec;
ghost use Rattle.change_check.specs.Sides.{sides_of, IsFront};

use dvc_base::NoMemory;
use std::alloc::Global;
use std::cmp::Ordering;

// What stands in one order with others.
pub(crate) trait Beside<B> {
    ghost order: { Self → B → AnOrdering };

    fn order_to(&self, other: &B) -> Ordering
        ensures { result ≡ order self.now other.now };
}

// An item of one list or the other, or one of each where they tie.
#[derive(Drop)]
pub(crate) struct Sides<'a, A, B> {
    pub(crate) left: Option<&'a A>,
    pub(crate) right: Option<&'a B>,
}

// The first sides of two lists, and what is left of the lists.
#[derive(Drop)]
struct Front<'a, A, B> {
    sides: Sides<'a, A, B>,
    left: &'a [A],
    right: &'a [B],
}

// The items of two lists side by side. Where the lists are in order, so are these.
pub(crate) fn side_by_side<'a, A: Beside<B>, B>(
    alloc: Global,
    left: &'a [A],
    right: &'a [B],
) -> Result<Vec<Sides<'a, A, B>>, NoMemory>
    ensures exact { IfOk result (λ made. map sides_of made.items ≡ spec.pairs A.order left.now right.now) }
{
    let mut made = Vec::new(alloc);
    let mut xs = left;
    let mut ys = right;
    while let Some(front) = front_of(xs, ys) {
        made.push(front.sides)?;
        xs = front.left;
        ys = front.right;
    }
    Ok(made)
}

fn front_of<'a, A: Beside<B>, B>(left: &'a [A], right: &'a [B]) -> Option<Front<'a, A, B>>
    ensures front { MatchOption result
        (spec.pairs A.order left.now right.now ≡ [])
        (IsFront A.order left.now right.now) }
{
    match (left, right) {
        ([], []) => None,
        ([x, xs @ ..], []) => Some(front_with(Some(x), None, xs, right)),
        ([], [y, ys @ ..]) => Some(front_with(None, Some(y), left, ys)),
        ([x, xs @ ..], [y, ys @ ..]) => Some(match x.order_to(y) {
            Ordering::Less => front_with(Some(x), None, xs, right),
            Ordering::Equal => front_with(Some(x), Some(y), xs, ys),
            Ordering::Greater => front_with(None, Some(y), left, ys),
        }),
    }
}

fn front_with<'a, A, B>(
    x: Option<&'a A>,
    y: Option<&'a B>,
    left: &'a [A],
    right: &'a [B],
) -> Front<'a, A, B>
    ensures sides { sides_of result.sides ≡ (option_copied x.entry, option_copied y.entry) }
    ensures left { result.left.now ≡ left.now }
    ensures right { result.right.now ≡ right.now }
{
    Front {
        sides: Sides { left: x, right: y },
        left,
        right,
    }
}
