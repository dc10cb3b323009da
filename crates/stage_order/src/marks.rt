// Marks of numbers.
ghost use Rattle.std.specs.Prelude.{◌≡◌, true, false, MatchOption, slice_set};
ghost use Rattle.std.specs.List.{list_all};
ghost use Rattle.stage_order.specs.Order.{is_in};
ghost use Rattle.stage_order.specs.Seated.{is_marked};

pub fn is_marked(marks: &[bool], number: u32) -> bool
    ensures exact { result ≡ is_marked marks.now number }
{
    match marks.get(number as usize) {
        Some(mark) => *mark,
        None => false,
    }
}

pub fn mark(marks: &mut Vec<bool>, number: u32)
    ensures exact { marks.new.items ≡ slice_set marks.old.items number true }
{
    if let Some(mark) = marks.get_mut(number as usize) {
        *mark = true;
    }
}

/// The last of the numbers that isn't marked.
pub fn last_left(marks: &[bool], numbers: &[u32]) -> Option<u32>
    ensures left { MatchOption result
        (list_all (is_marked marks.now) numbers.now ≡ true)
        (λ a. (is_in numbers.now a ≡ true) × (is_marked marks.now a ≡ false)) }
{
    let mut left = None;
    for number in numbers {
        if !is_marked(marks, *number) {
            left = Some(*number);
        }
    }
    left
}
