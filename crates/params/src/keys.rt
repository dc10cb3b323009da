// What a key leads to.
ghost use Rattle.std.specs.Prelude.{◌≡◌, ◌==◌, ◌-◌, ◌^◌, ◌<◌, length, map, min, option_copied, option_map};
ghost use Rattle.std.specs.List.{slice_get, slice_split};
ghost use Rattle.lock_files.specs.Mapping as mapping;
ghost use Rattle.params.specs.Lookup as spec;
ghost use Rattle.params.specs.Lookup.{Bracket};

use crate::digits::{are_digits, number};
use dvc_base::{Node, Pair};

/// What a key such as `a.b[0]` leads to, if there is something.
pub fn lookup<'a>(node: &'a Node, key: &str) -> Option<&'a Node>
    ensures exact { option_copied result ≡ spec.lookup key.now node.now }
{
    let mut place = node;
    for part in key.split('.') {
        place = follow_part(place, part)?;
    }
    Some(place)
}

// Where a name with its brackets leads.
fn follow_part<'a>(node: &'a Node, part: &str) -> Option<&'a Node>
    ensures exact { option_copied result ≡ spec.follow (spec.steps_of_part part.now) node.now }
{
    match part.split_once('[') {
        Some((name, brackets)) => follow_brackets(named(node, name)?, brackets),
        None => named(node, part),
    }
}

// Where brackets lead, from behind the first that opens.
fn follow_brackets<'a>(node: &'a Node, brackets: &str) -> Option<&'a Node>
    ensures exact { option_copied result ≡ spec.follow (map Bracket (slice_split (λ b. b == 91) brackets.now)) node.now }
{
    let mut place = node;
    for bracket in brackets.split('[') {
        place = item_at(place, bracket)?;
    }
    Some(place)
}

fn named<'a>(node: &'a Node, name: &str) -> Option<&'a Node>
    ensures exact { option_copied result ≡ spec.named name.now node.now }
{
    match node {
        Node::Pairs(pairs) if !name.is_empty() => value_at(pairs.as_slice(), name),
        _ => None,
    }
}

/// The value under a key, if there is one.
pub fn value_at<'a>(pairs: &'a [Pair], key: &str) -> Option<&'a Node>
    ensures exact { option_copied result ≡ mapping.value_at key.now pairs.now }
{
    let mut rest = pairs;
    while let [pair, more @ ..] = rest {
        if pair.key.as_str() == key {
            return Some(&pair.value);
        }
        rest = more;
    }
    None
}

fn item_at<'a>(node: &'a Node, bracket: &str) -> Option<&'a Node>
    ensures exact { option_copied result ≡ spec.item_at bracket.now node.now }
{
    let place = place_in(bracket.as_bytes())?;
    match node {
        Node::Items(items) => nth(items.as_slice(), place),
        _ => None,
    }
}

// The number in a bracket, and 2^128 - 1 where it is more.
fn place_in(bracket: &[u8]) -> Option<u128>
    ensures exact { result ≡ option_map (λ n. min n (2 ^ 128 - 1)) (spec.place_in bracket.now) }
{
    let (last, digits) = bracket.split_last()?;
    if *last == b']' && are_digits(digits) {
        Some(number(digits))
    } else {
        None
    }
}

fn nth(items: &[Node], place: u128) -> Option<&Node>
    ensures exact { option_copied result ≡ slice_get items.now place }
    ensures short { length items.now < 2 ^ 64 }
{
    match usize::try_from(place) {
        Ok(place) => items.get(place),
        Err(_) => None,
    }
}
