// Whether two nodes are the same value.
ghost use Rattle.std.specs.Prelude.{◌≡◌, ◌↔◌, ℕ, IsTrue, map, option_copied};
ghost use Rattle.std.specs.List.{list_all};
ghost use Rattle.dvc_base.specs.declared.node.Node.{out-Node};
ghost use Rattle.yaml_nodes.specs.Part.{key_of};
ghost use Rattle.yaml_print.specs.Print.{value_of};
ghost use Rattle.yaml_print.specs.Sound.{Each, IsProper, IsSound};
ghost use Rattle.lock_files.specs.Mapping as mapping;
ghost use Rattle.params.specs.Canonical.{canonical};
ghost use Rattle.params.specs.Canonical as spec;

use crate::keys::value_at;
use crate::number::{Number, decimal_number, is_one, whole_number};
use dvc_base::{Node, Pair};

/// Whether two nodes are the same value: numbers by their values, mappings as sets of pairs, and all else as it
/// stands.
#[cycle(same)]
pub fn same_value(a: &Node, b: &Node) -> bool
    ensures same { (d : ℕ) → IsSound d a.now → IsSound d b.now
        → IsTrue result ↔ (canonical d a.now ≡ canonical d b.now) }
{
    match a {
        Node::Null => is_null(b),
        Node::Bool(bit) => is_bool(b, *bit),
        Node::Whole { value, .. } => is_number(b, whole_number(*value)),
        Node::Decimal { text } => is_number(b, decimal_number(text.as_str().as_bytes())),
        Node::Text(text) => is_text(b, text.as_str()),
        Node::Items(items) => match items_in(b) {
            Some(others) => are_same(items.as_slice(), others),
            None => false,
        },
        Node::Pairs(pairs) => match pairs_in(b) {
            Some(others) => {
                if !stand_in(pairs.as_slice(), others) {
                    return false;
                }
                have_keys(others, pairs.as_slice())
            }
            None => false,
        },
    }
}

#[cycle(same)]
fn are_same(items: &[Node], others: &[Node]) -> bool
    ensures same { (d : ℕ) → Each (IsSound d) items.now → Each (IsSound d) others.now
        → IsTrue result ↔ (map (canonical d) items.now ≡ map (canonical d) others.now) }
{
    let mut rest = others;
    for item in items {
        match rest.split_first() {
            None => return false,
            Some((other, more)) => {
                if !same_value(item, other) {
                    return false;
                }
                rest = more;
            }
        }
    }
    rest.len() == 0
}

// Whether the same value stands under each key of the first mapping in the second.
#[cycle(same)]
fn stand_in(pairs: &[Pair], others: &[Pair]) -> bool
    ensures same { (d : ℕ) → Each (λ p. IsSound d (value_of p)) pairs.now → Each (λ p. IsSound d (value_of p)) others.now
        → IsTrue result ↔ Each (spec.StandsIn (canonical d) others.now) pairs.now }
{
    for pair in pairs {
        match value_at(others, pair.key.as_str()) {
            None => return false,
            Some(value) => {
                if !same_value(&pair.value, value) {
                    return false;
                }
            }
        }
    }
    true
}

// Whether each key of the first mapping stands in the second.
fn have_keys(pairs: &[Pair], others: &[Pair]) -> bool
    ensures exact { result ≡ list_all (λ p. mapping.has (key_of p) others.now) pairs.now }
{
    let mut rest = pairs;
    while let [pair, more @ ..] = rest {
        if value_at(others, pair.key.as_str()).is_none() {
            return false;
        }
        rest = more;
    }
    true
}

fn is_null(node: &Node) -> bool
    ensures exact { result ≡ mapping.is_null_of (out-Node node.now) }
{
    matches!(node, Node::Null)
}

fn is_bool(node: &Node, bit: bool) -> bool
    ensures exact { result ≡ mapping.is_bool_of bit (out-Node node.now) }
{
    match node {
        Node::Bool(found) => *found == bit,
        _ => false,
    }
}

fn is_text(node: &Node, text: &str) -> bool
    ensures exact { result ≡ mapping.is_text text.now (mapping.text_in node.now) }
{
    match node {
        Node::Text(found) => found.as_str() == text,
        _ => false,
    }
}

fn items_in(node: &Node) -> Option<&[Node]>
    ensures exact { option_copied result ≡ mapping.items_in node.now }
{
    match node {
        Node::Items(items) => Some(items.as_slice()),
        _ => None,
    }
}

fn pairs_in(node: &Node) -> Option<&[Pair]>
    ensures exact { option_copied result ≡ mapping.pairs_in node.now }
{
    match node {
        Node::Pairs(pairs) => Some(pairs.as_slice()),
        _ => None,
    }
}

fn is_number(node: &Node, number: Number) -> bool
    ensures exact { IsProper (out-Node node.now) → result ≡ spec.is_number number (spec.number_in (out-Node node.now)) }
{
    match number_in(node) {
        Some(found) => is_one(number, found),
        None => false,
    }
}

fn number_in(node: &Node) -> Option<Number>
    ensures exact { IsProper (out-Node node.now) → result ≡ spec.number_in (out-Node node.now) }
{
    match node {
        Node::Whole { value, .. } => Some(whole_number(*value)),
        Node::Decimal { text } => Some(decimal_number(text.as_str().as_bytes())),
        _ => None,
    }
}
