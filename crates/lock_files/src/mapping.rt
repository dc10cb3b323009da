// What stands under the keys of a mapping, and as what a node is read.
ghost use Rattle.std.specs.Prelude.{◌≡◌, IsTrue, option_copied};
ghost use Rattle.std.specs.List.{list_all};
ghost use Rattle.dvc_base.specs.declared.node.Node.{out-Node};
ghost use Rattle.yaml_print.specs.Print.{value_of};
ghost use Rattle.lock_files.specs.Mapping as spec;

use dvc_base::{Node, Pair};

/// The value under a key, if there is one.
pub fn value_at<'a>(pairs: &'a [Pair], key: &str) -> Option<&'a Node>
    ensures exact { option_copied result ≡ spec.value_at key.now pairs.now }
{
    let mut rest = pairs;
    while let [pair, more @ ..] = rest {
        if pair.key.as_str() == key {
            return Some(&pair.value);
        }
        rest = more;
    }
    None
}

/// Whether something stands under a key.
pub fn has(pairs: &[Pair], key: &str) -> bool
    ensures exact { result ≡ spec.has key.now pairs.now }
{
    value_at(pairs, key).is_some()
}

/// The pairs of a mapping.
pub fn pairs_in(node: &Node) -> Option<&[Pair]>
    ensures exact { option_copied result ≡ spec.pairs_in node.now }
{
    match node {
        Node::Pairs(pairs) => Some(pairs.as_slice()),
        _ => None,
    }
}

/// The items of a list.
pub fn items_in(node: &Node) -> Option<&[Node]>
    ensures exact { option_copied result ≡ spec.items_in node.now }
{
    match node {
        Node::Items(items) => Some(items.as_slice()),
        _ => None,
    }
}

/// What a text holds.
pub fn text_in(node: &Node) -> Option<&str>
    ensures exact { option_copied result ≡ spec.text_in node.now }
{
    match node {
        Node::Text(text) => Some(text.as_str()),
        _ => None,
    }
}

/// A scalar's text as it was written. That of Null or a Bool is asked for nowhere.
fn scalar_in(node: &Node) -> Option<&str>
    ensures exact { option_copied result ≡ spec.scalar_in node.now }
{
    match node {
        Node::Whole { text, .. } => Some(text.as_str()),
        Node::Decimal { text } => Some(text.as_str()),
        Node::Text(text) => Some(text.as_str()),
        _ => None,
    }
}

/// A whole number that 64 bits hold.
fn number_in(node: &Node) -> Option<u64>
    ensures exact { result ≡ spec.number_in node.now }
{
    match node {
        Node::Whole { value, .. } => unsigned(*value),
        _ => None,
    }
}

fn unsigned(value: i128) -> Option<u64>
    ensures exact { result ≡ spec.unsigned value }
{
    u64::try_from(value).ok()
}

/// The text under a key.
pub fn text_at<'a>(pairs: &'a [Pair], key: &str) -> Option<&'a str>
    ensures exact { option_copied result ≡ spec.text_at key.now pairs.now }
{
    match value_at(pairs, key) {
        Some(node) => text_in(node),
        None => None,
    }
}

/// The text of the scalar under a key, as it was written.
pub fn scalar_at<'a>(pairs: &'a [Pair], key: &str) -> Option<&'a str>
    ensures exact { option_copied result ≡ spec.scalar_at key.now pairs.now }
{
    match value_at(pairs, key) {
        Some(node) => scalar_in(node),
        None => None,
    }
}

/// The number under a key.
pub fn number_at(pairs: &[Pair], key: &str) -> Option<u64>
    ensures exact { result ≡ spec.number_at key.now pairs.now }
{
    match value_at(pairs, key) {
        Some(node) => number_in(node),
        None => None,
    }
}

/// Whether this Bool stands under a key.
pub fn is_bool_at(pairs: &[Pair], key: &str, bit: bool) -> bool
    ensures exact { result ≡ spec.is_bool_at key.now bit pairs.now }
{
    match value_at(pairs, key) {
        Some(node) => is_bool(node, bit),
        None => false,
    }
}

fn is_bool(node: &Node, bit: bool) -> bool
    ensures exact { result ≡ spec.is_bool_of bit (out-Node node.now) }
{
    match node {
        Node::Bool(found) => *found == bit,
        _ => false,
    }
}

/// Whether this is the text that was found.
pub fn is_text(found: Option<&str>, text: &str) -> bool
    ensures exact { result ≡ spec.is_text text.now (option_copied found.entry) }
{
    match found {
        Some(found) => found == text,
        None => false,
    }
}

/// Whether at most `depth` collections stand in one another.
#[cycle(within)]
pub fn is_within(depth: usize, node: &Node) -> bool
    ensures exact { result ≡ spec.is_within depth node.now }
{
    if depth == 0 {
        is_scalar(node)
    } else {
        is_within_layer(depth - 1, node)
    }
}

fn is_scalar(node: &Node) -> bool
    ensures exact { result ≡ spec.is_scalar_of (out-Node node.now) }
{
    !matches!(node, Node::Items(_) | Node::Pairs(_))
}

/// Whether this is so of what stands in a collection.
#[cycle(within)]
fn is_within_layer(depth: usize, node: &Node) -> bool
    ensures exact { result ≡ spec.all_inside (spec.is_within depth) (out-Node node.now) }
{
    match node {
        Node::Items(items) => are_within(depth, items.as_slice()),
        Node::Pairs(pairs) => values_are_within(depth, pairs.as_slice()),
        _ => true,
    }
}

#[cycle(within)]
fn are_within(depth: usize, mut nodes: &[Node]) -> bool
    ensures exact { result ≡ list_all (spec.is_within depth) nodes.entry.now }
{
    while let [node, more @ ..] = nodes {
        if !is_within(depth, node) {
            return false;
        }
        nodes = more;
    }
    true
}

#[cycle(within)]
fn values_are_within(depth: usize, mut pairs: &[Pair]) -> bool
    ensures exact { result ≡ list_all (λ p. spec.is_within depth (value_of p)) pairs.entry.now }
{
    while let [pair, more @ ..] = pairs {
        if !is_within(depth, &pair.value) {
            return false;
        }
        pairs = more;
    }
    true
}
