// Nodes, as the schema sees them.
ghost use Rattle.std.specs.Prelude.{◌≡◌, MatchOption};
ghost use Rattle.dvc_base.specs.declared.node.Node.{out-Node};
ghost use Rattle.dvc_base.specs.declared.node.Node.TheOpen.{Node-F};
ghost use Rattle.stage_schema.specs.Node.{is_text, text_of, is_bool, is_true, is_false, is_null, is_list, items_of, is_mapping, pairs_of, has_key, value_at, begins, has_part};

use dvc_base::{Node, Pair};

pub fn is_text(node: &Node) -> bool
    ensures exact { result ≡ is_text (out-Node node.now) }
{
    matches!(node, Node::Text(_))
}

/// The text, or the empty one for any other node.
pub fn text_of(node: &Node) -> &str
    ensures same { result.now ≡ text_of (out-Node node.now) }
{
    match node {
        Node::Text(text) => text.as_str(),
        _ => "",
    }
}

pub fn is_bool(node: &Node) -> bool
    ensures exact { result ≡ is_bool (out-Node node.now) }
{
    matches!(node, Node::Bool(_))
}

pub fn is_true(node: &Node) -> bool
    ensures exact { result ≡ is_true (out-Node node.now) }
{
    match node {
        Node::Bool(bit) => *bit,
        _ => false,
    }
}

pub fn is_false(node: &Node) -> bool
    ensures exact { result ≡ is_false (out-Node node.now) }
{
    match node {
        Node::Bool(bit) => !*bit,
        _ => false,
    }
}

pub fn is_null(node: &Node) -> bool
    ensures exact { result ≡ is_null (out-Node node.now) }
{
    matches!(node, Node::Null)
}

/// Whether it is a list, for which Null may stand.
pub fn is_list(node: &Node) -> bool
    ensures exact { result ≡ is_list (out-Node node.now) }
{
    matches!(node, Node::Null | Node::Items(_))
}

/// The items of a list; none of any other node.
pub fn items_of(node: &Node) -> &[Node]
    ensures same { result.now ≡ items_of (out-Node node.now) }
{
    match node {
        Node::Items(items) => items.as_slice(),
        _ => &[],
    }
}

/// Whether it is a mapping, for which Null may stand.
pub fn is_mapping(node: &Node) -> bool
    ensures exact { result ≡ is_mapping (out-Node node.now) }
{
    matches!(node, Node::Null | Node::Pairs(_))
}

/// The pairs of a mapping; none of any other node.
pub fn pairs_of(node: &Node) -> &[Pair]
    ensures same { result.now ≡ pairs_of (out-Node node.now) }
{
    match node {
        Node::Pairs(pairs) => pairs.as_slice(),
        _ => &[],
    }
}

pub fn has_key(pairs: &[Pair], key: &str) -> bool
    ensures exact { result ≡ has_key key.now pairs.now }
{
    pairs.iter().any(|pair| pair.key.as_str() == key)
}

/// The value at the key, if there is one.
pub fn value_at<'a>(pairs: &'a [Pair], key: &str) -> Option<&'a Node>
    ensures exact { let value = value_at key.now pairs.now in
        MatchOption result (value ≡ Node-F.Null) (λ node. value ≡ out-Node node.now) }
{
    let mut rest = pairs;
    while let [pair, more @ ..] = rest {
        if pair.key.as_str() == key {
            return Some(&pair.value);
        }
        rest = more;
    }
    None
}

/// The items of the list at the key; none where there is no list.
pub fn items_at<'a>(pairs: &'a [Pair], key: &str) -> &'a [Node]
    ensures same { result.now ≡ items_of (value_at key.now pairs.now) }
{
    match value_at(pairs, key) {
        Some(node) => items_of(node),
        None => &[],
    }
}

/// The pairs of the mapping at the key; none where there is no mapping.
pub fn pairs_at<'a>(pairs: &'a [Pair], key: &str) -> &'a [Pair]
    ensures same { result.now ≡ pairs_of (value_at key.now pairs.now) }
{
    match value_at(pairs, key) {
        Some(node) => pairs_of(node),
        None => &[],
    }
}

/// Whether `true` stands at the key.
pub fn is_true_at(pairs: &[Pair], key: &str) -> bool
    ensures exact { result ≡ is_true (value_at key.now pairs.now) }
{
    match value_at(pairs, key) {
        Some(node) => is_true(node),
        None => false,
    }
}

/// Whether `false` stands at the key.
pub fn is_false_at(pairs: &[Pair], key: &str) -> bool
    ensures exact { result ≡ is_false (value_at key.now pairs.now) }
{
    match value_at(pairs, key) {
        Some(node) => is_false(node),
        None => false,
    }
}

/// Whether the part stands somewhere in the text.
pub fn has_part(text: &[u8], part: &[u8]) -> bool
    ensures exact { result ≡ has_part part.now text.now }
{
    let mut rest = text;
    while let [_, behind @ ..] = rest {
        if begins(rest, part) {
            return true;
        }
        rest = behind;
    }
    false
}

/// Whether the text begins with the part.
pub fn begins(text: &[u8], part: &[u8]) -> bool
    ensures exact { result ≡ begins part.now text.now }
{
    text.strip_prefix(part).is_some()
}
