// How many collections stand in one another.
ghost use Rattle.std.specs.Prelude.{◌≡◌};
ghost use Rattle.std.specs.List.{list_all};
ghost use Rattle.dvc_base.specs.declared.node.Node.{out-Node};
ghost use Rattle.yaml_print.specs.Print.{value_of};
ghost use Rattle.lock_files.specs.Mapping as mapping;

use dvc_base::{Node, Pair};

/// Whether at most `depth` collections stand in one another.
#[cycle(within)]
pub fn is_within(depth: usize, node: &Node) -> bool
    ensures exact { result ≡ mapping.is_within depth node.now }
{
    if depth == 0 {
        is_scalar(node)
    } else {
        is_within_layer(depth - 1, node)
    }
}

fn is_scalar(node: &Node) -> bool
    ensures exact { result ≡ mapping.is_scalar_of (out-Node node.now) }
{
    !matches!(node, Node::Items(_) | Node::Pairs(_))
}

// Whether this is so of what stands in a collection.
#[cycle(within)]
fn is_within_layer(depth: usize, node: &Node) -> bool
    ensures exact { result ≡ mapping.all_inside (mapping.is_within depth) (out-Node node.now) }
{
    match node {
        Node::Items(items) => are_within(depth, items.as_slice()),
        Node::Pairs(pairs) => values_are_within(depth, pairs.as_slice()),
        _ => true,
    }
}

#[cycle(within)]
fn are_within(depth: usize, mut nodes: &[Node]) -> bool
    ensures exact { result ≡ list_all (mapping.is_within depth) nodes.entry.now }
{
    while let [node, more @ ..] = nodes {
        if !is_within(depth, node) {
            return false;
        }
        nodes = more;
    }
    true
}

#[cycle(within)]
fn values_are_within(depth: usize, mut pairs: &[Pair]) -> bool
    ensures exact { result ≡ list_all (λ p. mapping.is_within depth (value_of p)) pairs.entry.now }
{
    while let [pair, more @ ..] = pairs {
        if !is_within(depth, &pair.value) {
            return false;
        }
        pairs = more;
    }
    true
}
