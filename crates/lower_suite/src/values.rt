// Values of parameters: what keys lead to, canonical nodes, and which nodes are the same value.
use dvc_base::{Node, Pair};
use params::{canon, lookup, same_value};
use std::alloc::Global;
use yaml_profile::parse;

// All texts here are shorter, and so have few lines.
const SHORT: usize = 4096;

const TREE: &[u8] = b"b: {d: 1.0, c: null}
a:
- 20
- '20'
";

// What a key leads to in the tree, as a text of its own; the empty one where it leads nowhere.
const KEYS: [(&str, &[u8]); 11] = [
    ("a", b"[20, '20']"),
    ("a[0]", b"20"),
    ("a[01]", b"'20'"),
    ("b.c", b"~"),
    ("b.d", b"1.0"),
    ("a[2]", b""),
    ("a[-1]", b""),
    ("b[0]", b""),
    ("b..c", b""),
    ("c", b""),
    ("", b""),
];

// Numbers with their canonical forms, at last one of 38 digits.
const NUMBERS: [(&[u8], &str); 11] = [
    (b"0.10", "1e-1"),
    (b".1", "1e-1"),
    (b"1e-1", "1e-1"),
    (b"1", "1e0"),
    (b"1.0", "1e0"),
    (b"0x1", "1e0"),
    (b"20", "2e1"),
    (b"-2.50E+3", "-25e2"),
    (b"0", "0"),
    (b"-0.0", "0"),
    (
        b"0.12345678901234567890123456789012345678",
        "12345678901234567890123456789012345678e-38",
    ),
];

// Two texts, and whether they are the same value.
const PAIRS: [(&[u8], &[u8], bool); 15] = [
    (b"0.10", b".1", true),
    (b".1", b"1e-1", true),
    (b"1", b"1.0", true),
    (b"1.0", b"0x1", true),
    (b"0", b"-0.0", true),
    (b"1", b"-1", false),
    (b"1", b"10", false),
    (b"1", b"\"1\"", false),
    (b"true", b"'true'", false),
    (b"[1, 2]", b"[1.0, 2.0]", true),
    (b"[1, 2]", b"[2, 1]", false),
    (b"[1]", b"[1, 2]", false),
    (b"{a: 1, b: 2}", b"{b: 2.0, a: 0x1}", true),
    (b"{a: 1}", b"{a: 1, b: 2}", false),
    (b"{a: 1, b: 2}", b"{a: 1}", false),
];

fn read(alloc: Global, text: &[u8]) -> Option<Node> {
    if text.len() > SHORT {
        return None;
    }
    parse(alloc, text).ok()
}

fn leads_to(alloc: Global, tree: &Node, key: &str, want: &[u8]) -> bool {
    match lookup(tree, key) {
        Some(found) => reads_as(alloc, want, found),
        None => want.is_empty(),
    }
}

// Whether the text has just this value.
fn reads_as(alloc: Global, text: &[u8], value: &Node) -> bool {
    match read(alloc, text) {
        Some(node) => !text.is_empty() && same_value(&node, value),
        None => false,
    }
}

fn key_leads(alloc: Global, key: &str, want: &[u8]) -> bool {
    match read(alloc, TREE) {
        Some(tree) => leads_to(alloc, &tree, key, want),
        None => false,
    }
}

#[test]
fn keys_lead_through_a_tree(rt: HostRuntime) {
    for (key, want) in KEYS {
        assert!(rt; key_leads(rt.alloc(), key, want), "at {key:?}");
    }
}

fn makes_number(alloc: Global, text: &[u8], want: &str) -> bool {
    match read(alloc, text) {
        Some(node) => has_canon(alloc, &node, want),
        None => false,
    }
}

fn has_canon(alloc: Global, node: &Node, want: &str) -> bool {
    match canon(alloc, node) {
        Ok(made) => is_number(&made, want),
        Err(_) => false,
    }
}

fn is_number(node: &Node, want: &str) -> bool {
    match node {
        Node::Whole { text, .. } => text.as_str() == want,
        Node::Decimal { text } => text.as_str() == want,
        _ => false,
    }
}

#[test]
fn numbers_have_one_form(rt: HostRuntime) {
    for (text, want) in NUMBERS {
        assert!(rt; makes_number(rt.alloc(), text, want), "at {want}");
    }
}

fn tree_is_sorted(alloc: Global) -> bool {
    match read(alloc, TREE) {
        Some(tree) => has_sorted_canon(alloc, &tree),
        None => false,
    }
}

fn has_sorted_canon(alloc: Global, tree: &Node) -> bool {
    match canon(alloc, tree) {
        Ok(made) => has_keys(Some(&made), "a", "b") && has_keys(lookup(&made, "b"), "c", "d"),
        Err(_) => false,
    }
}

// Whether it is a mapping of just these keys, in this order.
fn has_keys(node: Option<&Node>, first: &str, second: &str) -> bool {
    match node {
        Some(Node::Pairs(pairs)) => are_keys(pairs.as_slice(), first, second),
        _ => false,
    }
}

fn are_keys(pairs: &[Pair], first: &str, second: &str) -> bool {
    match pairs {
        [a, b] => a.key.as_str() == first && b.key.as_str() == second,
        _ => false,
    }
}

#[test]
fn keys_of_canonical_mappings_rise(rt: HostRuntime) {
    assert!(rt; tree_is_sorted(rt.alloc()));
}

fn are_same(alloc: Global, a: &[u8], b: &[u8]) -> Option<bool> {
    let node = read(alloc, a)?;
    is_same_as(alloc, &node, b)
}

fn is_same_as(alloc: Global, node: &Node, text: &[u8]) -> Option<bool> {
    let other = read(alloc, text)?;
    Some(same_value(node, &other))
}

#[test]
fn values_are_compared_as_values(rt: HostRuntime) {
    for (row, (a, b, same)) in PAIRS.into_iter().enumerate() {
        assert!(rt; are_same(rt.alloc(), a, b) == Some(same), "at {row}");
    }
}
