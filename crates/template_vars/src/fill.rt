// Texts with what their keys stand for.
ghost use Rattle.std.specs.Prelude.{◌≡◌, ◌++◌, string_bytes, Ok, OnOk, option_copied, MatchResult};
ghost use Rattle.dvc_base.specs.declared.node.Node.{out-Node};
ghost use Rattle.template_vars.specs.Answer.{IsAnswer, Ends};
ghost use Rattle.template_vars.specs.Resolve as spec;
ghost use Rattle.template_vars.specs.Resolve.{Puts};

use crate::turn::{Turn, next_turn};
use crate::{Scope, TemplateFault};
use dvc_base::{NoMemory, Node, Text};
use std::alloc::Global;

/// The text with what its keys stand for, or the first refusal: a key that leads nowhere, or to a list or a mapping.
pub fn resolve(alloc: Global, scope: &Scope, text: &str) -> Result<Text, TemplateFault>
    ensures answer { IsAnswer result (spec.resolved scope.now text.now) }
{
    let mut made = String::new(alloc);
    put_text(alloc, &mut made, scope, text)?;
    Ok(Text::from_string(made))
}

// Puts the text with what its keys stand for.
fn put_text(
    alloc: Global,
    made: &mut String,
    scope: &Scope,
    text: &str,
) -> Result<(), TemplateFault>
    ensures answer { Puts result (string_bytes made.old) (string_bytes made.new) (spec.resolved scope.now text.now) }
{
    let mut rest = text;
    let mut closes = true;
    while let Some(turn) = next_turn(rest, closes) {
        put_turn(alloc, made, scope, &turn)?;
        rest = turn.rest;
        closes = turn.closes;
    }
    put(made, rest)?;
    Ok(())
}

// Puts what stands for itself, and what the key behind it stands for.
fn put_turn(
    alloc: Global,
    made: &mut String,
    scope: &Scope,
    turn: &Turn,
) -> Result<(), TemplateFault>
    ensures answer { Puts result
        (string_bytes made.old ++ (turn.now.plain.now ++ turn.now.mark.now))
        (string_bytes made.new)
        (spec.key_text_if scope.now (option_copied turn.now.key)) }
{
    put(made, turn.plain)?;
    put(made, turn.mark)?;
    match turn.key {
        Some(key) => put_key(alloc, made, scope, key),
        None => Ok(()),
    }
}

// Puts what a key stands for.
fn put_key(alloc: Global, made: &mut String, scope: &Scope, key: &str) -> Result<(), TemplateFault>
    ensures answer { Puts result (string_bytes made.old) (string_bytes made.new) (spec.key_text scope.now key.now) }
{
    let text = key_text(alloc, scope, key)?;
    put(made, text)?;
    Ok(())
}

// The text that a key stands for.
fn key_text<'a>(alloc: Global, scope: &Scope<'a>, key: &str) -> Result<&'a str, TemplateFault>
    ensures answer { MatchResult result
        (λ text. spec.key_text scope.now key.now ≡ Ok text.now)
        (λ fault. Ends fault (spec.key_text scope.now key.now)) }
{
    match scope.find(key) {
        Some(node) => match scalar_text(node) {
            Some(text) => Ok(text),
            None => Err(TemplateFault::NotScalar {
                key: Text::of(alloc, key)?,
            }),
        },
        None => Err(TemplateFault::NoVariable {
            key: Text::of(alloc, key)?,
        }),
    }
}

/// The text of a scalar, as it is written: nothing for Null, and none for a list or a mapping.
pub fn scalar_text(node: &Node) -> Option<&str>
    ensures exact { option_copied result ≡ spec.text_of (out-Node node.now) }
{
    match node {
        Node::Null => Some(""),
        Node::Bool(bit) => Some(if *bit { "true" } else { "false" }),
        Node::Whole { text, .. } => Some(text.as_str()),
        Node::Decimal { text } => Some(text.as_str()),
        Node::Text(text) => Some(text.as_str()),
        Node::Items(_) => None,
        Node::Pairs(_) => None,
    }
}

fn put(made: &mut String, piece: &str) -> Result<(), NoMemory>
    ensures ok { OnOk result (string_bytes made.new ≡ string_bytes made.old ++ piece.now) }
{
    made.push_str(piece)?;
    Ok(())
}

/// The node that a key leads to, or its refusal.
pub fn node_of_key<'a>(
    alloc: Global,
    scope: &Scope<'a>,
    key: &str,
) -> Result<&'a Node, TemplateFault>
    ensures answer { MatchResult result
        (λ node. spec.key_node scope.now key.now ≡ Ok node.now)
        (λ fault. Ends fault (spec.key_node scope.now key.now)) }
{
    match scope.find(key) {
        Some(node) => Ok(node),
        None => Err(TemplateFault::NoVariable {
            key: Text::of(alloc, key)?,
        }),
    }
}
