// Whether the values of stage keys are in form.
ghost use Rattle.std.specs.Prelude.{◌≡◌};
ghost use Rattle.dvc_base.specs.declared.node.Node.{out-Node};
ghost use Rattle.std.specs.List.{list_all};
ghost use Rattle.stage_schema.specs.Node.{is_text};
ghost use Rattle.stage_schema.specs.Refusal.{Checks};
ghost use Rattle.stage_schema.specs.Schema.{are_texts, are_commands, is_outs_key, is_bool_key, is_note_key, is_value, value_fault};

use crate::ExpandFault;
use crate::fault::schema_at;
use crate::node::{is_bool, is_list, is_text, items_of};
use crate::outs::check_outs;
use crate::params::check_params;
use crate::vars::check_stage_vars;
use dvc_base::{Node, Pair};
use std::alloc::Global;

/// The value of a stage's key, and whether there is such a key.
pub fn check_value(alloc: Global, name: &str, at: &str, pair: &Pair) -> Result<(), ExpandFault>
    ensures checked { Checks result (value_fault name.now at.now pair.now) }
{
    let key = pair.key.as_str();
    if is_outs_key(key) {
        check_outs(alloc, name, at, key, &pair.value)
    } else if key == "params" {
        check_params(alloc, at, key, &pair.value)
    } else if key == "vars" {
        check_stage_vars(alloc, name, at, &pair.value)
    } else if is_value(key, &pair.value) {
        Ok(())
    } else {
        Err(schema_at(alloc, &[at, key]))
    }
}

// The keys with a value of which only the key itself is refused.
fn is_value(key: &str, value: &Node) -> bool
    ensures exact { result ≡ is_value key.now (out-Node value.now) }
{
    if key == "cmd" {
        are_commands(value)
    } else if key == "wdir" {
        is_text(value)
    } else if key == "deps" {
        are_texts(value)
    } else if is_bool_key(key) {
        is_bool(value)
    } else {
        is_note_key(key)
    }
}

/// Whether outputs stand at the key.
pub fn is_outs_key(key: &str) -> bool
    ensures exact { result ≡ is_outs_key key.now }
{
    key == "outs" || key == "metrics" || key == "plots"
}

fn is_bool_key(key: &str) -> bool
    ensures exact { result ≡ is_bool_key key.now }
{
    key == "frozen" || key == "always_changed"
}

// Whether what stands at the key is passed over.
fn is_note_key(key: &str) -> bool
    ensures exact { result ≡ is_note_key key.now }
{
    key == "desc" || key == "meta"
}

/// Whether it is a list of texts, for which Null may stand.
pub fn are_texts(value: &Node) -> bool
    ensures exact { result ≡ are_texts (out-Node value.now) }
{
    is_list(value) && each_is_text(items_of(value))
}

fn each_is_text(items: &[Node]) -> bool
    ensures exact { result ≡ list_all (λ item. is_text (out-Node item)) items.now }
{
    items.iter().all(|item| is_text(item))
}

// Whether it is a text, or a list of at least one.
fn are_commands(value: &Node) -> bool
    ensures exact { result ≡ are_commands (out-Node value.now) }
{
    is_text(value) || (!items_of(value).is_empty() && are_texts(value))
}
