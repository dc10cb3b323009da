// The paths of a stage.
ghost use Rattle.std.specs.Prelude.{◌≡◌, ◌⊎◌};
ghost use Rattle.dvc_base.specs.declared.path.PathFault.TheVariants.{NoMemory as PathMemory};
ghost use Rattle.std.specs.List.{list_any};
ghost use Rattle.stage_schema.specs.declared.fault.ExpandFault.TheVariants.{NoMemory as Memory, Outside};
ghost use Rattle.dvc_base.specs.declared.node.Node.{out-Node};
ghost use Rattle.stage_schema.specs.Refusal.{Checks, first_in};
ghost use Rattle.stage_schema.specs.Schema.{is_url, is_key_url, is_path_url, has_url, dir_fault, path_fault};

use crate::ExpandFault;
use crate::fault::unsupported_at;
use crate::node::{has_part, items_of, pairs_of, text_of};
use crate::value::is_outs_key;
use dvc_base::{NoMemory, Node, Pair, PathFault, Rel, Text};
use std::alloc::Global;

/// The paths of a stage, whose texts are as they stand in the end.
pub fn check_paths(alloc: Global, name: &str, pairs: &[Pair]) -> Result<(), ExpandFault>
    ensures checked { Checks result (first_in (path_fault name.now) pairs.now) }
{
    for pair in pairs {
        check_path(alloc, name, pair)?;
    }
    Ok(())
}

// The paths of a key.
fn check_path(alloc: Global, name: &str, pair: &Pair) -> Result<(), ExpandFault>
    ensures checked { Checks result (path_fault name.now pair.now) }
{
    let key = pair.key.as_str();
    if key == "wdir" {
        check_dir(alloc, name, key, text_of(&pair.value))
    } else if has_url(key, items_of(&pair.value)) {
        Err(unsupported_at(alloc, &["stages", name, key]))
    } else {
        Ok(())
    }
}

// Whether one of the paths of the key is none of the workspace's.
fn has_url(key: &str, items: &[Node]) -> bool
    ensures exact { result ≡ has_url key.now items.now }
{
    if key == "params" {
        has_key_url(items)
    } else if key == "deps" || is_outs_key(key) {
        has_path_url(items)
    } else {
        false
    }
}

fn has_key_url(items: &[Node]) -> bool
    ensures exact { result ≡ list_any (λ item. is_key_url (out-Node item)) items.now }
{
    items.iter().any(|item| is_key_url(item))
}

fn has_path_url(items: &[Node]) -> bool
    ensures exact { result ≡ list_any (λ item. is_path_url (out-Node item)) items.now }
{
    items.iter().any(|item| is_path_url(item))
}

fn is_path_url(item: &Node) -> bool
    ensures exact { result ≡ is_path_url (out-Node item.now) }
{
    is_url(text_of(item)) || is_key_url(item)
}

fn is_key_url(item: &Node) -> bool
    ensures exact { result ≡ is_key_url (out-Node item.now) }
{
    pairs_of(item).iter().any(|pair| is_url(pair.key.as_str()))
}

/// Whether the text is a path that is none of the workspace's files.
pub fn is_url(text: &str) -> bool
    ensures exact { result ≡ is_url text.now }
{
    has_part(text.as_bytes(), b"://")
}

fn check_dir(alloc: Global, name: &str, key: &str, text: &str) -> Result<(), ExpandFault>
    ensures checked { Checks result (dir_fault name.now key.now text.now) }
{
    if is_url(text) {
        return Err(unsupported_at(alloc, &["stages", name, key]));
    }
    match Rel::root(alloc).join(alloc, text) {
        Ok(_) => Ok(()),
        Err(why) => Err(outside(alloc, text, why)),
    }
}

/// The refusal of a text that is no path.
pub fn outside(alloc: Global, text: &str, why: PathFault) -> ExpandFault
    ensures exact { (result ≡ Memory) ⊎ (result ≡ Outside text.now why) }
    ensures memory { why ≡ PathMemory → result ≡ Memory }
{
    if matches!(why, PathFault::NoMemory) {
        return ExpandFault::NoMemory;
    }
    match Text::of(alloc, text) {
        Ok(text) => ExpandFault::Outside { text, why },
        Err(NoMemory) => ExpandFault::NoMemory,
    }
}
