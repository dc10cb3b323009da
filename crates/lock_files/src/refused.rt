// What is refused of a node: the first refusal, in the order of the tables.
ghost use Rattle.std.specs.Prelude.{◌≡◌, ◌≢◌, [], ◌∷◌, Some, None, not, length, is_some, option_copied};
ghost use Rattle.std.specs.List.{list_all};
ghost use Rattle.dvc_base.specs.declared.node.Node.{out-Node};
ghost use Rattle.lock_files.specs.Read.{IsCheck};
ghost use Rattle.lock_files.specs.Refused as spec;

use crate::LockFault;
use crate::mapping::{
    has, is_bool_at, is_text, is_within, items_in, number_at, pairs_in, scalar_at, text_at,
    text_in, value_at,
};
use crate::paths::Paths;
use crate::refusing::{legacy_unless, schema, schema_unless, unsupported_if, unsupported_unless};
use dvc_base::{Name, Node, Pair};
use std::alloc::Global;

/// How many collections may stand in one another in a parameter: five more stand round it in a lock.
const MAX_DEPTH: usize = 59;

// ---- path entries

/// The name under `md5`.
pub fn name_at(pairs: &[Pair]) -> Option<Name>
    ensures exact { result ≡ spec.name_at pairs.now }
{
    match scalar_at(pairs, "md5") {
        Some(text) => Name::parse(text.as_bytes()),
        None => None,
    }
}

fn is_new(before: &Paths, path: Option<&str>) -> bool
    ensures exact { result ≡ spec.is_new before.now (option_copied path.entry) }
{
    match path {
        Some(path) => !before.has(path),
        None => false,
    }
}

// Whether the number of files stands exactly beside the name of a folder.
fn has_count(name: Option<Name>, pairs: &[Pair]) -> bool
    ensures exact { result ≡ spec.has_count name pairs.now }
{
    match name {
        Some(name) => has_count_by(name.dir, pairs),
        None => false,
    }
}

fn has_count_by(dir: bool, pairs: &[Pair]) -> bool
    ensures exact { result ≡ spec.has_count_by dir pairs.now }
{
    if dir {
        number_at(pairs, "nfiles").is_some()
    } else {
        !has(pairs, "nfiles")
    }
}

fn check_path_entry(alloc: Global, before: &Paths, pairs: &[Pair]) -> Result<(), LockFault>
    ensures exact { IsCheck result (spec.path_entry_refused before.now pairs.now) }
{
    check_age(pairs)?;
    check_asked(alloc, pairs)?;
    check_fields(alloc, before, pairs)
}

fn check_age(pairs: &[Pair]) -> Result<(), LockFault>
    ensures exact { IsCheck result (spec.age_refused pairs.now) }
{
    legacy_unless(has(pairs, "hash"))
}

fn check_asked(alloc: Global, pairs: &[Pair]) -> Result<(), LockFault>
    ensures exact { IsCheck result (spec.asked_refused pairs.now) }
{
    unsupported_unless(alloc, is_text(text_at(pairs, "hash"), "md5"), "hash")?;
    unsupported_if(alloc, has(pairs, "cache"), "cache")?;
    unsupported_if(alloc, has(pairs, "remote"), "remote")?;
    unsupported_if(alloc, is_bool_at(pairs, "persist", true), "persist")?;
    unsupported_if(alloc, is_bool_at(pairs, "push", false), "push")
}

fn check_fields(alloc: Global, before: &Paths, pairs: &[Pair]) -> Result<(), LockFault>
    ensures exact { IsCheck result (spec.fields_refused before.now pairs.now) }
{
    schema_unless(alloc, is_new(before, text_at(pairs, "path")), "path")?;
    schema_unless(alloc, name_at(pairs).is_some(), "md5")?;
    schema_unless(alloc, number_at(pairs, "size").is_some(), "size")?;
    schema_unless(alloc, has_count(name_at(pairs), pairs), "nfiles")
}

// ---- lists of path entries

fn check_item(alloc: Global, key: &str, before: &Paths, item: &Node) -> Result<(), LockFault>
    ensures exact { IsCheck result (spec.item_refused key.now before.now item.now) }
{
    match pairs_in(item) {
        Some(pairs) => check_path_entry(alloc, before, pairs),
        None => Err(schema(alloc, key)),
    }
}

// The path of an item, which is nothing where it has none.
fn path_of(item: &Node) -> &str
    ensures exact { result.now ≡ spec.path_of item.now }
{
    match pairs_in(item) {
        Some(pairs) => path_or_none(pairs),
        None => "",
    }
}

fn path_or_none(pairs: &[Pair]) -> &str
    ensures exact { result.now ≡ spec.path_or_none pairs.now }
{
    match text_at(pairs, "path") {
        Some(path) => path,
        None => "",
    }
}

fn check_each(
    alloc: Global,
    key: &str,
    before: &mut Paths,
    mut items: &[Node],
) -> Result<(), LockFault>
    ensures exact { IsCheck result (spec.items_refused key.now before.old items.entry.now) }
{
    while let [item, more @ ..] = items {
        check_item(alloc, key, before, item)?;
        before.push(alloc, path_of(item))?;
        items = more;
    }
    Ok(())
}

fn check_items(alloc: Global, key: &str, items: &[Node]) -> Result<(), LockFault>
    ensures exact { IsCheck result (spec.items_refused key.now [] items.now) }
{
    let mut before = Paths::new(alloc);
    check_each(alloc, key, &mut before, items)
}

fn check_list(alloc: Global, key: &str, list: &Node) -> Result<(), LockFault>
    ensures exact { IsCheck result (spec.list_refused key.now list.now) }
{
    match items_in(list) {
        Some(items) => check_items(alloc, key, items),
        None => Err(schema(alloc, key)),
    }
}

fn check_paths(alloc: Global, key: &str, pairs: &[Pair]) -> Result<(), LockFault>
    ensures exact { IsCheck result (spec.paths_refused key.now pairs.now) }
{
    match value_at(pairs, key) {
        Some(list) => check_list(alloc, key, list),
        None => Ok(()),
    }
}

// ---- commands

fn are_commands(node: &Node) -> bool
    ensures exact { result ≡ spec.are_commands_of (out-Node node.now) }
{
    match node {
        Node::Text(_) => true,
        Node::Items(items) => are_some_texts(items.as_slice()),
        _ => false,
    }
}

fn are_some_texts(items: &[Node]) -> bool
    ensures exact { result ≡ spec.are_some_texts items.now }
{
    !items.is_empty() && are_texts(items)
}

fn are_texts(items: &[Node]) -> bool
    ensures exact { result ≡ list_all spec.is_command items.now }
{
    items.iter().all(|item| text_in(item).is_some())
}

fn has_commands(pairs: &[Pair]) -> bool
    ensures exact { result ≡ spec.has_commands pairs.now }
{
    match value_at(pairs, "cmd") {
        Some(node) => are_commands(node),
        None => false,
    }
}

// ---- parameters

fn check_key(alloc: Global, pair: &Pair) -> Result<(), LockFault>
    ensures exact { IsCheck result (spec.key_refused pair.now) }
{
    schema_unless(alloc, is_within(MAX_DEPTH, &pair.value), pair.key.as_str())
}

fn check_keys(alloc: Global, mut pairs: &[Pair]) -> Result<(), LockFault>
    ensures exact { IsCheck result (spec.keys_refused pairs.entry.now) }
{
    while let [pair, more @ ..] = pairs {
        check_key(alloc, pair)?;
        pairs = more;
    }
    Ok(())
}

fn check_file(alloc: Global, file: &Pair) -> Result<(), LockFault>
    ensures exact { IsCheck result (spec.file_refused file.now) }
{
    match pairs_in(&file.value) {
        Some(keys) => check_keys(alloc, keys),
        None => Err(schema(alloc, file.key.as_str())),
    }
}

fn check_files(alloc: Global, mut files: &[Pair]) -> Result<(), LockFault>
    ensures exact { IsCheck result (spec.files_refused files.entry.now) }
{
    while let [file, more @ ..] = files {
        check_file(alloc, file)?;
        files = more;
    }
    Ok(())
}

fn check_params(alloc: Global, params: &Node) -> Result<(), LockFault>
    ensures exact { IsCheck result (spec.files_node_refused params.now) }
{
    match pairs_in(params) {
        Some(files) => check_files(alloc, files),
        None => Err(schema(alloc, "params")),
    }
}

fn check_params_at(alloc: Global, pairs: &[Pair]) -> Result<(), LockFault>
    ensures exact { IsCheck result (spec.params_refused pairs.now) }
{
    match value_at(pairs, "params") {
        Some(params) => check_params(alloc, params),
        None => Ok(()),
    }
}

// ---- entries

fn check_parts(alloc: Global, pairs: &[Pair]) -> Result<(), LockFault>
    ensures exact { IsCheck result (spec.parts_refused pairs.now) }
{
    schema_unless(alloc, has_commands(pairs), "cmd")?;
    check_paths(alloc, "deps", pairs)?;
    check_paths(alloc, "outs", pairs)?;
    check_params_at(alloc, pairs)
}

/// The first refusal of an entry, which is refused by this name where it is no mapping.
pub fn check_entry(alloc: Global, name: &str, entry: &Node) -> Result<(), LockFault>
    ensures exact { IsCheck result (spec.entry_refused name.now entry.now) }
{
    match pairs_in(entry) {
        Some(pairs) => check_parts(alloc, pairs),
        None => Err(schema(alloc, name)),
    }
}

// ---- track files

fn is_filled(list: &Node) -> bool
    ensures exact { result ≡ spec.is_filled list.now }
{
    match items_in(list) {
        Some(items) => !items.is_empty(),
        None => false,
    }
}

fn check_outs(alloc: Global, outs: &Node) -> Result<(), LockFault>
    ensures exact { IsCheck result (spec.outs_by outs.now) }
{
    schema_unless(alloc, is_filled(outs), "outs")?;
    check_list(alloc, "outs", outs)
}

fn check_outs_at(alloc: Global, pairs: &[Pair]) -> Result<(), LockFault>
    ensures exact { IsCheck result (spec.outs_refused pairs.now) }
{
    match value_at(pairs, "outs") {
        Some(outs) => check_outs(alloc, outs),
        None => Err(schema(alloc, "outs")),
    }
}

fn check_track_pairs(alloc: Global, pairs: &[Pair]) -> Result<(), LockFault>
    ensures exact { IsCheck result (spec.track_pairs_refused pairs.now) }
{
    check_outs_at(alloc, pairs)?;
    unsupported_if(alloc, has(pairs, "deps"), "deps")?;
    unsupported_if(alloc, has(pairs, "wdir"), "wdir")
}

/// The first refusal of a track file.
pub fn check_track(alloc: Global, track: &Node) -> Result<(), LockFault>
    ensures exact { IsCheck result (spec.track_refused track.now) }
{
    match pairs_in(track) {
        Some(pairs) => check_track_pairs(alloc, pairs),
        None => Err(schema(alloc, "")),
    }
}

// ---- locks

fn check_entries(alloc: Global, mut stages: &[Pair]) -> Result<(), LockFault>
    ensures exact { IsCheck result (spec.entries_refused stages.entry.now) }
{
    while let [stage, more @ ..] = stages {
        check_entry(alloc, stage.key.as_str(), &stage.value)?;
        stages = more;
    }
    Ok(())
}

fn check_stages(alloc: Global, stages: &Node) -> Result<(), LockFault>
    ensures exact { IsCheck result (spec.stages_by (out-Node stages.now)) }
{
    match stages {
        Node::Null => Ok(()),
        Node::Pairs(pairs) => check_entries(alloc, pairs.as_slice()),
        _ => Err(schema(alloc, "stages")),
    }
}

fn check_stages_at(alloc: Global, pairs: &[Pair]) -> Result<(), LockFault>
    ensures exact { IsCheck result (spec.stages_refused pairs.now) }
{
    match value_at(pairs, "stages") {
        Some(stages) => check_stages(alloc, stages),
        None => Err(schema(alloc, "stages")),
    }
}

fn check_book(alloc: Global, pairs: &[Pair]) -> Result<(), LockFault>
    ensures exact { IsCheck result (spec.book_refused pairs.now) }
{
    legacy_unless(has(pairs, "schema"))?;
    schema_unless(alloc, is_text(scalar_at(pairs, "schema"), "2.0"), "schema")?;
    check_stages_at(alloc, pairs)
}

/// The first refusal of a lock. Null is the empty one.
pub fn check_lock(alloc: Global, lock: &Node) -> Result<(), LockFault>
    ensures exact { IsCheck result (spec.lock_refused lock.now) }
{
    match lock {
        Node::Null => Ok(()),
        Node::Pairs(pairs) => check_book(alloc, pairs.as_slice()),
        _ => Err(schema(alloc, "")),
    }
}
