// What a good node says, copied out of it.
ghost use Rattle.std.specs.Prelude.{◌≡◌, ◌++◌, ◌∷◌, [], map, Some, None, IfOk, OnOk};
ghost use Rattle.std.specs.List.{filter, filter_map};
ghost use Rattle.dvc_base.specs.declared.node.Node.{out-Node};
ghost use Rattle.lock_files.specs.Mapping.{text_in};
ghost use Rattle.lock_files.specs.Value as spec;

use crate::mapping::{items_in, number_at, pairs_in, text_at, text_in, value_at};
use crate::order::{by_key, by_path};
use crate::refused::name_at;
use crate::{Entry, LockBook, PathEntries, PathEntry, Track};
use dvc_base::{
    KeyValues, Name, NoMemory, Node, Pair, PairList, ParamFile, ParamFiles, Plain, Text, Texts,
};
use std::alloc::Global;

// ---- path entries

fn path_entry_in(alloc: Global, pairs: &[Pair]) -> Result<Option<PathEntry>, NoMemory>
    ensures exact { IfOk result (λ entry. entry ≡ spec.path_entry_in pairs.now) }
{
    let Some(path) = text_at(pairs, "path") else {
        return Ok(None);
    };
    let Some(name) = name_at(pairs) else {
        return Ok(None);
    };
    let Some(size) = number_at(pairs, "size") else {
        return Ok(None);
    };
    let nfiles = number_at(pairs, "nfiles");
    let entry = path_entry(alloc, path, name, size, nfiles)?;
    Ok(Some(entry))
}

fn path_entry(
    alloc: Global,
    path: &str,
    name: Name,
    size: u64,
    nfiles: Option<u64>,
) -> Result<PathEntry, NoMemory>
    ensures exact { IfOk result (λ entry. entry ≡ record { path = path.now; name = name; size = size; nfiles = nfiles }) }
{
    let path = Text::of(alloc, path)?;
    Ok(PathEntry {
        path,
        name,
        size,
        nfiles,
    })
}

fn item_in(alloc: Global, item: &Node) -> Result<Option<PathEntry>, NoMemory>
    ensures exact { IfOk result (λ entry. entry ≡ spec.item_in item.now) }
{
    match pairs_in(item) {
        Some(pairs) => path_entry_in(alloc, pairs),
        None => Ok(None),
    }
}

fn add_item(alloc: Global, entries: &mut PathEntries, item: &Node) -> Result<(), NoMemory>
    ensures added { OnOk result (entries.new ≡ entries.old ++ filter_map spec.item_in (item.now ∷ [])) }
{
    if let Some(entry) = item_in(alloc, item)? {
        entries.push(entry)?;
    }
    Ok(())
}

fn path_entries(alloc: Global, items: &[Node]) -> Result<PathEntries, NoMemory>
    ensures exact { IfOk result (λ entries. entries ≡ filter_map spec.item_in items.now) }
{
    let mut entries = PathEntries::new(alloc);
    for item in items {
        add_item(alloc, &mut entries, item)?;
    }
    Ok(entries)
}

fn items_at<'a>(pairs: &'a [Pair], key: &str) -> &'a [Node]
    ensures exact { result.now ≡ spec.items_at key.now pairs.now }
{
    match value_at(pairs, key) {
        Some(list) => items_or_none(list),
        None => &[],
    }
}

// The items of a list, and none of another node.
fn items_or_none(node: &Node) -> &[Node]
    ensures exact { result.now ≡ spec.items_or_none node.now }
{
    match items_in(node) {
        Some(items) => items,
        None => &[],
    }
}

fn sorted_entries(alloc: Global, pairs: &[Pair], key: &str) -> Result<PathEntries, NoMemory>
    ensures exact { IfOk result (λ entries. entries ≡ spec.sorted_entries key.now pairs.now) }
{
    let entries = path_entries(alloc, items_at(pairs, key))?;
    by_path(alloc, entries.as_slice())
}

// ---- commands

fn add_text(alloc: Global, texts: &mut Texts, node: &Node) -> Result<(), NoMemory>
    ensures added { OnOk result (texts.new ≡ texts.old ++ filter_map text_in (node.now ∷ [])) }
{
    if let Some(text) = text_in(node) {
        texts.push(Text::of(alloc, text)?)?;
    }
    Ok(())
}

fn texts_in(alloc: Global, items: &[Node]) -> Result<Texts, NoMemory>
    ensures exact { IfOk result (λ texts. texts ≡ filter_map text_in items.now) }
{
    let mut texts = Texts::new(alloc);
    for item in items {
        add_text(alloc, &mut texts, item)?;
    }
    Ok(texts)
}

fn one_text(alloc: Global, text: &str) -> Result<Texts, NoMemory>
    ensures exact { IfOk result (λ texts. texts ≡ text.now ∷ []) }
{
    let text = Text::of(alloc, text)?;
    let mut texts = Texts::new(alloc);
    texts.push(text)?;
    Ok(texts)
}

fn commands_of(alloc: Global, node: &Node) -> Result<Texts, NoMemory>
    ensures exact { IfOk result (λ commands. commands ≡ spec.commands_of (out-Node node.now)) }
{
    match node {
        Node::Text(text) => one_text(alloc, text.as_str()),
        Node::Items(items) => texts_in(alloc, items.as_slice()),
        _ => Ok(Texts::new(alloc)),
    }
}

fn commands_in(alloc: Global, pairs: &[Pair]) -> Result<Texts, NoMemory>
    ensures exact { IfOk result (λ commands. commands ≡ spec.commands_in pairs.now) }
{
    match value_at(pairs, "cmd") {
        Some(node) => commands_of(alloc, node),
        None => Ok(Texts::new(alloc)),
    }
}

// ---- parameters

// The pairs of a mapping, and none of another node.
fn pairs_or_none(node: &Node) -> &[Pair]
    ensures exact { result.now ≡ spec.pairs_or_none node.now }
{
    match pairs_in(node) {
        Some(pairs) => pairs,
        None => &[],
    }
}

fn copies_of(alloc: Global, pairs: &[&Pair]) -> Result<KeyValues, NoMemory>
    ensures exact { IfOk result (λ copies. copies ≡ map (λ p. p.now) pairs.now) }
{
    let mut copies = KeyValues::new(alloc);
    for pair in pairs {
        copies.push(pair.copy(alloc)?)?;
    }
    Ok(copies)
}

fn keys_of(alloc: Global, pairs: &[Pair]) -> Result<KeyValues, NoMemory>
    ensures exact { IfOk result (λ keys. keys ≡ spec.keys_of pairs.now) }
{
    let sorted = by_key(alloc, pairs)?;
    copies_of(alloc, sorted.as_slice())
}

fn param_file(alloc: Global, pair: &Pair) -> Result<ParamFile, NoMemory>
    ensures exact { IfOk result (λ file. file ≡ spec.param_file pair.now) }
{
    let keys = keys_of(alloc, pairs_or_none(&pair.value))?;
    named_file(alloc, &pair.key, keys)
}

fn named_file(alloc: Global, file: &Text, keys: KeyValues) -> Result<ParamFile, NoMemory>
    ensures exact { IfOk result (λ whole. whole ≡ record { file = file.now; keys = keys }) }
{
    let file = file.copy(alloc)?;
    Ok(ParamFile { file, keys })
}

fn files_of(alloc: Global, pairs: &[&Pair]) -> Result<ParamFiles, NoMemory>
    ensures exact { IfOk result (λ files. files ≡ map spec.param_file (map (λ p. p.now) pairs.now)) }
{
    let mut files = ParamFiles::new(alloc);
    for pair in pairs {
        files.push(param_file(alloc, pair)?)?;
    }
    Ok(files)
}

fn params_of(alloc: Global, pairs: &[Pair]) -> Result<ParamFiles, NoMemory>
    ensures exact { IfOk result (λ files. files ≡ spec.params_of pairs.now) }
{
    let sorted = by_key(alloc, pairs)?;
    files_of(alloc, sorted.as_slice())
}

fn params_in(alloc: Global, pairs: &[Pair]) -> Result<ParamFiles, NoMemory>
    ensures exact { IfOk result (λ files. files ≡ spec.params_in pairs.now) }
{
    match value_at(pairs, "params") {
        Some(params) => params_of(alloc, pairs_or_none(params)),
        None => Ok(ParamFiles::new(alloc)),
    }
}

// ---- entries

fn entry_of(alloc: Global, pairs: &[Pair]) -> Result<Entry, NoMemory>
    ensures exact { IfOk result (λ entry. entry ≡ spec.entry_of pairs.now) }
{
    Ok(Entry {
        commands: commands_in(alloc, pairs)?,
        deps: sorted_entries(alloc, pairs, "deps")?,
        params: params_in(alloc, pairs)?,
        outs: sorted_entries(alloc, pairs, "outs")?,
    })
}

/// The entry that a node says.
pub fn entry_in(alloc: Global, node: &Node) -> Result<Entry, NoMemory>
    ensures exact { IfOk result (λ entry. entry ≡ spec.entry_in node.now) }
{
    entry_of(alloc, pairs_or_none(node))
}

// ---- track files

fn add_other(alloc: Global, others: &mut PairList, pair: &Pair) -> Result<(), NoMemory>
    ensures added { OnOk result (others.new ≡ others.old ++ filter spec.is_other_key (pair.now ∷ [])) }
{
    if pair.key.as_str() != "outs" {
        others.push(pair.copy(alloc)?)?;
    }
    Ok(())
}

fn others_in(alloc: Global, pairs: &[Pair]) -> Result<PairList, NoMemory>
    ensures exact { IfOk result (λ others. others ≡ filter spec.is_other_key pairs.now) }
{
    let mut others = PairList::new(alloc);
    for pair in pairs {
        add_other(alloc, &mut others, pair)?;
    }
    Ok(others)
}

fn track_of(alloc: Global, pairs: &[Pair]) -> Result<Track, NoMemory>
    ensures exact { IfOk result (λ track. track ≡ spec.track_of pairs.now) }
{
    Ok(Track {
        outs: path_entries(alloc, items_at(pairs, "outs"))?,
        rest: others_in(alloc, pairs)?,
    })
}

/// What the node of a track file says.
pub fn track_in(alloc: Global, node: &Node) -> Result<Track, NoMemory>
    ensures exact { IfOk result (λ track. track ≡ spec.track_in node.now) }
{
    track_of(alloc, pairs_or_none(node))
}

// ---- locks

fn add_stage(alloc: Global, book: &mut LockBook, stage: &Pair) -> Result<(), NoMemory>
    ensures added { OnOk result (book.new ≡ spec.with_stage book.old stage.now) }
{
    let entry = entry_in(alloc, &stage.value)?;
    book.set(alloc, stage.key.as_str(), entry)
}

fn add_stages(alloc: Global, book: &mut LockBook, mut stages: &[Pair]) -> Result<(), NoMemory>
    ensures added { OnOk result (book.new ≡ spec.with_stages book.old stages.entry.now) }
{
    while let [stage, more @ ..] = stages {
        add_stage(alloc, book, stage)?;
        stages = more;
    }
    Ok(())
}

fn stages_in(pairs: &[Pair]) -> &[Pair]
    ensures exact { result.now ≡ spec.stages_in pairs.now }
{
    match value_at(pairs, "stages") {
        Some(stages) => pairs_or_none(stages),
        None => &[],
    }
}

/// The book that the node of a lock says.
pub fn lock_in(alloc: Global, node: &Node) -> Result<LockBook, NoMemory>
    ensures exact { IfOk result (λ book. book ≡ spec.lock_in node.now) }
{
    let mut book = LockBook::new(alloc);
    add_stages(alloc, &mut book, stages_in(pairs_or_none(node)))?;
    Ok(book)
}
