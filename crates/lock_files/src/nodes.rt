// The node of a value, whose text is what is printed of it.
ghost use Rattle.std.specs.Prelude.{◌≡◌, ◌++◌, ◌∷◌, [], map, IfOk, OnOk};
ghost use Rattle.dvc_base.specs.Name.{name_text};
ghost use Rattle.lock_files.specs.Nodes as spec;

use crate::{Entry, LockBook, PathEntry, Track};
use dvc_base::{Name, NoMemory, Node, Nodes, Pair, PairList, ParamFile, Plain, Text, Texts};
use std::alloc::Global;

// ---- pairs

fn add_pair(alloc: Global, pairs: &mut PairList, key: &str, value: Node) -> Result<(), NoMemory>
    ensures added { OnOk result (pairs.new ≡ pairs.old ++ spec.pair key.now value ∷ []) }
{
    let key = Text::of(alloc, key)?;
    pairs.push(Pair { key, value })
}

fn add_text(alloc: Global, pairs: &mut PairList, key: &str, text: &str) -> Result<(), NoMemory>
    ensures added { OnOk result (pairs.new ≡ pairs.old ++ spec.text_pair key.now text.now ∷ []) }
{
    let text = Text::of(alloc, text)?;
    add_pair(alloc, pairs, key, Node::Text(text))
}

fn number_node(alloc: Global, number: u64) -> Result<Node, NoMemory>
    ensures exact { IfOk result (λ node. node ≡ spec.number_node number) }
{
    let text = format!(in alloc; "{number}")?;
    Ok(Node::Whole {
        value: i128::from(number),
        text: Text::from_string(text),
    })
}

fn add_number(alloc: Global, pairs: &mut PairList, key: &str, number: u64) -> Result<(), NoMemory>
    ensures added { OnOk result (pairs.new ≡ pairs.old ++ spec.number_pair key.now number ∷ []) }
{
    let node = number_node(alloc, number)?;
    add_pair(alloc, pairs, key, node)
}

fn add_name(alloc: Global, pairs: &mut PairList, name: &Name) -> Result<(), NoMemory>
    ensures added { OnOk result (pairs.new ≡ pairs.old ++ spec.name_pair name.now ∷ []) }
{
    let text = text_of_name(alloc, name)?;
    add_pair(alloc, pairs, "md5", Node::Text(text))
}

fn text_of_name(alloc: Global, name: &Name) -> Result<Text, NoMemory>
    ensures exact { IfOk result (λ text. text ≡ name_text name.now) }
{
    let mut buffer = [0; 36];
    let len = name.print(&mut buffer);
    let text = &buffer[..len];
    Text::of_ascii(alloc, text)
}

fn add_count(alloc: Global, pairs: &mut PairList, nfiles: Option<u64>) -> Result<(), NoMemory>
    ensures added { OnOk result (pairs.new ≡ pairs.old ++ spec.count_pairs nfiles) }
{
    match nfiles {
        Some(count) => add_number(alloc, pairs, "nfiles", count),
        None => Ok(()),
    }
}

// ---- path entries

fn add_path_parts(alloc: Global, pairs: &mut PairList, entry: &PathEntry) -> Result<(), NoMemory>
    ensures added { OnOk result (pairs.new ≡ pairs.old ++ spec.path_pairs entry.now) }
{
    add_text(alloc, pairs, "path", entry.path.as_str())?;
    add_text(alloc, pairs, "hash", "md5")?;
    add_name(alloc, pairs, &entry.name)?;
    add_number(alloc, pairs, "size", entry.size)?;
    add_count(alloc, pairs, entry.nfiles)
}

fn path_node(alloc: Global, entry: &PathEntry) -> Result<Node, NoMemory>
    ensures exact { IfOk result (λ node. node ≡ spec.path_node entry.now) }
{
    let mut pairs = PairList::new(alloc);
    add_path_parts(alloc, &mut pairs, entry)?;
    Ok(Node::Pairs(pairs))
}

fn path_nodes(alloc: Global, entries: &[PathEntry]) -> Result<Nodes, NoMemory>
    ensures exact { IfOk result (λ nodes. nodes ≡ map spec.path_node entries.now) }
{
    let mut nodes = Nodes::new(alloc);
    for entry in entries {
        nodes.push(path_node(alloc, entry)?)?;
    }
    Ok(nodes)
}

fn add_out_parts(alloc: Global, pairs: &mut PairList, entry: &PathEntry) -> Result<(), NoMemory>
    ensures added { OnOk result (pairs.new ≡ pairs.old ++ spec.out_pairs entry.now) }
{
    add_name(alloc, pairs, &entry.name)?;
    add_number(alloc, pairs, "size", entry.size)?;
    add_count(alloc, pairs, entry.nfiles)?;
    add_text(alloc, pairs, "hash", "md5")?;
    add_text(alloc, pairs, "path", entry.path.as_str())
}

fn out_node(alloc: Global, entry: &PathEntry) -> Result<Node, NoMemory>
    ensures exact { IfOk result (λ node. node ≡ spec.out_node entry.now) }
{
    let mut pairs = PairList::new(alloc);
    add_out_parts(alloc, &mut pairs, entry)?;
    Ok(Node::Pairs(pairs))
}

fn out_nodes(alloc: Global, entries: &[PathEntry]) -> Result<Nodes, NoMemory>
    ensures exact { IfOk result (λ nodes. nodes ≡ map spec.out_node entries.now) }
{
    let mut nodes = Nodes::new(alloc);
    for entry in entries {
        nodes.push(out_node(alloc, entry)?)?;
    }
    Ok(nodes)
}

// ---- entries

fn text_nodes(alloc: Global, texts: &[Text]) -> Result<Nodes, NoMemory>
    ensures exact { IfOk result (λ nodes. nodes ≡ map spec.text_node texts.now) }
{
    let mut nodes = Nodes::new(alloc);
    for text in texts {
        nodes.push(Node::Text(text.copy(alloc)?))?;
    }
    Ok(nodes)
}

fn commands_node(alloc: Global, commands: &[Text]) -> Result<Node, NoMemory>
    ensures exact { IfOk result (λ node. node ≡ spec.commands_node commands.now) }
{
    match commands {
        [] => list_of_texts(alloc, commands),
        [command] => Ok(Node::Text(command.copy(alloc)?)),
        [_, _, ..] => list_of_texts(alloc, commands),
    }
}

fn list_of_texts(alloc: Global, texts: &[Text]) -> Result<Node, NoMemory>
    ensures exact { IfOk result (λ node. node ≡ spec.texts_node texts.now) }
{
    Ok(Node::Items(text_nodes(alloc, texts)?))
}

fn add_commands(alloc: Global, pairs: &mut PairList, commands: &[Text]) -> Result<(), NoMemory>
    ensures added { OnOk result (pairs.new ≡ pairs.old ++ spec.commands_pair commands.now ∷ []) }
{
    let node = commands_node(alloc, commands)?;
    add_pair(alloc, pairs, "cmd", node)
}

// A list of paths under its key; nothing of an empty one.
fn add_paths(
    alloc: Global,
    pairs: &mut PairList,
    key: &str,
    entries: &[PathEntry],
) -> Result<(), NoMemory>
    ensures added { OnOk result (pairs.new ≡ pairs.old ++ spec.paths_part key.now entries.now) }
{
    match entries {
        [] => Ok(()),
        [_, ..] => add_list(alloc, pairs, key, entries),
    }
}

fn add_list(
    alloc: Global,
    pairs: &mut PairList,
    key: &str,
    entries: &[PathEntry],
) -> Result<(), NoMemory>
    ensures added { OnOk result (pairs.new ≡ pairs.old ++ spec.list_pair key.now entries.now ∷ []) }
{
    let nodes = path_nodes(alloc, entries)?;
    add_pair(alloc, pairs, key, Node::Items(nodes))
}

fn add_file(alloc: Global, pairs: &mut PairList, file: &ParamFile) -> Result<(), NoMemory>
    ensures added { OnOk result (pairs.new ≡ pairs.old ++ spec.file_pair file.now ∷ []) }
{
    let keys = file.keys.copy(alloc)?;
    add_pair(alloc, pairs, file.file.as_str(), Node::Pairs(keys))
}

fn file_pairs(alloc: Global, files: &[ParamFile]) -> Result<PairList, NoMemory>
    ensures exact { IfOk result (λ pairs. pairs ≡ map spec.file_pair files.now) }
{
    let mut pairs = PairList::new(alloc);
    for file in files {
        add_file(alloc, &mut pairs, file)?;
    }
    Ok(pairs)
}

// The parameter files; nothing of none.
fn add_params(alloc: Global, pairs: &mut PairList, files: &[ParamFile]) -> Result<(), NoMemory>
    ensures added { OnOk result (pairs.new ≡ pairs.old ++ spec.params_part files.now) }
{
    match files {
        [] => Ok(()),
        [_, ..] => add_files(alloc, pairs, files),
    }
}

fn add_files(alloc: Global, pairs: &mut PairList, files: &[ParamFile]) -> Result<(), NoMemory>
    ensures added { OnOk result (pairs.new ≡ pairs.old ++ spec.files_pair files.now ∷ []) }
{
    let files = file_pairs(alloc, files)?;
    add_pair(alloc, pairs, "params", Node::Pairs(files))
}

fn add_entry_parts(alloc: Global, pairs: &mut PairList, entry: &Entry) -> Result<(), NoMemory>
    ensures added { OnOk result (pairs.new ≡ pairs.old ++ spec.entry_pairs entry.now) }
{
    add_commands(alloc, pairs, entry.commands.as_slice())?;
    add_paths(alloc, pairs, "deps", entry.deps.as_slice())?;
    add_params(alloc, pairs, entry.params.as_slice())?;
    add_paths(alloc, pairs, "outs", entry.outs.as_slice())
}

/// The node of an entry.
pub fn entry_node(alloc: Global, entry: &Entry) -> Result<Node, NoMemory>
    ensures exact { IfOk result (λ node. node ≡ spec.entry_node entry.now) }
{
    let mut pairs = PairList::new(alloc);
    add_entry_parts(alloc, &mut pairs, entry)?;
    Ok(Node::Pairs(pairs))
}

// ---- what outputs were made of

fn paths_of(alloc: Global, entries: &[PathEntry]) -> Result<Texts, NoMemory>
    ensures exact { IfOk result (λ paths. paths ≡ map spec.path_of entries.now) }
{
    let mut paths = Texts::new(alloc);
    for entry in entries {
        paths.push(entry.path.copy(alloc)?)?;
    }
    Ok(paths)
}

// A list of texts under its key; nothing of an empty one.
fn add_texts(alloc: Global, pairs: &mut PairList, key: &str, texts: &[Text]) -> Result<(), NoMemory>
    ensures added { OnOk result (pairs.new ≡ pairs.old ++ spec.texts_part key.now texts.now) }
{
    match texts {
        [] => Ok(()),
        [_, ..] => add_text_list(alloc, pairs, key, texts),
    }
}

fn add_text_list(
    alloc: Global,
    pairs: &mut PairList,
    key: &str,
    texts: &[Text],
) -> Result<(), NoMemory>
    ensures added { OnOk result (pairs.new ≡ pairs.old ++ spec.pair key.now (spec.texts_node texts.now) ∷ []) }
{
    let node = list_of_texts(alloc, texts)?;
    add_pair(alloc, pairs, key, node)
}

fn add_key_parts(alloc: Global, pairs: &mut PairList, entry: &Entry) -> Result<(), NoMemory>
    ensures added { OnOk result (pairs.new ≡ pairs.old ++ spec.key_pairs entry.now) }
{
    add_commands(alloc, pairs, entry.commands.as_slice())?;
    add_paths(alloc, pairs, "deps", entry.deps.as_slice())?;
    add_params(alloc, pairs, entry.params.as_slice())?;
    let outs = paths_of(alloc, entry.outs.as_slice())?;
    add_texts(alloc, pairs, "outs", outs.as_slice())
}

/// The node of what an entry's outputs were made of: that of the entry, with the paths of its outputs alone.
pub fn key_node(alloc: Global, entry: &Entry) -> Result<Node, NoMemory>
    ensures exact { IfOk result (λ node. node ≡ spec.key_node entry.now) }
{
    let mut pairs = PairList::new(alloc);
    add_key_parts(alloc, &mut pairs, entry)?;
    Ok(Node::Pairs(pairs))
}

// ---- track files

fn add_each(alloc: Global, pairs: &mut PairList, more: &[Pair]) -> Result<(), NoMemory>
    ensures added { OnOk result (pairs.new ≡ pairs.old ++ more.now) }
{
    for pair in more {
        pairs.push(pair.copy(alloc)?)?;
    }
    Ok(())
}

fn add_outs(alloc: Global, pairs: &mut PairList, outs: &[PathEntry]) -> Result<(), NoMemory>
    ensures added { OnOk result (pairs.new ≡ pairs.old ++ spec.outs_pair outs.now ∷ []) }
{
    let nodes = out_nodes(alloc, outs)?;
    add_pair(alloc, pairs, "outs", Node::Items(nodes))
}

fn add_track_parts(alloc: Global, pairs: &mut PairList, track: &Track) -> Result<(), NoMemory>
    ensures added { OnOk result (pairs.new ≡ pairs.old ++ spec.track_pairs track.now) }
{
    add_outs(alloc, pairs, track.outs.as_slice())?;
    add_each(alloc, pairs, track.rest.as_slice())
}

/// The node of a track file.
pub fn track_node(alloc: Global, track: &Track) -> Result<Node, NoMemory>
    ensures exact { IfOk result (λ node. node ≡ spec.track_node track.now) }
{
    let mut pairs = PairList::new(alloc);
    add_track_parts(alloc, &mut pairs, track)?;
    Ok(Node::Pairs(pairs))
}

// ---- locks

fn add_stage(
    alloc: Global,
    pairs: &mut PairList,
    stage: &str,
    entry: &Entry,
) -> Result<(), NoMemory>
    ensures added { OnOk result (pairs.new ≡ pairs.old ++ spec.stage_pair (stage.now, entry.now) ∷ []) }
{
    let node = entry_node(alloc, entry)?;
    add_pair(alloc, pairs, stage, node)
}

fn add_stages(alloc: Global, pairs: &mut PairList, book: &LockBook) -> Result<(), NoMemory>
    ensures added { OnOk result (pairs.new ≡ pairs.old ++ map spec.stage_pair book.now) }
{
    for place in 0..book.len() {
        let Some((stage, entry)) = book.at(place) else {
            unreachable!();
        };
        add_stage(alloc, pairs, stage, entry)?;
    }
    Ok(())
}

fn stages_node(alloc: Global, book: &LockBook) -> Result<Node, NoMemory>
    ensures exact { IfOk result (λ node. node ≡ spec.stages_node book.now) }
{
    let mut pairs = PairList::new(alloc);
    add_stages(alloc, &mut pairs, book)?;
    Ok(Node::Pairs(pairs))
}

fn add_book_parts(alloc: Global, pairs: &mut PairList, book: &LockBook) -> Result<(), NoMemory>
    ensures added { OnOk result (pairs.new ≡ pairs.old ++ spec.lock_pairs book.now) }
{
    add_text(alloc, pairs, "schema", "2.0")?;
    let stages = stages_node(alloc, book)?;
    add_pair(alloc, pairs, "stages", stages)
}

/// The node of a book.
pub fn lock_node(alloc: Global, book: &LockBook) -> Result<Node, NoMemory>
    ensures exact { IfOk result (λ node. node ≡ spec.lock_node book.now) }
{
    let mut pairs = PairList::new(alloc);
    add_book_parts(alloc, &mut pairs, book)?;
    Ok(Node::Pairs(pairs))
}
