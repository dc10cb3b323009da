// The parameters that a stage tracks, joined for each file.
ghost use Rattle.std.specs.Prelude.{◌≡◌, ◌∷◌, [], ◌<◌, map, fold, length, IfOk, OnOk};
ghost use Rattle.std.specs.List.{flat_map};
ghost use Rattle.dvc_base.specs.declared.node.Node.{out-Node};
ghost use Rattle.stage_schema.specs.Params.{with_text, texts_of, file_want, item_wants, no_want, joined, place_of, with_file, with_want, wants_of};

use crate::node::{is_null, is_text, items_of, pairs_of, text_of};
use crate::{ParamWant, ParamWants};
use dvc_base::{NoMemory, Node, Pair, Text, Texts};
use indexmap::IndexSet;
use std::alloc::Global;
use std::marker::Model;
use std::slice;

/// What the items of `params` ask for, each file once.
pub fn wants_of(alloc: Global, items: &[Node]) -> Result<ParamWants, NoMemory>
    ensures exact { IfOk result (λ wants. wants ≡ wants_of items.now) }
{
    let mut files = IndexSet::new(alloc);
    let mut groups = Vec::new(alloc);
    add_items(alloc, &mut files, &mut groups, items)?;
    copy_groups(alloc, &groups)
}

/// Adds each text of the items that is not among the texts.
pub fn add_texts<'a>(texts: &mut IndexSet<&'a str>, items: &'a [Node]) -> Result<(), NoMemory>
    ensures ok { OnOk result (map (λ text. text.now) texts.new.keys
        ≡ fold with_text (map (λ text. text.now) texts.old.keys) (texts_of items.now)) }
{
    for item in items {
        texts.insert(text_of(item))?;
    }
    Ok(())
}

// What an item asks of a file.
#[derive(Drop)]
struct Want<'a> {
    file: &'a str,
    keys: &'a [Node],
    all: bool,
}

impl<'a> Model for Want<'a> {
    ghost use Rattle.stage_schema.specs.Params.{texts_of};
    ghost use Rattle.stage_schema.specs.declared.stage.ParamWant.{ParamWant as Asked};

    ghost Value = { Asked };

    ghost view = { λ w. record { file = w.file.now; keys = texts_of w.keys.now; all = w.all } };
}

// What is asked of a file so far.
#[derive(Drop)]
struct Group<'a> {
    file: &'a str,
    keys: IndexSet<&'a str>,
    all: bool,
}

impl<'a> Model for Group<'a> {
    ghost use Rattle.std.specs.Prelude.{map};
    ghost use Rattle.stage_schema.specs.declared.stage.ParamWant.{ParamWant as Asked};

    ghost Value = { Asked };

    ghost view = { λ g. record { file = g.file.now; keys = map (λ key. key.now) g.keys.keys; all = g.all } };
}

impl<'a> Group<'a> {
    // Nothing is asked of the file yet.
    fn new(alloc: Global, file: &'a str) -> Group<'a>
        ensures exact { result ≡ no_want file.now }
    {
        Group {
            file,
            keys: IndexSet::new(alloc),
            all: false,
        }
    }

    // A further want of this file.
    fn join(&mut self, want: &Want<'a>) -> Result<(), NoMemory>
        ensures ok { OnOk result (self.new ≡ joined self.old want.now) }
    {
        if self.all || want.all {
            self.all = true;
            self.keys.clear();
            return Ok(());
        }
        add_texts(&mut self.keys, want.keys)
    }

    fn copy(&self, alloc: Global) -> Result<ParamWant, NoMemory>
        ensures same { IfOk result (λ want. want ≡ self.now) }
    {
        let file = Text::of(alloc, self.file)?;
        let keys = Texts::of(alloc, self.keys.as_slice())?;
        Ok(ParamWant {
            file,
            keys,
            all: self.all,
        })
    }
}

fn copy_groups(alloc: Global, groups: &[Group<'_>]) -> Result<ParamWants, NoMemory>
    ensures same { IfOk result (λ wants. wants ≡ groups.now) }
{
    let mut wants = ParamWants::new(alloc);
    for group in groups {
        wants.push(group.copy(alloc)?)?;
    }
    Ok(wants)
}

fn add_items<'a>(
    alloc: Global,
    files: &mut IndexSet<&'a str>,
    groups: &mut Vec<Group<'a>>,
    items: &'a [Node],
) -> Result<(), NoMemory>
    requires tied { map (λ file. file.now) files.old.keys ≡ map (λ group. group.file) groups.old.items }
    ensures tied { OnOk result (map (λ file. file.now) files.new.keys ≡ map (λ group. group.file) groups.new.items) }
    ensures ok { OnOk result (groups.new.items
        ≡ fold with_want groups.old.items (flat_map (λ item. item_wants (out-Node item)) items.now)) }
{
    for item in items {
        add_item(alloc, files, groups, item)?;
    }
    Ok(())
}

fn add_item<'a>(
    alloc: Global,
    files: &mut IndexSet<&'a str>,
    groups: &mut Vec<Group<'a>>,
    item: &'a Node,
) -> Result<(), NoMemory>
    requires tied { map (λ file. file.now) files.old.keys ≡ map (λ group. group.file) groups.old.items }
    ensures tied { OnOk result (map (λ file. file.now) files.new.keys ≡ map (λ group. group.file) groups.new.items) }
    ensures ok { OnOk result (groups.new.items ≡ fold with_want groups.old.items (item_wants (out-Node item.now))) }
{
    if is_text(item) {
        let want = Want {
            file: "params.yaml",
            keys: slice::from_ref(item),
            all: false,
        };
        return add_want(alloc, files, groups, &want);
    }
    add_files(alloc, files, groups, pairs_of(item))
}

fn add_files<'a>(
    alloc: Global,
    files: &mut IndexSet<&'a str>,
    groups: &mut Vec<Group<'a>>,
    pairs: &'a [Pair],
) -> Result<(), NoMemory>
    requires tied { map (λ file. file.now) files.old.keys ≡ map (λ group. group.file) groups.old.items }
    ensures tied { OnOk result (map (λ file. file.now) files.new.keys ≡ map (λ group. group.file) groups.new.items) }
    ensures ok { OnOk result (groups.new.items ≡ fold with_want groups.old.items (map file_want pairs.now)) }
{
    for pair in pairs {
        let want = want_of(pair);
        add_want(alloc, files, groups, &want)?;
    }
    Ok(())
}

// A file with the keys that are listed, or as a whole.
fn want_of(pair: &Pair) -> Want<'_>
    ensures exact { result ≡ file_want pair.now }
{
    Want {
        file: pair.key.as_str(),
        keys: items_of(&pair.value),
        all: is_null(&pair.value),
    }
}

// Joins a want to what is asked of its file. The set of files finds the group's place.
fn add_want<'a>(
    alloc: Global,
    files: &mut IndexSet<&'a str>,
    groups: &mut Vec<Group<'a>>,
    want: &Want<'a>,
) -> Result<(), NoMemory>
    requires tied { map (λ file. file.now) files.old.keys ≡ map (λ group. group.file) groups.old.items }
    ensures tied { OnOk result (map (λ file. file.now) files.new.keys ≡ map (λ group. group.file) groups.new.items) }
    ensures ok { OnOk result (groups.new.items ≡ with_want groups.old.items want.now) }
{
    let place = group_at(alloc, files, groups, want.file)?;
    groups[place].join(want)
}

// The place of the file's group, which is made where there is none.
fn group_at<'a>(
    alloc: Global,
    files: &mut IndexSet<&'a str>,
    groups: &mut Vec<Group<'a>>,
    file: &'a str,
) -> Result<usize, NoMemory>
    requires tied { map (λ file. file.now) files.old.keys ≡ map (λ group. group.file) groups.old.items }
    ensures tied { OnOk result (map (λ file. file.now) files.new.keys ≡ map (λ group. group.file) groups.new.items) }
    ensures ok { OnOk result (groups.new.items ≡ with_file groups.old.items file.now) }
    ensures place { IfOk result (λ place. place ≡ place_of groups.old.items file.now) }
    ensures within { IfOk result (λ place. place < length groups.new.items) }
{
    let (place, is_new) = files.insert_full(file)?;
    if is_new {
        groups.push(Group::new(alloc, file))?;
    }
    Ok(place)
}
