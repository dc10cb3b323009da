// Items of `vars` that are texts.
ghost use Rattle.std.specs.Prelude.{◌≡◌, [], ◌∷◌, ◌++◌, OnOk, option_copied};
ghost use Rattle.lock_files.specs.Nodes.{pair};
ghost use Rattle.template_vars.specs.Answer.{IsAnswer, Leaves};
ghost use Rattle.template_vars.specs.Item as spec;

use crate::TemplateFault;
use crate::merge::value_at;
use dvc_base::{NoMemory, Node, Pair, PairList, Plain, Text};
use std::alloc::Global;

/// What an item of `vars` asks for.
#[derive(Drop)]
pub struct WantedFile<'a> {
    pub file: &'a str,
    /// The keys, with commas between; none where the whole file is wanted.
    pub keys: Option<&'a str>,
}

/// What a text of `vars` asks for: `file`, or `file:key1,key2`.
pub fn wanted_of(item: &str) -> WantedFile<'_>
    ensures file { result.file.now ≡ spec.file_in item.now }
    ensures keys { option_copied result.keys ≡ spec.keys_in item.now }
{
    match item.split_once(':') {
        Some((file, keys)) => WantedFile {
            file,
            keys: Some(keys),
        },
        None => WantedFile {
            file: item,
            keys: None,
        },
    }
}

/// The pairs with these keys, in the order of the keys, or the first key that is missing.
pub fn chosen(alloc: Global, keys: &str, pairs: &[Pair]) -> Result<PairList, TemplateFault>
    ensures answer { IsAnswer result (spec.chosen keys.now pairs.now) }
{
    let mut made = PairList::new(alloc);
    put_keys(alloc, &mut made, keys, pairs)?;
    Ok(made)
}

fn put_keys(
    alloc: Global,
    made: &mut PairList,
    keys: &str,
    pairs: &[Pair],
) -> Result<(), TemplateFault>
    ensures answer { Leaves result made.new (spec.with_keys pairs.now (spec.keys_of keys.now) made.old) }
{
    let mut rest = Some(keys);
    while let Some(left) = rest {
        let (key, behind) = cut_key(left);
        put_key(alloc, made, key, pairs)?;
        rest = behind;
    }
    Ok(())
}

// The first key, and what stands behind its comma.
fn cut_key(text: &str) -> (&str, Option<&str>)
    ensures exact { spec.keys_of text.now ≡ result.0.now ∷ spec.keys_left (option_copied result.1) }
{
    match text.split_once(',') {
        Some((key, rest)) => (key, Some(rest)),
        None => (text, None),
    }
}

fn put_key(
    alloc: Global,
    made: &mut PairList,
    key: &str,
    pairs: &[Pair],
) -> Result<(), TemplateFault>
    ensures answer { Leaves result made.new (spec.with_key pairs.now made.old key.now) }
{
    if value_at(made.as_slice(), key).is_some() {
        return Ok(());
    }
    match value_at(pairs, key) {
        Some(value) => Ok(put_pair(alloc, made, key, value)?),
        None => Err(TemplateFault::NoKey {
            key: Text::of(alloc, key)?,
        }),
    }
}

fn put_pair(alloc: Global, made: &mut PairList, key: &str, value: &Node) -> Result<(), NoMemory>
    ensures ok { OnOk result (made.new ≡ made.old ++ pair key.now value.now ∷ []) }
{
    let value = value.copy(alloc)?;
    let key = Text::of(alloc, key)?;
    made.push(Pair { key, value })?;
    Ok(())
}
