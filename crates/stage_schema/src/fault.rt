// Why a `dvc.yaml` says no stages.
ghost use Rattle.std.specs.Prelude.{◌≡◌, ◌⊎◌, ◌++◌, map, codes, string_bytes, IfOk, OnOk};
ghost use Rattle.std.specs.List.{flat_map};
ghost use Rattle.stage_schema.specs.Refusal.{dotted, schema_at, unsupported_at};
ghost use Rattle.stage_schema.specs.Schema.{stage_at, do_at};
ghost use Rattle.stage_schema.specs.declared.fault.ExpandFault.TheVariants.{NoMemory as Memory};

use dvc_base::{NoMemory, PathFault, Rel, Text};
use std::alloc::Global;

/// Why a `dvc.yaml` says no stages. A key is the path of keys to what is refused, joined by dots.
#[derive(Drop)]
pub enum ExpandFault {
    /// The key, or the value at the key, is none that may stand there.
    Schema { key: Text },
    /// The key asks for what the tool leaves out.
    Unsupported { key: Text },
    /// The text is no path of the workspace.
    Outside { text: Text, why: PathFault },
    /// There are too many stages. The count is that of the first stage that is one too many.
    TooMany { count: u64 },
    /// No variable has the name.
    NoVariable { key: Text },
    /// A list or a mapping stands where a text is put together.
    NotScalar { key: Text },
    /// A file of variables is missing.
    NoFile { file: Rel },
    /// A file of variables lacks the key.
    NoKey { file: Rel, key: Text },
    /// Memory ran out.
    NoMemory,
}

impl From<NoMemory> for ExpandFault {
    ghost use Rattle.stage_schema.specs.declared.fault.ExpandFault.TheVariants.{NoMemory as Memory};

    ghost from_gives = { λ _ fault. fault ≡ Memory };

    fn from(_: NoMemory) -> ExpandFault {
        ExpandFault::NoMemory
    }
}

/// The refusal of what stands at the end of a path of keys.
pub fn schema_at(alloc: Global, keys: &[&str]) -> ExpandFault
    ensures exact { (result ≡ Memory) ⊎ (result ≡ schema_at (map (λ key. key.now) keys.now)) }
{
    match dotted(alloc, keys) {
        Ok(key) => ExpandFault::Schema { key },
        Err(NoMemory) => ExpandFault::NoMemory,
    }
}

/// The answer that what stands at the end of a path of keys is left out.
pub fn unsupported_at(alloc: Global, keys: &[&str]) -> ExpandFault
    ensures exact { (result ≡ Memory) ⊎ (result ≡ unsupported_at (map (λ key. key.now) keys.now)) }
{
    match dotted(alloc, keys) {
        Ok(key) => ExpandFault::Unsupported { key },
        Err(NoMemory) => ExpandFault::NoMemory,
    }
}

/// The text of the place where the keys of a stage stand.
pub fn stage_place(alloc: Global, name: &str) -> Result<Text, NoMemory>
    ensures exact { IfOk result (λ text. text ≡ stage_at name.now) }
{
    dotted(alloc, &["stages", name])
}

/// The text of the place where the keys of a stage's `do` stand.
pub fn do_place(alloc: Global, name: &str) -> Result<Text, NoMemory>
    ensures exact { IfOk result (λ text. text ≡ do_at name.now) }
{
    dotted(alloc, &["stages", name, "do"])
}

fn dotted(alloc: Global, keys: &[&str]) -> Result<Text, NoMemory>
    ensures exact { IfOk result (λ text. text ≡ dotted (map (λ key. key.now) keys.now)) }
{
    let Some((first, others)) = keys.split_first() else {
        return Ok(Text::from_string(String::new(alloc)));
    };
    let mut text = String::from_str(alloc, first)?;
    push_others(&mut text, others)?;
    Ok(Text::from_string(text))
}

fn push_others(text: &mut String, keys: &[&str]) -> Result<(), NoMemory>
    ensures ok { OnOk result (string_bytes text.new
        ≡ string_bytes text.old ++ flat_map (λ further. codes "." ++ further) (map (λ key. key.now) keys.now)) }
{
    for key in keys {
        text.push('.')?;
        text.push_str(key)?;
    }
    Ok(())
}
