// The tracked keys of parameter files, one after another.
ghost use Rattle.std.specs.Prelude.{◌≡◌, ◌++◌, map, IfOk, OnOk};
ghost use Rattle.std.specs.List.{flat_map};
ghost use Rattle.change_check.specs.Compare as spec;
ghost use Rattle.change_check.specs.Compare.{key_order};
ghost use Rattle.change_check.specs.Keys.{tracked_of, tracked_sides};

use crate::diff::LostKey;
use crate::sides::{Beside, Sides, side_by_side};
use dvc_base::{NoMemory, Node, Pair, ParamFile};
use std::alloc::Global;
use std::cmp::Ordering;

// A tracked key of a parameter file, with its value where it is present.
#[derive(Clone, Copy)]
pub(crate) struct TrackedKey<'a> {
    pub(crate) file: &'a str,
    pub(crate) key: &'a str,
    pub(crate) value: Option<&'a Node>,
}

// Keys are in the order of their files' bytes, and those of a file in that of their own.
impl<'a> Beside<TrackedKey<'a>> for TrackedKey<'a> {
    ghost order = { λ a b. key_order (tracked_of a) (tracked_of b) };

    fn order_to(&self, other: &TrackedKey<'a>) -> Ordering {
        self.file.cmp(other.file).then(self.key.cmp(other.key))
    }
}

// The keys of parameter files, which are all present.
pub(crate) fn present_keys<'a>(
    alloc: Global,
    files: &'a [ParamFile],
) -> Result<Vec<TrackedKey<'a>>, NoMemory>
    ensures exact { IfOk result (λ made. map tracked_of made.items ≡ spec.present files.now) }
{
    let mut made = Vec::new(alloc);
    for file in files {
        add_present(file.file.as_str(), file.keys.as_slice(), &mut made)?;
    }
    Ok(made)
}

fn add_present<'a>(
    file: &'a str,
    pairs: &'a [Pair],
    made: &mut Vec<TrackedKey<'a>>,
) -> Result<(), NoMemory>
    ensures exact { OnOk result
        (map tracked_of made.new.items ≡ map tracked_of made.old.items ++ map (spec.present_key file.now) pairs.now) }
{
    for pair in pairs {
        made.push(TrackedKey {
            file,
            key: pair.key.as_str(),
            value: Some(&pair.value),
        })?;
    }
    Ok(())
}

// The keys of these files, and those that are lost.
pub(crate) fn tracked_keys<'a>(
    alloc: Global,
    files: &'a [ParamFile],
    lost: &'a [LostKey],
) -> Result<Vec<TrackedKey<'a>>, NoMemory>
    ensures exact { IfOk result (λ made. map tracked_of made.items ≡ spec.tracked files.now lost.now) }
{
    let present = present_keys(alloc, files)?;
    let lost = lost_keys(alloc, lost)?;
    let sides = side_by_side(alloc, present.as_slice(), lost.as_slice())?;
    last_keys(alloc, sides.as_slice())
}

fn lost_keys<'a>(alloc: Global, lost: &'a [LostKey]) -> Result<Vec<TrackedKey<'a>>, NoMemory>
    ensures exact { IfOk result (λ made. map tracked_of made.items ≡ map spec.lost_key lost.now) }
{
    let mut made = Vec::new(alloc);
    for key in lost {
        made.push(TrackedKey {
            file: key.file.as_str(),
            key: key.key.as_str(),
            value: None,
        })?;
    }
    Ok(made)
}

// The second of two keys that tie.
fn last_keys<'a>(
    alloc: Global,
    sides: &[Sides<'_, TrackedKey<'a>, TrackedKey<'a>>],
) -> Result<Vec<TrackedKey<'a>>, NoMemory>
    ensures exact { IfOk result
        (λ made. map tracked_of made.items ≡ flat_map spec.last_of (map tracked_sides sides.now)) }
{
    let mut made = Vec::new(alloc);
    for side in sides {
        if let Some(key) = side.right.or(side.left) {
            made.push(*key)?;
        }
    }
    Ok(made)
}
