// The differences between what is remembered of a stage and what is seen of it.
ghost use Rattle.std.specs.Prelude.{◌≡◌, ◌↔◌, [], ◌++◌, map, IfOk, IfSome, IsTrue, OnOk, option_copied, option_map};
ghost use Rattle.std.specs.List.{flat_map};
ghost use Rattle.yaml_print.specs.Sound.{Each, IsSound};
ghost use Rattle.params.specs.Canonical.{canonical};
ghost use Rattle.lock_files.specs.Refused.{is_among};
ghost use Rattle.change_check.specs.Compare as spec;
ghost use Rattle.change_check.specs.Compare.{path_order};
ghost use Rattle.change_check.specs.Keys.{tracked_of, tracked_sides, IsSoundKey, IsCanonicalKey, CanCompare};
ghost use Rattle.change_check.specs.Sides.{sides_of};
ghost use Rattle.change_check.specs.Sound.{AreSound, AreCanonical};

use crate::diff::{Diff, Diffs, Gaps, How, LostKey};
use crate::keys::{TrackedKey, present_keys, tracked_keys};
use crate::same::{has_name, same_texts};
use crate::seen::{Seen, SeenPath};
use crate::sides::{Beside, Sides, side_by_side};
use dvc_base::{NoMemory, Node, ParamFile, Plain, Text};
use lock_files::{Entry, PathEntry};
use params::same_value;
use std::alloc::Global;
use std::cmp::Ordering;

/// The differences between what is remembered of a stage, which may be nothing, and what is seen of it: of its
/// commands, its dependencies, its parameters and its outputs.
pub fn compare(
    alloc: Global,
    entry: Option<&Entry>,
    seen: &Seen,
    gaps: &Gaps,
) -> Result<Diffs, NoMemory>
    requires sound { IfSome entry (λ e. AreSound e.now.params) }
    requires canonical { AreCanonical seen.now.params }
    ensures exact { IfOk result (λ diffs. diffs ≡ spec.compare (option_copied entry.entry) seen.now gaps.now) }
    ensures nothing { IfOk result (λ diffs. spec.AreInOrder (option_copied entry.entry) seen.now
        → IsTrue (spec.is_unchanged (option_copied entry.entry) seen.now gaps.now) ↔ (diffs ≡ [])) }
{
    let mut diffs = Diffs::new(alloc);
    add_command(entry, seen, &mut diffs)?;
    add_deps(alloc, deps_of(entry), seen.deps.as_slice(), &mut diffs)?;
    add_params(
        alloc,
        params_of(entry),
        seen.params.as_slice(),
        gaps.lost.as_slice(),
        &mut diffs,
    )?;
    add_outs(
        alloc,
        gaps.absent.as_slice(),
        outs_of(entry),
        seen.outs.as_slice(),
        &mut diffs,
    )?;
    Ok(diffs)
}

fn deps_of<'a>(entry: Option<&'a Entry>) -> &'a [PathEntry]
    ensures exact { result.now ≡ spec.deps_of (option_copied entry.entry) }
{
    match entry {
        Some(entry) => entry.deps.as_slice(),
        None => &[],
    }
}

fn params_of<'a>(entry: Option<&'a Entry>) -> &'a [ParamFile]
    ensures exact { result.now ≡ spec.params_of (option_copied entry.entry) }
{
    match entry {
        Some(entry) => entry.params.as_slice(),
        None => &[],
    }
}

fn outs_of<'a>(entry: Option<&'a Entry>) -> &'a [PathEntry]
    ensures exact { result.now ≡ spec.outs_of (option_copied entry.entry) }
{
    match entry {
        Some(entry) => entry.outs.as_slice(),
        None => &[],
    }
}

fn add_command(entry: Option<&Entry>, seen: &Seen, diffs: &mut Diffs) -> Result<(), NoMemory>
    ensures exact { OnOk result (diffs.new ≡ diffs.old ++ spec.command_diffs (option_copied entry.entry) seen.now) }
{
    if has_commands(entry, seen) {
        return Ok(());
    }
    diffs.push(Diff::Command)
}

fn has_commands(entry: Option<&Entry>, seen: &Seen) -> bool
    ensures exact { result ≡ spec.has_commands (option_copied entry.entry) seen.now }
{
    match entry {
        Some(entry) => same_texts(entry.commands.as_slice(), seen.commands.as_slice()),
        None => false,
    }
}

// ---- paths

impl Beside<SeenPath> for PathEntry {
    ghost order = { path_order };

    fn order_to(&self, other: &SeenPath) -> Ordering {
        self.path.as_str().cmp(other.path.as_str())
    }
}

type PathSides<'a> = Sides<'a, PathEntry, SeenPath>;

fn add_deps(
    alloc: Global,
    told: &[PathEntry],
    seen: &[SeenPath],
    diffs: &mut Diffs,
) -> Result<(), NoMemory>
    ensures exact { OnOk result (diffs.new ≡ diffs.old ++ spec.dep_diffs told.now seen.now) }
{
    let sides = side_by_side(alloc, told, seen)?;
    add_each_dep(alloc, sides.as_slice(), diffs)
}

fn add_each_dep(alloc: Global, sides: &[PathSides<'_>], diffs: &mut Diffs) -> Result<(), NoMemory>
    ensures exact { OnOk result (diffs.new ≡ diffs.old ++ flat_map spec.dep_diff (map sides_of sides.now)) }
{
    for side in sides {
        add_dep(alloc, side, diffs)?;
    }
    Ok(())
}

fn add_dep(alloc: Global, side: &PathSides<'_>, diffs: &mut Diffs) -> Result<(), NoMemory>
    ensures exact { OnOk result (diffs.new ≡ diffs.old ++ spec.dep_diff (sides_of side.now)) }
{
    if let Some(how) = how_path(side) {
        let path = Text::of(alloc, path_of(side))?;
        diffs.push(Diff::Dep { path, how })?;
    }
    Ok(())
}

fn add_outs(
    alloc: Global,
    absent: &[Text],
    told: &[PathEntry],
    seen: &[SeenPath],
    diffs: &mut Diffs,
) -> Result<(), NoMemory>
    ensures exact { OnOk result (diffs.new ≡ diffs.old ++ spec.out_diffs absent.now told.now seen.now) }
{
    let sides = side_by_side(alloc, told, seen)?;
    add_each_out(alloc, absent, sides.as_slice(), diffs)
}

fn add_each_out(
    alloc: Global,
    absent: &[Text],
    sides: &[PathSides<'_>],
    diffs: &mut Diffs,
) -> Result<(), NoMemory>
    ensures exact { OnOk result
        (diffs.new ≡ diffs.old ++ flat_map (spec.out_diff absent.now) (map sides_of sides.now)) }
{
    for side in sides {
        add_out(alloc, absent, side, diffs)?;
    }
    Ok(())
}

fn add_out(
    alloc: Global,
    absent: &[Text],
    side: &PathSides<'_>,
    diffs: &mut Diffs,
) -> Result<(), NoMemory>
    ensures exact { OnOk result (diffs.new ≡ diffs.old ++ spec.out_diff absent.now (sides_of side.now)) }
{
    if let Some(how) = how_out(absent, side) {
        let path = Text::of(alloc, path_of(side))?;
        diffs.push(Diff::Out { path, how })?;
    }
    Ok(())
}

fn path_of<'a>(side: &PathSides<'a>) -> &'a str
    ensures exact { result.now ≡ spec.path_of (option_copied side.now.left) (option_copied side.now.right) }
{
    match (side.left, side.right) {
        (Some(told), _) => told.path.as_str(),
        (None, Some(seen)) => seen.path.as_str(),
        (None, None) => "",
    }
}

fn how_path(side: &PathSides<'_>) -> Option<How>
    ensures exact { result ≡ spec.how_path (option_copied side.now.left) (option_copied side.now.right) }
{
    let Some(seen) = side.right else {
        return Some(How::Deleted);
    };
    let Some(named) = &seen.named else {
        return Some(How::Deleted);
    };
    match side.left {
        None => Some(How::New),
        Some(told) if has_name(told, named) => None,
        Some(_) => Some(How::Modified),
    }
}

// An output that is as it is remembered may be absent from the cache. A stage has few outputs.
fn how_out(absent: &[Text], side: &PathSides<'_>) -> Option<How>
    ensures exact { result ≡ spec.how_out absent.now (option_copied side.now.left) (option_copied side.now.right) }
{
    match how_path(side) {
        Some(how) => Some(how),
        None if is_among(path_of(side), absent) => Some(How::NotInCache),
        None => None,
    }
}

fn is_among(path: &str, paths: &[Text]) -> bool
    ensures exact { result ≡ is_among path.now paths.now }
{
    for other in paths {
        if other.as_str() == path {
            return true;
        }
    }
    false
}

// ---- parameters

type KeySides<'a> = Sides<'a, TrackedKey<'a>, TrackedKey<'a>>;

fn add_params(
    alloc: Global,
    told: &[ParamFile],
    seen: &[ParamFile],
    lost: &[LostKey],
    diffs: &mut Diffs,
) -> Result<(), NoMemory>
    requires sound { AreSound told.now }
    requires canonical { AreCanonical seen.now }
    ensures exact { OnOk result (diffs.new ≡ diffs.old
        ++ spec.param_diffs (spec.present told.now) (spec.tracked seen.now lost.now)) }
{
    let told = present_keys(alloc, told)?;
    let seen = tracked_keys(alloc, seen, lost)?;
    add_keys(alloc, told.as_slice(), seen.as_slice(), diffs)
}

fn add_keys(
    alloc: Global,
    told: &[TrackedKey<'_>],
    seen: &[TrackedKey<'_>],
    diffs: &mut Diffs,
) -> Result<(), NoMemory>
    requires sound { Each IsSoundKey (map tracked_of told.now) }
    requires canonical { Each IsCanonicalKey (map tracked_of seen.now) }
    ensures exact { OnOk result (diffs.new ≡ diffs.old
        ++ spec.param_diffs (map tracked_of told.now) (map tracked_of seen.now)) }
{
    let sides = side_by_side(alloc, told, seen)?;
    add_each_key(alloc, sides.as_slice(), diffs)
}

fn add_each_key(alloc: Global, sides: &[KeySides<'_>], diffs: &mut Diffs) -> Result<(), NoMemory>
    requires can { Each (λ s. CanCompare (tracked_sides s)) sides.now }
    ensures exact { OnOk result (diffs.new ≡ diffs.old ++ flat_map spec.param_diff (map tracked_sides sides.now)) }
{
    for side in sides {
        add_key(alloc, side, diffs)?;
    }
    Ok(())
}

fn add_key(alloc: Global, side: &KeySides<'_>, diffs: &mut Diffs) -> Result<(), NoMemory>
    requires can { CanCompare (tracked_sides side.now) }
    ensures exact { OnOk result (diffs.new ≡ diffs.old ++ spec.param_diff (tracked_sides side.now)) }
{
    let Some(key) = side.left.or(side.right) else {
        return Ok(());
    };
    if let Some(how) = how_key(side) {
        let file = Text::of(alloc, key.file)?;
        let key = Text::of(alloc, key.key)?;
        diffs.push(Diff::Param { file, key, how })?;
    }
    Ok(())
}

fn how_key(side: &KeySides<'_>) -> Option<How>
    requires can { CanCompare (tracked_sides side.now) }
    ensures exact { let p = tracked_sides side.now in result ≡ spec.how_key p.0 p.1 }
{
    let Some(found) = value_at(side.right) else {
        return Some(How::Deleted);
    };
    match value_at(side.left) {
        None => Some(How::New),
        Some(told) if has_value(told, found) => None,
        Some(_) => Some(How::Modified),
    }
}

fn value_at<'a>(key: Option<&TrackedKey<'a>>) -> Option<&'a Node>
    ensures exact { option_copied result ≡ spec.value_at (option_map (λ k. tracked_of k.now) key.entry) }
{
    match key {
        Some(key) => key.value,
        None => None,
    }
}

fn has_value(told: &Node, found: &Node) -> bool
    requires sound { IsSound 64 told.now }
    requires canonical { IsSound 64 found.now × (canonical 64 found.now ≡ found.now) }
    ensures exact { result ≡ spec.same_value told.now found.now }
{
    same_value(told, found)
}
