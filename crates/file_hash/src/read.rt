// A text read as a listing.
ghost use Rattle.std.specs.Prelude.{◌≡◌, map, MatchResult, IfOk, Some, option_map};
ghost use Rattle.dvc_base.specs.Normal.{IsNormal};
ghost use Rattle.world_api.specs.Calls.{are_apart};
ghost use Rattle.serde_json.specs.View.{view, items_view};
ghost use Rattle.file_hash.specs.Listing.{IsListing, in_order, path_at};
ghost use Rattle.file_hash.specs.Reading as spec;
ghost use Rattle.file_hash.specs.Reading.{IsUnread, IsMember, AreMembers, is_earlier, array_in};

use crate::members::sorted;
use crate::{Listing, ListingFault, Member};
use dvc_base::{Name, NoMemory, PathFault, Rel, is_at_or_below};
use serde_json::Value;
use std::alloc::Global;

/// The listing that a text is, in the order of the texts of paths.
pub fn read_listing(alloc: Global, text: &[u8]) -> Result<Listing, ListingFault>
    ensures exact { MatchResult result
        (λ list. spec.read_listing text.now ≡ Some list)
        (IsUnread (spec.read_listing text.now)) }
    ensures good { IfOk result IsListing }
{
    let members = read_members(alloc, text)?;
    if !lie_apart(alloc, members.as_slice())? {
        return Err(ListingFault::Bad);
    }
    Ok(sorted(alloc, members.as_slice())?)
}

// The members of a text, in its own order.
fn read_members(alloc: Global, text: &[u8]) -> Result<Listing, ListingFault>
    ensures exact { MatchResult result
        (λ ms. spec.members_of_text text.now ≡ Some ms)
        (IsUnread (spec.members_of_text text.now)) }
    ensures good { IfOk result AreMembers }
{
    match Value::from_slice(alloc, text) {
        Ok(value) => read_array(alloc, &value),
        Err(e) if e.is_memory() => Err(ListingFault::NoMemory),
        Err(_) => Err(ListingFault::Bad),
    }
}

fn read_array(alloc: Global, value: &Value) -> Result<Listing, ListingFault>
    ensures exact { MatchResult result
        (λ ms. array_in (view value.now) ≡ Some ms)
        (IsUnread (array_in (view value.now))) }
    ensures good { IfOk result AreMembers }
{
    let Some(items) = value.as_array() else {
        return Err(ListingFault::Bad);
    };
    read_items(alloc, items.as_slice())
}

fn read_items(alloc: Global, items: &[Value]) -> Result<Listing, ListingFault>
    ensures exact { MatchResult result
        (λ ms. spec.members_in (items_view items.now) ≡ Some ms)
        (IsUnread (spec.members_in (items_view items.now))) }
    ensures good { IfOk result AreMembers }
{
    let mut members = Listing::new(alloc);
    for item in items {
        let member = read_member(alloc, item)?;
        members.push(member)?;
    }
    Ok(members)
}

// The member that an item of the array is.
fn read_member(alloc: Global, item: &Value) -> Result<Member, ListingFault>
    ensures exact { MatchResult result
        (λ m. spec.member_in (view item.now) ≡ Some m)
        (IsUnread (spec.member_in (view item.now))) }
    ensures good { IfOk result IsMember }
{
    let Some(digits) = text_in(item, "md5") else {
        return Err(ListingFault::Bad);
    };
    let Some(name) = name_of_digits(digits) else {
        return Err(ListingFault::Bad);
    };
    let Some(text) = text_in(item, "relpath") else {
        return Err(ListingFault::Bad);
    };
    let path = path_of_text(alloc, text)?;
    Ok(Member { path, name })
}

// The text of a member of an object.
fn text_in<'a>(item: &'a Value, key: &str) -> Option<&'a str>
    ensures exact { option_map (λ text. text.now) result ≡ spec.text_in key.now (view item.now) }
{
    let found = item.get(key)?;
    found.as_str()
}

fn name_of_digits(digits: &str) -> Option<Name>
    ensures exact { result ≡ spec.name_of_digits digits.now }
{
    if digits.len() != 32 {
        return None;
    }
    Name::parse(digits.as_bytes())
}

// The path whose own text this is.
fn path_of_text(alloc: Global, text: &str) -> Result<Rel, ListingFault>
    ensures exact { MatchResult result
        (λ path. spec.path_of_text text.now ≡ Some path)
        (IsUnread (spec.path_of_text text.now)) }
    ensures normal { IfOk result IsNormal }
{
    match Rel::root(alloc).join(alloc, text) {
        Ok(path) if is_own(&path, text) => Ok(path),
        Err(PathFault::NoMemory) => Err(ListingFault::NoMemory),
        _ => Err(ListingFault::Bad),
    }
}

// The path is not the root, and this is its text.
fn is_own(path: &Rel, text: &str) -> bool
    ensures exact { result ≡ spec.is_own path.now text.now }
    ensures normal { IsNormal path.now }
{
    !path.parts().is_empty() && path.text() == text
}

// Whether no two of the members overlap: in the order of components what lies below a path follows it at once.
fn lie_apart(alloc: Global, members: &[Member]) -> Result<bool, NoMemory>
    requires good { AreMembers members.now }
    ensures exact { IfOk result (λ apart. apart ≡ are_apart (map path_at members.now)) }
{
    let sorted = in_component_order(alloc, members)?;
    Ok(
        sorted
            .as_slice()
            .is_sorted_by(|a, b| !is_at_or_below(&b.path, &a.path)),
    )
}

fn in_component_order<'a>(alloc: Global, members: &'a [Member]) -> Result<Vec<&'a Member>, NoMemory>
    ensures exact { IfOk result (λ sorted. map (λ m. m.now) sorted.items ≡ in_order is_earlier members.now) }
{
    let mut sorted = Vec::new(alloc);
    for member in members {
        sorted.push(member)?;
    }
    sorted.sort_by(|a, b| a.path.parts().cmp(b.path.parts()))?;
    Ok(sorted)
}
