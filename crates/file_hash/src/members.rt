// The members of a folder: its files, each with the name of its bytes.
ghost use Rattle.std.specs.Prelude.{◌≡◌, [], ◌∷◌, ◌++◌, List, map, length, None, IsTrue, IfOk, IfErr, OnOk, IsErrOf};
ghost use Rattle.dvc_base.specs.declared.limits.What.TheVariants.{Listing as ListingText};
ghost use Rattle.world_api.specs.Tree.{item_at};
ghost use Rattle.world_api.specs.Outside.{tree_of, IsUntouched};
ghost use Rattle.world_api.specs.History.{IsCaused};
ghost use Rattle.file_bytes.specs.Reading.{IsTold};
ghost use Rattle.file_hash.specs.Listing.{in_order, is_before, listing_text};
ghost use Rattle.file_hash.specs.Naming.{if_over};
ghost use Rattle.file_hash.specs.Walk.{AreTold, AreNamed, IsNamed, IsMade, IsMemberFault, IsTextFault};
ghost use Rattle.file_hash.specs.declared.fault.HashFault.TheVariants.{Failed as Blamed};

use crate::digest::{digest_of_file, name_of};
use crate::walk::{Found, follow};
use crate::{HashFault, Listing, Member, print_listing};
use dvc_base::{Bytes, NoMemory, Plain, Rel, What};
use file_bytes::{Piece, ReadFault};
use std::alloc::Global;
use world_api::ReadFiles;

/// The members of the files that a walk has found, in the order of the texts of their paths.
pub fn members_of<F: ReadFiles>(
    alloc: Global,
    files: &mut F,
    at: &Rel,
    found: &[Found],
) -> Result<Listing, HashFault>
    requires told { IsTrue F.tells → AreTold (tree_of (F.history files.old)) at.now found.now }
    ensures named { IsTrue F.tells → IfOk result (λ list. (ms : List Member)
        × AreNamed (tree_of (F.history files.old)) at.now found.now ms × (list ≡ in_order is_before ms)) }
    ensures made { IfOk result (λ list. (ms : List Member)
        × IsMade found.now ms × (list ≡ in_order is_before ms)) }
    ensures kinds { IfErr result (IsMemberFault F.tells at.now) }
    ensures unchanged { IsUntouched F.tells (F.history files.old) (F.history files.new) }
    ensures cause { IsCaused (F.faults files.old) (F.faults files.new) (IsErrOf result Blamed) }
{
    let members = named_members(alloc, files, at, found)?;
    Ok(sorted(alloc, members.as_slice())?)
}

// The members in the order of the walk.
fn named_members<F: ReadFiles>(
    alloc: Global,
    files: &mut F,
    at: &Rel,
    found: &[Found],
) -> Result<Vec<Member>, HashFault>
    requires told { IsTrue F.tells → AreTold (tree_of (F.history files.old)) at.now found.now }
    ensures named { IsTrue F.tells → IfOk result (λ members.
        AreNamed (tree_of (F.history files.old)) at.now found.now members.items) }
    ensures made { IfOk result (λ members. IsMade found.now members.items) }
    ensures kinds { IfErr result (IsMemberFault F.tells at.now) }
    ensures unchanged { IsUntouched F.tells (F.history files.old) (F.history files.new) }
    ensures cause { IsCaused (F.faults files.old) (F.faults files.new) (IsErrOf result Blamed) }
{
    let mut piece = Piece::new();
    let mut members = Vec::new(alloc);
    for file in found {
        let member = named_member(alloc, files, at, file, &mut piece)?;
        add(&mut members, member)?;
    }
    Ok(members)
}

fn add(members: &mut Vec<Member>, member: Member) -> Result<(), NoMemory>
    ensures added { OnOk result (members.new.items ≡ members.old.items ++ member ∷ []) }
{
    members.push(member)?;
    Ok(())
}

// The member that a file is.
fn named_member<F: ReadFiles>(
    alloc: Global,
    files: &mut F,
    at: &Rel,
    file: &Found,
    piece: &mut Piece,
) -> Result<Member, HashFault>
    requires told { IsTrue F.tells →
        IsTold (item_at (tree_of (F.history files.old)) (at.now ++ file.now.path)) file.now.size }
    ensures named { IsTrue F.tells → IfOk result (IsNamed (tree_of (F.history files.old)) at.now file.now) }
    ensures made { IfOk result (λ member. IsMade (file.now ∷ []) (member ∷ [])) }
    ensures kinds { IfErr result (IsMemberFault F.tells at.now) }
    ensures unchanged { IsUntouched F.tells (F.history files.old) (F.history files.new) }
    ensures cause { IsCaused (F.faults files.old) (F.faults files.new) (IsErrOf result Blamed) }
{
    let _ = file.path.parts();
    let whole = follow(alloc, at, file.path.text())?;
    match digest_of_file(files, &whole, file.size, piece) {
        Ok(digest) => Ok(Member {
            path: file.path.copy(alloc)?,
            name: name_of(&digest),
        }),
        Err(ReadFault::Changed { told, found }) => Err(HashFault::Changed {
            path: whole,
            told,
            found,
        }),
        Err(ReadFault::Failed) => Err(HashFault::Failed),
        Err(ReadFault::NoMemory) => Err(HashFault::NoMemory),
    }
}

/// The members in the order of the texts of their paths.
pub fn sorted(alloc: Global, members: &[Member]) -> Result<Listing, NoMemory>
    ensures exact { IfOk result (λ list. list ≡ in_order is_before members.now) }
{
    let sorted = refs_in_order(alloc, members)?;
    copies_of(alloc, sorted.as_slice())
}

fn refs_in_order<'a>(alloc: Global, members: &'a [Member]) -> Result<Vec<&'a Member>, NoMemory>
    ensures exact { IfOk result (λ sorted. map (λ m. m.now) sorted.items ≡ in_order is_before members.now) }
{
    let mut sorted = Vec::new(alloc);
    for member in members {
        sorted.push(member)?;
    }
    sorted.sort_by(|a, b| a.path.text().cmp(b.path.text()))?;
    Ok(sorted)
}

fn copies_of(alloc: Global, members: &[&Member]) -> Result<Listing, NoMemory>
    ensures exact { IfOk result (λ copies. copies ≡ map (λ m. m.now) members.now) }
{
    let mut copies = Listing::new(alloc);
    for member in members {
        copies.push(member.copy(alloc)?)?;
    }
    Ok(copies)
}

/// The text of a listing, where it isn't too long.
pub fn text_of(alloc: Global, list: &Listing) -> Result<Bytes, HashFault>
    ensures exact { IfOk result (λ text. (text ≡ listing_text list.now)
        × (if_over ListingText (length (listing_text list.now)) ≡ None)) }
    ensures kinds { IfErr result (IsTextFault list.now) }
{
    let text = print_listing(alloc, list)?;
    let limit = What::Listing.limit();
    if text.as_slice().len() as u64 > limit {
        return Err(HashFault::TooLarge {
            what: What::Listing,
            limit,
        });
    }
    Ok(text)
}
