// A listing as a text.
ghost use Rattle.std.specs.Prelude.{◌≡◌, ◌<◌, ◌++◌, Some, IfOk, OnOk};
ghost use Rattle.std.specs.List.{AllByRecursion};
ghost use Rattle.std.specs.Char.{digit_char};
ghost use Rattle.std.specs.Str.{IsUtf8};
ghost use Rattle.json.specs.Print.{escape_byte, escape_letter};
ghost use Rattle.file_hash.specs.Listing.{escaped, escaped_text, unit_text, member_text, listing_text, IsListing};
ghost use Rattle.file_hash.specs.Reading.{read_listing, IsSound};

use crate::{Listing, Member};
use dvc_base::{Bytes, NoMemory, Writer};
use std::alloc::Global;

/// The text of a listing.
pub fn print_listing(alloc: Global, list: &Listing) -> Result<Bytes, NoMemory>
    ensures exact { IfOk result (λ text. text ≡ listing_text list.now) }
    ensures read_back { IfOk result (λ text. IsListing list.now → read_listing text ≡ Some list.now) }
{
    let mut out = Writer::new(alloc);
    put_members(&mut out, list.as_slice())?;
    Ok(out.finish())
}

#[tactic(auto, unfolding(crate::specs::Listing::listing_text))]
fn put_members(out: &mut Writer, members: &[Member]) -> Result<(), NoMemory>
    ensures exact { OnOk result (out.new ≡ out.old ++ listing_text members.now) }
    ensures sound { OnOk result (AllByRecursion IsSound members.now) }
{
    let Some((first, rest)) = members.split_first() else {
        return out.put(b"[]");
    };
    out.put(b"[")?;
    put_member(out, first)?;
    for member in rest {
        out.put(b", ")?;
        put_member(out, member)?;
    }
    out.put(b"]")
}

fn put_member(out: &mut Writer, member: &Member) -> Result<(), NoMemory>
    ensures exact { OnOk result (out.new ≡ out.old ++ member_text member.now) }
    ensures sound { OnOk result (IsSound member.now) }
{
    let _ = member.path.parts();
    out.put(b"{\"md5\": \"")?;
    out.put(member.name.digits())?;
    out.put(b"\", \"relpath\": \"")?;
    put_escaped(out, member.path.text())?;
    out.put(b"\"}")
}

// Puts a text as it stands between quotes.
fn put_escaped(out: &mut Writer, text: &str) -> Result<(), NoMemory>
    ensures exact { OnOk result (out.new ≡ out.old ++ escaped_text text.now) }
    ensures utf8 { OnOk result (IsUtf8 text.now) }
{
    for character in text.chars() {
        put_character(out, character)?;
    }
    Ok(())
}

#[tactic(auto, unfolding(crate::specs::Listing::escaped))]
fn put_character(out: &mut Writer, character: char) -> Result<(), NoMemory>
    ensures exact { OnOk result (out.new ≡ out.old ++ escaped character) }
{
    let code = character as u32;
    if code < 128 {
        return put_ascii(out, code as u8);
    }
    if code < 65_536 {
        return put_unit(out, code as u16);
    }
    let above = code - 65_536;
    put_unit(out, (55_296 + above / 1_024) as u16)?;
    put_unit(out, (56_320 + above % 1_024) as u16)
}

// A character up to U+007F.
#[tactic(auto, unfolding(json::specs::Print::escape_byte))]
fn put_ascii(out: &mut Writer, byte: u8) -> Result<(), NoMemory>
    ensures exact { OnOk result (out.new ≡ out.old ++ escape_byte byte) }
{
    let letter = escape_letter(byte);
    if letter > 0 {
        return out.put(&[b'\\', letter]);
    }
    if byte < 32 {
        return out.put(&[
            b'\\',
            b'u',
            b'0',
            b'0',
            hex_digit(byte / 16),
            hex_digit(byte % 16),
        ]);
    }
    out.put(&[byte])
}

// The letter of a character's short escape, or 0 where it has none.
fn escape_letter(byte: u8) -> u8
    ensures exact { result ≡ escape_letter byte }
{
    match byte {
        b'"' | b'\\' => byte,
        8 => b'b',
        12 => b'f',
        b'\n' => b'n',
        b'\r' => b'r',
        b'\t' => b't',
        _ => 0,
    }
}

// A unit of UTF-16, in four digits.
fn put_unit(out: &mut Writer, unit: u16) -> Result<(), NoMemory>
    ensures exact { OnOk result (out.new ≡ out.old ++ unit_text unit) }
{
    out.put(&[
        b'\\',
        b'u',
        hex_digit((unit / 4_096) as u8),
        hex_digit((unit / 256 % 16) as u8),
        hex_digit((unit / 16 % 16) as u8),
        hex_digit((unit % 16) as u8),
    ])
}

fn hex_digit(digit: u8) -> u8
    requires { digit < 16 }
    ensures { result ≡ digit_char digit }
{
    if digit < 10 {
        b'0' + digit
    } else {
        b'a' - 10 + digit
    }
}
