// Names of objects, which are told from one another by the MD5 of what they hold.
ghost use Rattle.std.specs.Prelude.{◌≡◌, [], ◌∷◌, ◌++◌, length, take, drop, codes, IsTrue, IfOk, OnOk};
ghost use Rattle.std.specs.List.{list_all};
ghost use Rattle.dvc_base.specs.Name.{is_digit, are_digits, name_with, name_in, name_text, ending_of, place_of};

use crate::path::push_part;
use crate::{NoMemory, Rel, Text};
use std::alloc::Global;
use std::marker::Model;

// How many digits a name has.
const DIGITS: usize = 32;

// How many bytes the name of a folder's listing has.
const LISTING_LEN: usize = 36;

// What stands behind the digits in the name of a folder's listing.
const ENDING: &str = ".dir";

/// The name of an object: the MD5 of its bytes in lower-case digits, and whether these are a folder's listing.
#[derive(Clone, Copy, Debug, PartialEq, Eq)]
pub struct Name {
    pub digits: [u8; 32],
    pub dir: bool,
}

impl Model for Name {
    ghost use Rattle.std.specs.Prelude.{IsTrue};
    ghost use Rattle.dvc_base.specs.Name.{ObjectName, are_digits};

    ghost Value = { ObjectName };

    ghost view = { λ name. record { digits = name.digits; dir = name.dir } };

    ghost invariant = { λ name. IsTrue (are_digits name.digits) };

    ghost inverse = { λ value. record { digits = value.digits; dir = value.dir } };
}

impl Name {
    /// The name that has this text: 32 lower-case hexadecimal digits, and `.dir` behind those of a listing.
    pub fn parse(text: &[u8]) -> Option<Name>
        ensures exact { result ≡ name_in text.now }
    {
        if text.len() == DIGITS {
            return with_digits(text, false);
        }
        if text.len() != LISTING_LEN {
            return None;
        }
        let (digits, ending) = text.split_at(DIGITS);
        if ending != ENDING.as_bytes() {
            return None;
        }
        with_digits(digits, true)
    }

    /// Writes the text at the front of the buffer, and answers how many bytes it has.
    pub fn print(&self, into: &mut [u8; 36]) -> usize
        ensures count { result ≡ length (name_text self.now) }
        ensures written { into.new ≡ name_text self.now ++ drop (length (name_text self.now)) into.old }
        ensures digits { IsTrue (are_digits self.now.digits) }
    {
        into[..DIGITS].copy_from_slice(&self.digits);
        if !self.dir {
            return DIGITS;
        }
        into[DIGITS..].copy_from_slice(ENDING.as_bytes());
        LISTING_LEN
    }

    /// The digits.
    pub fn digits(&self) -> &[u8]
        ensures same { result.now ≡ self.now.digits }
    {
        self.digits.as_slice()
    }

    /// What stands behind the digits.
    pub fn ending(&self) -> &str
        ensures exact { result.now ≡ ending_of self.now.dir }
    {
        ending(self.dir)
    }

    /// Where the object stands, below `.dvc/cache` or a remote.
    pub fn place(&self, alloc: Global) -> Result<Rel, NoMemory>
        ensures exact { IfOk result (λ path. path ≡ place_of self.now) }
    {
        let parts = place_parts(alloc, &self.digits, ending(self.dir))?;
        Rel::of_parts(alloc, parts)
    }
}

// The name of these digits, if they are some.
fn with_digits(text: &[u8], dir: bool) -> Option<Name>
    requires { length text.now ≡ 32 }
    ensures exact { result ≡ name_with text.now dir }
{
    if !are_lower_hex(text) {
        return None;
    }
    let mut digits = [0; DIGITS];
    digits.copy_from_slice(text);
    Some(Name { digits, dir })
}

pub(crate) fn are_lower_hex(text: &[u8]) -> bool
    ensures exact { result ≡ list_all is_digit text.now }
{
    for byte in text {
        if !is_lower_hex(*byte) {
            return false;
        }
    }
    true
}

fn is_lower_hex(byte: u8) -> bool
    ensures exact { result ≡ is_digit byte }
{
    matches!(byte, b'0'..=b'9' | b'a'..=b'f')
}

fn ending(dir: bool) -> &'static str
    ensures exact { result.now ≡ ending_of dir }
{
    if dir { ENDING } else { "" }
}

// The components of the place of the object with these digits.
fn place_parts(alloc: Global, digits: &[u8], ending: &str) -> Result<Vec<Text>, NoMemory>
    requires { IsTrue (are_digits digits.now) }
    ensures exact { IfOk result (λ parts. parts.items ≡
        codes "files" ∷ codes "md5" ∷ take 2 digits.now ∷ (drop 2 digits.now ++ ending.now) ∷ []) }
{
    let mut parts = Vec::new(alloc);
    push_part(alloc, &mut parts, "files")?;
    push_part(alloc, &mut parts, "md5")?;
    push_digits(alloc, &mut parts, &digits[..2], "")?;
    push_digits(alloc, &mut parts, &digits[2..], ending)?;
    Ok(parts)
}

fn push_digits(
    alloc: Global,
    parts: &mut Vec<Text>,
    digits: &[u8],
    ending: &str,
) -> Result<(), NoMemory>
    requires { IsTrue (list_all is_digit digits.now) }
    ensures ok { OnOk result (parts.new.items ≡ parts.old.items ++ (digits.now ++ ending.now) ∷ []) }
{
    parts.push(digits_text(alloc, digits, ending)?)?;
    Ok(())
}

// The text of digits with an ending behind them.
fn digits_text(alloc: Global, digits: &[u8], ending: &str) -> Result<Text, NoMemory>
    requires { IsTrue (list_all is_digit digits.now) }
    ensures exact { IfOk result (λ text. text ≡ digits.now ++ ending.now) }
{
    let mut text = String::new(alloc);
    for digit in digits {
        text.push(char::from(*digit))?;
    }
    text.push_str(ending)?;
    Ok(Text::from_string(text))
}
