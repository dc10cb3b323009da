// Text and bytes that are owned. A contract sees each as its list of bytes.
ghost use Rattle.std.specs.Prelude.{◌≡◌, ℕ, List, IfOk, IsAscii, string_bytes};

use crate::{NoMemory, Plain};
use std::alloc::Global;
use std::marker::Model;

/// A text, in UTF-8.
#[derive(Drop)]
pub struct Text {
    text: String,
}

impl Model for Text {
    ghost Value = { List ℕ };

    ghost view = { λ t. string_bytes t.text };
}

impl Text {
    /// The text of its own.
    pub fn of(alloc: Global, text: &str) -> Result<Text, NoMemory>
        ensures same { IfOk result (λ own. own ≡ text.now) }
    {
        let text = String::from_str(alloc, text)?;
        Ok(Text { text })
    }

    /// The text of a string, which is not copied.
    pub fn from_string(text: String) -> Text
        ensures same { result ≡ string_bytes text }
    {
        Text { text }
    }

    /// The text of ASCII bytes.
    pub fn of_ascii(alloc: Global, bytes: &[u8]) -> Result<Text, NoMemory>
        requires { IsAscii bytes.now }
        ensures same { IfOk result (λ text. text ≡ bytes.now) }
    {
        let mut text = String::new(alloc);
        for byte in bytes {
            text.push(char::from(*byte))?;
        }
        Ok(Text { text })
    }

    pub fn as_str(&self) -> &str
        ensures same { result.now ≡ self.now }
    {
        self.text.as_str()
    }
}

impl Plain for Text {
    fn copy(&self, alloc: Global) -> Result<Text, NoMemory> {
        Text::of(alloc, self.as_str())
    }
}

/// A sequence of bytes, as a file holds it.
#[derive(Drop)]
pub struct Bytes {
    bytes: Vec<u8>,
}

impl Model for Bytes {
    ghost Value = { List ℕ };

    ghost view = { λ b. b.bytes.items };
}

impl Bytes {
    /// The bytes of its own.
    pub fn of(alloc: Global, bytes: &[u8]) -> Result<Bytes, NoMemory>
        ensures same { IfOk result (λ own. own ≡ bytes.now) }
    {
        let bytes = Vec::from_slice(alloc, bytes)?;
        Ok(Bytes { bytes })
    }

    /// The bytes of a vector, which are not copied.
    pub fn from_vec(bytes: Vec<u8>) -> Bytes
        ensures same { result ≡ bytes.items }
    {
        Bytes { bytes }
    }

    pub fn as_slice(&self) -> &[u8]
        ensures same { result.now ≡ self.now }
    {
        self.bytes.as_slice()
    }
}

impl Plain for Bytes {
    fn copy(&self, alloc: Global) -> Result<Bytes, NoMemory> {
        Bytes::of(alloc, self.as_slice())
    }
}
