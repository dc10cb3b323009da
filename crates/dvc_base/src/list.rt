// Lists of plain data, each seen by a contract as the list of its items.
ghost use Rattle.std.specs.Prelude.{◌≡◌, List, [], ◌∷◌, ◌++◌, map, OnOk, OnErr, IfOk};

use crate::{NoMemory, Plain, Text};
use std::alloc::Global;
use std::marker::Model;

/// A list of items in order.
#[derive(Drop)]
pub struct Plural<T> {
    items: Vec<T>,
}

/// A list of texts.
pub type Texts = Plural<Text>;

/// A list of numbers.
pub type Numbers = Plural<u32>;

impl<T> Model for Plural<T> {
    ghost Value = { List T };

    ghost view = { λ p. p.items.items };
}

impl<T> Plural<T> {
    /// The empty list, which takes no memory.
    pub fn new(alloc: Global) -> Plural<T>
        ensures empty { result ≡ [] }
    {
        Plural {
            items: Vec::new(alloc),
        }
    }

    pub fn as_slice(&self) -> &[T]
        ensures same { result.now ≡ self.now }
    {
        self.items.as_slice()
    }
}

impl<T: Drop> Plural<T> {
    /// Adds an item at the end.
    pub fn push(&mut self, item: T) -> Result<(), NoMemory>
        ensures ok { OnOk result (self.new ≡ self.old ++ item ∷ []) }
        ensures err { OnErr result (self.new ≡ self.old) }
    {
        self.items.push(item)?;
        Ok(())
    }
}

impl Texts {
    /// The texts of their own.
    pub fn of(alloc: Global, texts: &[&str]) -> Result<Texts, NoMemory>
        ensures same { IfOk result (λ own. own ≡ map (λ text. text.now) texts.now) }
    {
        let mut own = Texts::new(alloc);
        for text in texts {
            own.push(Text::of(alloc, text)?)?;
        }
        Ok(own)
    }
}

impl<T: Plain> Plain for Plural<T> {
    fn copy(&self, alloc: Global) -> Result<Plural<T>, NoMemory> {
        let mut items = Vec::new(alloc);
        for item in self.items.as_slice() {
            items.push(item.copy(alloc)?)?;
        }
        Ok(Plural { items })
    }
}
