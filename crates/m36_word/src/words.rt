//! A list of words.

ghost use Rattle.std.specs.Prelude.{ℕ, List, [], ◌∷◌, ◌++◌, ◌≡◌, ◌<◌, ◌^◌, OnOk, OnErr};
ghost use Rattle.std.specs.List.{All};

use crate::memory::NoMemory;
use crate::word::Word;
use std::alloc::Global;
use std::marker::Model;

/// A list of words that grows at its end. Contracts see it as a list of numbers below 2^36.
#[derive(Debug, Drop)]
pub struct Words {
    items: Vec<Word>,
}

impl Model for Words {
    ghost use Rattle.std.specs.Prelude.{ℕ, List, ◌<◌, ◌^◌};
    ghost use Rattle.std.specs.List.{All};

    ghost Value = { List ℕ };

    ghost view = { λ w. w.items.items };

    ghost invariant = { λ w. All (λ word. word < 2 ^ 36) w.items.items };
}

impl Words {
    /// An empty list.
    pub fn new(alloc: Global) -> Words
        ensures { result ≡ [] }
    {
        Words {
            items: Vec::new(alloc),
        }
    }

    /// Adds a word at the end. If memory runs out, nothing changes.
    pub fn push(&mut self, x: Word) -> Result<(), NoMemory>
        ensures ok { OnOk result (self.new ≡ self.old ++ x ∷ []) }
        ensures err { OnErr result (self.new ≡ self.old) }
    {
        // The contract of `value` gives the bound that the list's invariant has for each word.
        let _value = x.value();
        self.items.push(x)?;
        Ok(())
    }

    /// The words in order.
    pub fn slice(&self) -> &[Word]
        ensures value { result.now ≡ self.now }
        ensures below { All (λ word. word < 2 ^ 36) self.now }
    {
        self.items.as_slice()
    }
}
