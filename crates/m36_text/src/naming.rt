//! Names of segments, files, entries and symbols.

ghost use Rattle.std.specs.Prelude.{ℕ, List, [], ◌∷◌, ◌++◌, ◌≡◌, ◌≤◌, length, OnOk, OnErr};
ghost use Rattle.std.specs.Option.{SomeIff};
ghost use Rattle.std.specs.List.{fold};
ghost use Rattle.std.specs.Cmp.Rules.{hashing};
ghost use Rattle.std.proofs.Common.{rules};
ghost use Rattle.m36_text.specs.FileNames.{SourceNameRoundTrip};
ghost use Rattle.m36_text.specs.Texts.{name_limit};
ghost use Rattle.m36_text.specs.Seeds.{with_low_byte, name_writes};

use arrayvec::ArrayVec;
use m36_word::NoMemory;
use std::alloc::Global;
use std::hash::{Hash, Hasher};
use std::marker::Model;

/// A name of at most 32 bytes. It holds them in place and allocates nothing. Its model is the list
/// of its bytes.
#[derive(PartialEq, Eq, PartialOrd, Ord, Default, Debug, Drop)]
pub struct Name {
    items: ArrayVec<u8, 32>,
}

impl Model for Name {
    ghost use Rattle.std.specs.Prelude.{ℕ, List};

    ghost Value = { List ℕ };

    ghost view = { λ n. n.items.items };

    ghost inverse = { λ l. record { items = record { items = l } } };
}

impl Hash for Name {
    ghost hash_input = { name_writes };

    ghost respects_eq = { Prim.search (hashing, rules) };

    // Writes the whole words of eight bytes at once, and then one word with the length and the
    // remaining bytes.
    fn hash<H: Hasher>(&self, state: &mut H) {
        let bytes = self.items.as_slice();
        let whole = bytes.len() / 8 * 8;
        state.write(&bytes[..whole]);
        state.write_u64(last_word(bytes.len() as u64, &bytes[whole..]));
    }
}

// The last word that a name of this length writes to a hasher: each byte in turn is shifted into
// the low end of `length`. At most seven bytes follow the whole words of a name, so its length
// remains in the top bits.
fn last_word(length: u64, bytes: &[u8]) -> u64
    ensures { result ≡ fold with_low_byte length bytes.now }
{
    bytes
        .iter()
        .fold(length, |word, byte| word << 8 | *byte as u64)
}

impl Name {
    /// The name with these bytes. None exactly if there are more than 32.
    pub fn new(t: &[u8]) -> Option<Name>
        ensures { SomeIff result (length t.now ≤ name_limit) t.now }
    {
        let mut items = ArrayVec::new();
        match items.try_extend_from_slice(t) {
            Ok(()) => Some(Name { items }),
            Err(_) => None,
        }
    }

    /// The bytes in order, at most 32.
    pub fn bytes(&self) -> &[u8]
        ensures value { result.now ≡ self.now }
        ensures fits { length self.now ≤ name_limit }
    {
        self.items.as_slice()
    }

    /// A copy of the name.
    pub fn copied(&self) -> Name
        ensures { result ≡ self.now }
    {
        match Name::new(self.bytes()) {
            Some(name) => name,
            None => unreachable!(),
        }
    }
}

/// A list of names that grows at its end. Its model is the list of the names, each as a list of
/// bytes.
#[derive(Drop)]
pub struct Names {
    items: Vec<Name>,
}

impl Model for Names {
    ghost use Rattle.std.specs.Prelude.{ℕ, List};

    ghost Value = { List (List ℕ) };

    ghost view = { λ n. n.items.items };
}

impl Names {
    /// An empty list.
    pub fn new(alloc: Global) -> Names
        ensures { result ≡ [] }
    {
        Names {
            items: Vec::new(alloc),
        }
    }

    /// Adds a name at the end. If memory runs out, nothing changes.
    pub fn push(&mut self, x: Name) -> Result<(), NoMemory>
        ensures ok { OnOk result (self.new ≡ self.old ++ x ∷ []) }
        ensures err { OnErr result (self.new ≡ self.old) }
    {
        self.items.push(x)?;
        Ok(())
    }

    /// The names in order.
    pub fn items(&self) -> &[Name]
        ensures { result.now ≡ self.now }
    {
        self.items.as_slice()
    }
}

/// A law about the names of sources: if the suffix of a source is removed from the name of an
/// object's source, the result is the name of the object.
#[tactic(auto, using(crate::proofs::NameLaws::source_names))]
pub fn name_laws()
    ensures { SourceNameRoundTrip }
{}
