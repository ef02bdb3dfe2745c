//! The references that a step has completed.

ghost use Rattle.std.specs.Prelude.{◌≡◌, ◌+◌, ◌<◌, ◌≤◌, [], ◌∷◌, ◌++◌, length};

use crate::place::Reference;
use std::marker::Model;

/// The maximum number of references of one step.
const MOST: usize = 40;

/// The completed references of one step, in order: at most 40. `clear` only sets the length.
#[derive(Drop)]
pub struct Refs {
    /// The references, followed by unused slots.
    places: [Reference; MOST],
    /// The number of references.
    len: usize,
}

impl Model for Refs {
    ghost use Rattle.std.specs.Prelude.{◌≡◌, ◌≤◌, length, take};
    ghost use Rattle.m36_model.specs.References.{RefsFields};

    ghost Value = { RefsFields };

    ghost view = { λ r. record { items = take r.len r.places } };

    ghost invariant = { λ r. r.len ≤ 40 };
}

impl Refs {
    /// An empty list.
    pub fn new() -> Refs
        ensures { result.items ≡ [] }
    {
        Refs {
            places: [Reference::default(); MOST],
            len: 0,
        }
    }

    /// Removes all references.
    #[inline(always)]
    pub fn clear(&mut self)
        ensures { self.new.items ≡ [] }
    {
        self.len = 0;
    }

    /// Adds a reference at the end. The list has to have fewer than 40 references.
    #[inline(always)]
    pub fn push(&mut self, reference: Reference)
        requires { length self.old.items < 40 }
        ensures items { self.new.items ≡ self.old.items ++ reference ∷ [] }
        ensures len { length self.new.items ≡ length self.old.items + 1 }
    {
        let len = self.len;
        self.places[len] = reference;
        self.len = len + 1;
    }

    /// The number of references.
    pub fn len(&self) -> usize
        ensures { result ≡ length self.now.items }
    {
        self.as_slice().len()
    }

    /// The references, in order.
    pub fn as_slice(&self) -> &[Reference]
        ensures value { result.now ≡ self.now.items }
        ensures fits { length result.now ≤ 40 }
    {
        &self.places[..self.len]
    }
}
