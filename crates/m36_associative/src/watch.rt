//! Addresses of core words that are watched, because something that is kept depends on these words.

ghost use Rattle.std.specs.Prelude.{ℕ, ◌≡◌, ◌≤◌, [], true, IsTrue, IsFalse};
ghost use Rattle.m36_associative.specs.Watched.{is_watched};

use arrayvec::ArrayVec;
use std::marker::Model;

/// The maximum number of watched addresses.
const ROOM: usize = 128;

/// Watched addresses; one may be in the list more than once. Contracts see their list.
#[derive(Drop)]
pub struct Watch {
    places: ArrayVec<u32, 128>,
    low: u32,
    high: u32,
}

impl Model for Watch {
    ghost use Rattle.std.specs.Prelude.{List, ℕ};
    ghost use Rattle.m36_associative.specs.Watched.{AreWithin};

    ghost Value = { List ℕ };

    ghost view = { λ w. w.places.items };

    ghost invariant = { λ w. AreWithin w.places.items w.low w.high };
}

/// The lesser of two addresses.
fn lower(a: u32, b: u32) -> u32
    ensures first { result ≤ a }
    ensures second { result ≤ b }
{
    if a < b { a } else { b }
}

/// The greater of two addresses.
fn higher(a: u32, b: u32) -> u32
    ensures first { a ≤ result }
    ensures second { b ≤ result }
{
    if a < b { b } else { a }
}

impl Watch {
    /// No addresses.
    pub fn new() -> Watch
        ensures { result ≡ [] }
    {
        Watch {
            places: ArrayVec::new(),
            low: u32::MAX,
            high: 0,
        }
    }

    /// Whether an address is watched.
    #[inline(always)]
    #[tactic(auto, using(crate::proofs::Watching::not_below, crate::proofs::Watching::not_above))]
    pub fn has(&self, a: u32) -> bool
        ensures { result ≡ is_watched self.now a }
    {
        if a < self.low {
            return false;
        }
        if self.high < a {
            return false;
        }
        self.is_listed(a)
    }

    /// As `has`, by a search of the list.
    #[inline(never)]
    #[tactic(auto, unfolding(crate::specs::Watched::is_watched))]
    fn is_listed(&self, a: u32) -> bool
        ensures { result ≡ is_watched self.now a }
    {
        self.places.as_slice().contains(&a)
    }

    /// Removes all addresses.
    pub fn clear(&mut self)
        ensures { self.new ≡ [] }
    {
        self.places.clear();
        self.low = u32::MAX;
        self.high = 0;
    }

    /// Adds an address, which may be watched already. Returns false if there is no room; then
    /// nothing has changed.
    pub fn add(&mut self, a: u32) -> bool
        ensures added { IsTrue result → is_watched self.new a ≡ true }
        ensures more { (b : ℕ) → is_watched self.old b ≡ true → is_watched self.new b ≡ true }
        ensures full { IsFalse result → self.new ≡ self.old }
    {
        if self.places.len() >= ROOM {
            return false;
        }
        self.places.push(a);
        self.low = lower(self.low, a);
        self.high = higher(self.high, a);
        true
    }
}
