//! Pointer registers.

ghost use Rattle.std.specs.Prelude.{◌≡◌};
ghost use Rattle.m36_desc.specs.Descriptors.{ptr_of, ptr_even, ptr_odd};

use crate::pairs::Its;
use m36_word::{Field, Pair};
use std::marker::Model;

/// A pointer register: a bit of a word of a segment, and the ring whose rights count for a
/// reference through it.
#[derive(Clone, Copy, PartialEq, Eq)]
pub struct Ptr {
    /// Word number; 18 bits.
    pub word: u32,
    /// Segment number; 15 bits.
    pub seg: u16,
    /// Ring number; 3 bits.
    pub ring: u8,
    /// Bit number; 6 bits.
    pub bit: u8,
}

impl Model for Ptr {
    ghost use Rattle.std.specs.Prelude.{◌<◌, ◌^◌};
    ghost use Rattle.m36_desc.specs.Fields.{PtrFields};

    ghost Value = { PtrFields };

    ghost view = { λ p. record { seg = p.seg; ring = p.ring; word = p.word; bit = p.bit } };

    ghost invariant = { λ p. (p.word < 2 ^ 18) × (p.seg < 2 ^ 15) × (p.ring < 2 ^ 3)
        × (p.bit < 2 ^ 6) };

    ghost inverse = { λ p. record { seg = p.seg; ring = p.ring; word = p.word; bit = p.bit } };
}

impl Ptr {
    /// Reads the pointer of an ITS pair. The tags of the pair are not checked.
    #[inline(always)]
    pub fn of_words(p: Pair) -> Ptr
        ensures { result ≡ ptr_of p.even p.odd }
    {
        Ptr {
            word: Field::<0, 18>::get(p.odd) as u32,
            seg: Field::<3, 15>::get(p.even) as u16,
            ring: Field::<18, 3>::get(p.even) as u8,
            bit: Field::<21, 6>::get(p.odd) as u8,
        }
    }

    /// The ITS pair of the pointer, with tag 0 in its odd word.
    #[tactic(auto, using(crate::proofs::RoundTrips::ptr_back))]
    pub fn to_words(&self) -> Pair
        ensures even { result.even ≡ ptr_even self.now }
        ensures odd { result.odd ≡ ptr_odd self.now }
        ensures back { ptr_of result.even result.odd ≡ self.now }
    {
        let its = Its {
            word: self.word,
            seg: self.seg,
            ring: self.ring,
            bit: self.bit,
            tag: 0,
        };
        its.to_words()
    }
}
