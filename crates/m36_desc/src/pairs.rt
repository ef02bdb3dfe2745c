//! The indirect pairs: ITS (indirect to segment) and ITP (indirect through pointer register).

ghost use Rattle.std.specs.Prelude.{◌≡◌};
ghost use Rattle.m36_desc.specs.Descriptors.{its_of, its_even, its_odd, itp_of, itp_even, itp_odd};

use m36_word::{Field, Pair, Word};
use std::marker::Model;

/// An indirect-to-segment pair.
#[derive(Clone, Copy, PartialEq, Eq)]
pub struct Its {
    /// Word number; 18 bits.
    pub word: u32,
    /// Segment number; 15 bits.
    pub seg: u16,
    /// Ring number; 3 bits.
    pub ring: u8,
    /// Bit number; 6 bits.
    pub bit: u8,
    /// The tag with which address formation continues after the pair; 6 bits.
    pub tag: u8,
}

impl Model for Its {
    ghost use Rattle.std.specs.Prelude.{◌<◌, ◌^◌};
    ghost use Rattle.m36_desc.specs.Fields.{ItsFields};

    ghost Value = { ItsFields };

    ghost view = { λ p. record { seg = p.seg; ring = p.ring; word = p.word; bit = p.bit; tag = p.tag } };

    ghost invariant = { λ p. (p.word < 2 ^ 18) × (p.seg < 2 ^ 15) × (p.ring < 2 ^ 3)
        × (p.bit < 2 ^ 6) × (p.tag < 2 ^ 6) };

    ghost inverse = { λ p. record { seg = p.seg; ring = p.ring; word = p.word; bit = p.bit; tag = p.tag } };
}

/// An indirect-through-pointer-register pair.
#[derive(Clone, Copy, PartialEq, Eq)]
pub struct Itp {
    /// Word number that is added to that of the pointer register; 18 bits.
    pub word: u32,
    /// Number of the pointer register; 3 bits.
    pub pr: u8,
    /// Bit number; 6 bits.
    pub bit: u8,
    /// The tag with which address formation continues after the pair; 6 bits.
    pub tag: u8,
}

impl Model for Itp {
    ghost use Rattle.std.specs.Prelude.{◌<◌, ◌^◌};
    ghost use Rattle.m36_desc.specs.Fields.{ItpFields};

    ghost Value = { ItpFields };

    ghost view = { λ p. record { pr = p.pr; word = p.word; bit = p.bit; tag = p.tag } };

    ghost invariant = { λ p. (p.word < 2 ^ 18) × (p.pr < 2 ^ 3) × (p.bit < 2 ^ 6)
        × (p.tag < 2 ^ 6) };

    ghost inverse = { λ p. record { pr = p.pr; word = p.word; bit = p.bit; tag = p.tag } };
}

/// The tag of an ITS pair's even word.
pub const ITS_TAG: u8 = 0o43;

/// The tag of an ITP pair's even word.
pub const ITP_TAG: u8 = 0o41;

impl Its {
    /// Reads the fields of a pair. The tag of the even word is not checked.
    #[inline(always)]
    pub fn of_words(p: Pair) -> Its
        ensures { result ≡ its_of p.even p.odd }
    {
        Its {
            word: Field::<0, 18>::get(p.odd) as u32,
            seg: Field::<3, 15>::get(p.even) as u16,
            ring: Field::<18, 3>::get(p.even) as u8,
            bit: Field::<21, 6>::get(p.odd) as u8,
            tag: Field::<30, 6>::get(p.odd) as u8,
        }
    }

    /// The pair with these fields and tag 43 octal in its even word. All other bits are zero.
    #[tactic(auto, using(crate::proofs::RoundTrips::its_back))]
    pub fn to_words(&self) -> Pair
        ensures even { result.even ≡ its_even self.now }
        ensures odd { result.odd ≡ its_odd self.now }
        ensures back { its_of result.even result.odd ≡ self.now }
    {
        let even = ((self.seg as u64) << 18) + ((self.ring as u64) << 15) + ITS_TAG as u64;
        let odd = ((self.word as u64) << 18) + ((self.bit as u64) << 9) + self.tag as u64;
        Pair {
            even: Word::low(even),
            odd: Word::low(odd),
        }
    }
}

impl Itp {
    /// Reads the fields of a pair. The tag of the even word is not checked.
    #[inline(always)]
    pub fn of_words(p: Pair) -> Itp
        ensures { result ≡ itp_of p.even p.odd }
    {
        Itp {
            word: Field::<0, 18>::get(p.odd) as u32,
            pr: Field::<0, 3>::get(p.even) as u8,
            bit: Field::<21, 6>::get(p.odd) as u8,
            tag: Field::<30, 6>::get(p.odd) as u8,
        }
    }

    /// The pair with these fields and tag 41 octal in its even word. All other bits are zero.
    #[tactic(auto, using(crate::proofs::RoundTrips::itp_back))]
    pub fn to_words(&self) -> Pair
        ensures even { result.even ≡ itp_even self.now }
        ensures odd { result.odd ≡ itp_odd self.now }
        ensures back { itp_of result.even result.odd ≡ self.now }
    {
        let even = ((self.pr as u64) << 33) + ITP_TAG as u64;
        let odd = ((self.word as u64) << 18) + ((self.bit as u64) << 9) + self.tag as u64;
        Pair {
            even: Word::low(even),
            odd: Word::low(odd),
        }
    }
}
