//! The descriptor segment base register.

ghost use Rattle.std.specs.Prelude.{◌≡◌};
ghost use Rattle.m36_desc.specs.Descriptors.{dbr_of, dbr_even, dbr_odd};

use m36_word::{Field, Pair, Word};
use std::marker::Model;

/// The descriptor segment base register: the address and length of the descriptor segment, and the
/// segment numbers of the stacks.
#[derive(Clone, Copy, PartialEq, Eq)]
pub struct Dbr {
    /// Core address of the descriptor segment, or of its page table if it is paged; 24 bits.
    pub addr: u32,
    /// The number of the last block of 16 words of the descriptor segment; 14 bits.
    pub bnd: u16,
    /// Stack number: the stack of ring r is segment 8 * stack + r; 12 bits.
    pub stack: u16,
    /// The descriptor segment is contiguous in core, without a page table.
    pub unpaged: bool,
}

impl Model for Dbr {
    ghost use Rattle.std.specs.Prelude.{◌<◌, ◌^◌};
    ghost use Rattle.m36_desc.specs.Fields.{DbrFields};

    ghost Value = { DbrFields };

    ghost view = { λ d. record { addr = d.addr; bnd = d.bnd; unpaged = d.unpaged; stack = d.stack } };

    ghost invariant = { λ d. (d.addr < 2 ^ 24) × (d.bnd < 2 ^ 14) × (d.stack < 2 ^ 12) };

    ghost inverse = { λ d. record { addr = d.addr; bnd = d.bnd; unpaged = d.unpaged; stack = d.stack } };
}

impl Dbr {
    /// Reads the register from a pair of words.
    pub fn of_words(p: Pair) -> Dbr
        ensures { result ≡ dbr_of p.even p.odd }
    {
        Dbr {
            addr: Field::<0, 24>::get(p.even) as u32,
            bnd: Field::<1, 14>::get(p.odd) as u16,
            stack: Field::<24, 12>::get(p.odd) as u16,
            unpaged: Field::<19, 1>::get(p.odd) == 1,
        }
    }

    /// The pair of words of the register. All bits without a name are zero.
    #[tactic(auto, using(crate::proofs::RoundTrips::dbr_back))]
    pub fn to_words(&self) -> Pair
        ensures even { result.even ≡ dbr_even self.now }
        ensures odd { result.odd ≡ dbr_odd self.now }
        ensures back { dbr_of result.even result.odd ≡ self.now }
    {
        let odd = ((self.bnd as u64) << 21) + ((self.unpaged as u64) << 16) + self.stack as u64;
        Pair {
            even: Word::low((self.addr as u64) << 12),
            odd: Word::low(odd),
        }
    }
}
