//! The page table word.

ghost use Rattle.std.specs.Prelude.{◌≡◌};
ghost use Rattle.m36_desc.specs.Descriptors.{ptw_of, ptw_word};

use m36_word::{Field, Word};
use std::marker::Model;

/// A page table word: the frame of a page, and whether the page was used and modified.
#[derive(Clone, Copy, PartialEq, Eq)]
pub struct Ptw {
    /// Core address of the frame in units of 64 words; 18 bits. The low four bits are taken as
    /// zero.
    pub addr: u32,
    /// Number of the directed fault that a reference gets if `f` is off; 2 bits.
    pub fc: u8,
    /// A reference has used this word.
    pub used: bool,
    /// A write has used this word.
    pub modified: bool,
    /// The page is in core.
    pub f: bool,
}

impl Model for Ptw {
    ghost use Rattle.std.specs.Prelude.{◌<◌, ◌^◌};
    ghost use Rattle.m36_desc.specs.Fields.{PtwFields};

    ghost Value = { PtwFields };

    ghost view = { λ p. record { addr = p.addr; used = p.used; modified = p.modified; f = p.f; fc = p.fc } };

    ghost invariant = { λ p. (p.addr < 2 ^ 18) × (p.fc < 2 ^ 2) };

    ghost inverse = { λ p. record { addr = p.addr; used = p.used; modified = p.modified; f = p.f; fc = p.fc } };
}

impl Ptw {
    /// Reads the fields of a word.
    #[inline(always)]
    pub fn of_words(w: Word) -> Ptw
        ensures { result ≡ ptw_of w }
    {
        Ptw {
            addr: Field::<0, 18>::get(w) as u32,
            fc: Field::<34, 2>::get(w) as u8,
            used: Field::<26, 1>::get(w) == 1,
            modified: Field::<29, 1>::get(w) == 1,
            f: Field::<33, 1>::get(w) == 1,
        }
    }

    /// The word with these fields. All other bits are zero.
    #[tactic(auto, using(crate::proofs::RoundTrips::ptw_back))]
    pub fn to_words(&self) -> Word
        ensures word { result ≡ ptw_word self.now }
        ensures back { ptw_of result ≡ self.now }
    {
        let marks = ((self.used as u64) << 9) + ((self.modified as u64) << 6);
        Word::low(((self.addr as u64) << 18) + marks + ((self.f as u64) << 2) + self.fc as u64)
    }
}
