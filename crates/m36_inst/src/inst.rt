//! Instruction words.

ghost use Rattle.std.specs.Prelude.{◌≡◌};
ghost use Rattle.m36_inst.specs.Instruction.{inst_of, inst_word};

use m36_word::{Field, Word};
use std::marker::Model;

/// The fields of an instruction word.
#[derive(Clone, Copy, PartialEq, Eq)]
pub struct Inst {
    /// The address; 18 bits. If `by_pr` is on, its first 3 bits are the number of a pointer
    /// register, and the other 15 a signed offset.
    pub y: u32,
    /// The operation code without bit 27; 9 bits.
    pub code: u16,
    /// The tag; 6 bits.
    pub tag: u8,
    /// Bit 27, the tenth bit of the operation code.
    pub bit27: bool,
    /// The interrupt inhibit bit, which nothing here uses.
    pub inhibit: bool,
    /// The address is relative to a pointer register.
    pub by_pr: bool,
}

impl Model for Inst {
    ghost use Rattle.std.specs.Prelude.{◌<◌, ◌^◌};
    ghost use Rattle.m36_inst.specs.Fields.{InstFields};

    ghost Value = { InstFields };

    ghost view = { λ i. record { y = i.y; code = i.code; bit27 = i.bit27; inhibit = i.inhibit; by_pr = i.by_pr; tag = i.tag } };

    ghost invariant = { λ i. (i.y < 2 ^ 18) × (i.code < 2 ^ 9) × (i.tag < 2 ^ 6) };

    ghost inverse = { λ i. record { y = i.y; code = i.code; bit27 = i.bit27; inhibit = i.inhibit; by_pr = i.by_pr; tag = i.tag } };
}

impl Inst {
    /// Reads the fields of a word.
    #[tactic(auto, using(crate::proofs::Instructions::comes_back))]
    pub fn of_word(w: Word) -> Inst
        ensures value { result ≡ inst_of w }
        ensures back { inst_word result ≡ w }
    {
        let _value = w.value();
        Inst {
            y: Field::<0, 18>::get(w) as u32,
            code: Field::<18, 9>::get(w) as u16,
            tag: Field::<30, 6>::get(w) as u8,
            bit27: Field::<27, 1>::get(w) == 1,
            inhibit: Field::<28, 1>::get(w) == 1,
            by_pr: Field::<29, 1>::get(w) == 1,
        }
    }

    /// The word with these fields.
    #[tactic(auto, using(crate::proofs::Instructions::comes_back))]
    pub fn to_word(self) -> Word
        ensures word { result ≡ inst_word self }
        ensures back { inst_of result ≡ self }
    {
        let address = ((self.y as u64) << 18) + ((self.by_pr as u64) << 6);
        let operation = ((self.code as u64) << 9) + ((self.bit27 as u64) << 8);
        Word::low(address + operation + ((self.inhibit as u64) << 7) + self.tag as u64)
    }
}
