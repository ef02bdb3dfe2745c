//! Stores of pointer registers, and of a pointer to an instruction.

ghost use Rattle.std.specs.Prelude.{◌≡◌, ◌<◌, Ok};
ghost use Rattle.m36_model.specs.Results.{effect_fields};
ghost use Rattle.m36_model.specs.Pointers.{store_pointer, store_base_pointer, store_pointers};
ghost use Rattle.m36_model.specs.Pointers.{store_control};

use crate::registers::pairs;
use m36_desc::Ptr;
use m36_model::{Effect36, Held, Regs};
use m36_word::{Pair, Word};

/// SPRI0 to SPRI7: stores a pointer register as an ITS pair.
#[tactic(auto, unfolding(m36_model::specs::Pointers::store_pointer))]
pub fn store_pointer(regs: &Regs, n: u8) -> Effect36
    requires { n < 8 }
    ensures { Ok (effect_fields result) ≡ store_pointer n regs.now }
{
    let pair = regs.pointer(n).to_words();
    Effect36::completed_with(*regs, Held::Two(pair))
}

/// SPBP0 to SPBP7: stores the base of a pointer register's segment as an ITS pair.
#[tactic(auto, unfolding(m36_model::specs::Pointers::store_base_pointer))]
pub fn store_base_pointer(regs: &Regs, n: u8) -> Effect36
    requires { n < 8 }
    ensures { Ok (effect_fields result) ≡ store_base_pointer n regs.now }
{
    let pair = Pair {
        odd: Word::ZERO,
        ..regs.pointer(n).to_words()
    };
    Effect36::completed_with(*regs, Held::Two(pair))
}

/// SPRI: stores all pointer registers as a block of ITS pairs.
#[tactic(auto, unfolding(m36_model::specs::Pointers::store_pointers), using(crate::proofs::Eight::words_of_registers))]
pub fn store_pointers(regs: &Regs) -> Effect36
    ensures { Ok (effect_fields result) ≡ store_pointers regs.now }
{
    let block = pairs(&regs.pr);
    Effect36::completed_with(*regs, Held::Block(block))
}

/// STCD: stores an ITS pair with the address of the instruction after the next one, in the ring of
/// execution.
#[tactic(auto, unfolding(m36_model::specs::Pointers::store_control))]
pub fn store_control(regs: &Regs) -> Effect36
    ensures { Ok (effect_fields result) ≡ store_control regs.now }
{
    let ppr = regs.ppr;
    let pointer = Ptr {
        word: (ppr.ic + 2) % (1 << 18),
        seg: ppr.psr,
        ring: ppr.prr,
        bit: 0,
    };
    Effect36::completed_with(*regs, Held::Two(pointer.to_words()))
}
