//! Loads of pointer registers, and of A and Q with an address.

ghost use Rattle.std.specs.Prelude.{◌≡◌, ◌<◌, ◌^◌, max, Ok, IsTrue};
ghost use Rattle.m36_desc.specs.Descriptors.{pointer_of_packed};
ghost use Rattle.m36_model.specs.Faults.{command};
ghost use Rattle.m36_model.specs.Modification.{fault_here};
ghost use Rattle.m36_model.specs.Effect.{answer_fields, refused_here};
ghost use Rattle.m36_model.specs.OperandHeld.{is_block};
ghost use Rattle.m36_model.specs.Results.{operand_fields, effect_fields};
ghost use Rattle.m36_model.specs.Pointers.{load_pointer, load_base_pointer, load_pointers};
ghost use Rattle.m36_model.specs.Pointers.{pointers_in, load_packed, load_address_pair};

use crate::registers::{pointers, with_pointers};
use m36_desc::Ptr;
use m36_model::{Effect36, Fault, Final, Operand36, Regs};
use m36_word::{Field, Word};

/// EPP: loads the final address.
#[tactic(auto, unfolding(m36_model::specs::Pointers::load_pointer))]
pub fn load_pointer(regs: &Regs, n: u8, f: &Final) -> Effect36
    requires { n < 8 }
    ensures { Ok (effect_fields result) ≡ load_pointer n regs.now f.now }
{
    let at = f.at;
    let pointer = Ptr {
        word: at.word,
        seg: at.seg,
        ring: at.ring,
        bit: f.bit,
    };
    Effect36::completed(regs.with_pointer(n, pointer))
}

/// EPBP: loads the base of the final address's segment: word 0, bit 0.
#[tactic(auto, unfolding(m36_model::specs::Pointers::load_base_pointer))]
pub fn load_base_pointer(regs: &Regs, n: u8, f: &Final) -> Effect36
    requires { n < 8 }
    ensures { Ok (effect_fields result) ≡ load_base_pointer n regs.now f.now }
{
    let at = f.at;
    let base = Ptr {
        word: 0,
        seg: at.seg,
        ring: at.ring,
        bit: 0,
    };
    Effect36::completed(regs.with_pointer(n, base))
}

/// LPRI: loads all pointer registers from a block of ITS pairs.
#[tactic(auto, unfolding(m36_model::specs::Pointers::load_pointers))]
pub fn load_pointers(regs: &Regs, f: &Final, operand: &Operand36) -> Effect36
    requires { IsTrue (is_block operand.now.got) }
    ensures { Ok (effect_fields result)
        ≡ load_pointers regs.now f.now (operand_fields operand.now) }
{
    Effect36::completed(with_pointers(regs, raised_pointers(f, operand)))
}

/// The pointers of a block of ITS pairs. Each ring is the maximum of the pair's ring, the ring of
/// the reference and the first ring bracket of the block's segment.
fn raised_pointers(f: &Final, operand: &Operand36) -> [Ptr; 8]
    requires { IsTrue (is_block operand.now.got) }
    ensures { result ≡ pointers_in (operand_fields operand.now) f.now }
{
    pointers(operand.got.block(), raised_ring(f, operand))
}

/// The maximum of the ring of the reference and the first ring bracket of the operand's segment.
fn raised_ring(f: &Final, operand: &Operand36) -> u8
    ensures ring { result ≡ max f.now.at.ring operand.now.ring }
    ensures bound { result < 2 ^ 3 }
{
    let at = f.at;
    at.ring.max(operand.ring)
}

/// LPRP: loads a packed pointer, in the ring of the reference. If the first two bits of the word
/// are both 1, it is not a packed pointer, and the fault is command.
#[tactic(auto, unfolding(m36_model::specs::Pointers::load_packed))]
pub fn load_packed(regs: &Regs, n: u8, f: &Final, word: Word) -> Result<Effect36, Fault>
    requires { n < 8 }
    ensures { answer_fields result ≡ refused_here regs.now (load_packed n word regs.now f.now) }
{
    if Field::<0, 2>::get(word) == 3 {
        return Err(command_fault(regs));
    }
    Ok(Effect36::completed(regs.with_pointer(n, unpacked_pointer(word, f))))
}

/// EPAQ: loads segment and ring of the final address into A, its word and bit into Q. Zero is set
/// if both are 0.
#[tactic(auto, unfolding(m36_model::specs::Pointers::load_address_pair))]
pub fn load_address_pair(regs: &Regs, f: &Final) -> Effect36
    ensures { Ok (effect_fields result) ≡ load_address_pair regs.now f.now }
{
    let at = f.at;
    let even = ((at.seg as u64) << 18) + at.ring as u64;
    let odd = ((at.word as u64) << 18) + f.bit as u64;
    let mut after = *regs;
    after.a = Word::low(even);
    after.q = Word::low(odd);
    after.ind.zero = even == 0 && odd == 0;
    Effect36::completed(after)
}

/// Fault 5, command, at the instruction: it does not accept its operand.
fn command_fault(regs: &Regs) -> Fault
    ensures { result ≡ fault_here command regs.now }
{
    Fault {
        at: regs.here(),
        number: 5,
        acv: 0,
    }
}

/// The pointer that a packed pointer encodes. It has 12 bits of the segment number; if these are
/// all 1, so are the three before them.
fn unpacked_pointer(word: Word, f: &Final) -> Ptr
    ensures { result ≡ pointer_of_packed word f.now.at.ring }
{
    let seg = Field::<6, 12>::get(word) as u16;
    let at = f.at;
    Ptr {
        word: Field::<18, 18>::get(word) as u32,
        seg: if seg == 0o7777 { 0o77777 } else { seg },
        ring: at.ring,
        bit: Field::<0, 6>::get(word) as u8,
    }
}
