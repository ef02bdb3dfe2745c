//! The registers that address formation reads.

ghost use Rattle.std.specs.Prelude.{◌≡◌, ◌<◌, ◌^◌, false};
ghost use Rattle.m36_word.specs.Field.{field};
ghost use Rattle.m36_model.specs.Modification.{is_direct, modifier_value};

use m36_model::Regs;
use m36_word::{Field, Word};

/// The segment of the instruction. The copy of `ppr` saves instructions in each step.
#[inline(always)]
pub fn procedure_segment(regs: &Regs) -> u16
    ensures { result ≡ regs.now.ppr.psr }
{
    let ppr = regs.ppr;
    ppr.psr
}

/// The ring of execution.
#[inline(always)]
pub fn procedure_ring(regs: &Regs) -> u8
    ensures { result ≡ regs.now.ppr.prr }
{
    let ppr = regs.ppr;
    ppr.prr
}

/// The value of the register that the low four bits of a tag name, 18 bits; 0 for the tag that
/// names none. The bits must not name a direct operand.
#[inline(always)]
#[tactic(auto, unfolding(m36_model::specs::Modification::modifier_value))]
pub(crate) fn register_value(regs: &Regs, td: u8) -> u32
    requires td { td < 16 }
    requires register { is_direct td ≡ false }
    ensures value { result ≡ modifier_value regs.now td }
    ensures bound { result < 2 ^ 18 }
{
    if td >= 8 {
        return regs.x[(td - 8) as usize];
    }
    match td {
        0 => 0,
        1 => upper(regs.a),
        2 => upper(regs.q),
        4 => regs.ppr.ic,
        5 => lower(regs.a),
        _ => lower(regs.q),
    }
}

/// Bits 0 to 17 of a word.
#[inline(always)]
fn upper(w: Word) -> u32
    ensures value { result ≡ field w 0 18 }
    ensures bound { result < 2 ^ 18 }
{
    Field::<0, 18>::get(w) as u32
}

/// Bits 18 to 35 of a word.
#[inline(always)]
fn lower(w: Word) -> u32
    ensures value { result ≡ field w 18 18 }
    ensures bound { result < 2 ^ 18 }
{
    Field::<18, 18>::get(w) as u32
}
