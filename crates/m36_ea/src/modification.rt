//! Address modification: what the tag of a point does.

ghost use Rattle.std.specs.Prelude.{◌≡◌, ◌<◌, ◌≤◌, ◌%◌, ◌^◌, ◌==◌, None, false, IsTrue, IfSome};
ghost use Rattle.std.specs.Prelude.{IfNone};
ghost use Rattle.m36_model.specs.Faults.{illegal_procedure};
ghost use Rattle.m36_model.specs.Modification.{Ends, Fails, Reads, Counts, plain_fault, halt_here};
ghost use Rattle.m36_model.specs.Modification.{is_direct};
ghost use Rattle.m36_model.specs.Modification.{move_register, move_register_then_indirect};
ghost use Rattle.m36_model.specs.Modification.{move_indirect_then_tally};
ghost use Rattle.m36_model.specs.Modification.{move_indirect_then_register, move_of_point};
ghost use Rattle.m36_model.specs.Registers.{RegsFields};
ghost use Rattle.m36_model.specs.Tally.{indirect_only};
ghost use Rattle.m36_ea.specs.Points.{move_of_action, IsInRange};

use crate::registers::register_value;
use crate::tallies::{
    ADD_DELTA, DECREMENT_INCREMENT, INCREMENT_DECREMENT, INDIRECT_ONLY, SUBTRACT_DELTA,
};
use crate::temporary::Tpr;
use m36_desc::{ITP_TAG, ITS_TAG};
use m36_model::{At, Fault, Final, Halt, Regs, Stop};
use m36_word::Word;

/// What the tag of a point does.
#[derive(Clone, Copy)]
pub(crate) enum Action {
    /// The chain ends here.
    Ends(Final),
    /// A fault or a stop; no word is read.
    Fails(Halt),
    /// Reads the indirect word at this word number, and holds this register from there on.
    Reads { word: u32, held: Option<u32> },
    /// Reads the tally word at the point's address.
    Counts,
}

/// The low four bits of the tags of a direct operand: DU has it in bits 0 to 17 of a word, DL in
/// bits 18 to 35.
const DIRECT_UPPER: u8 = 0o3;

const DIRECT_LOWER: u8 = 0o7;

/// The low four bits of the fault tags.
const FAULT_TAG_1: u8 = 0o0;

const FAULT_TAG_2: u8 = 0o6;

const FAULT_TAG_3: u8 = 0o7;

/// The low four bits of the tags of pairs.
const ITP: u8 = ITP_TAG % 16;

const ITS: u8 = ITS_TAG % 16;

/// Whether the low four bits of a tag name a direct operand instead of a register.
fn is_direct_tag(td: u8) -> bool
    ensures { result ≡ is_direct td }
{
    td == DIRECT_UPPER || td == DIRECT_LOWER
}

/// A fault other than an access violation.
pub(crate) fn fault(number: u8, at: At) -> Fault
    ensures { result ≡ plain_fault number at }
{
    Fault { at, number, acv: 0 }
}

/// Fault 10, illegal procedure, at the instruction.
fn illegal_procedure_fault(regs: &Regs) -> Action
    ensures { move_of_action result ≡ Fails (halt_here illegal_procedure regs.now) }
{
    Action::Fails(Halt::Fault(fault(10, regs.here())))
}

/// Register modification: the chain ends at y plus a register, or with a direct operand.
#[inline(always)]
fn register(regs: &Regs, tpr: &Tpr, td: u8) -> Final
    requires { td < 16 }
    ensures { Ends result ≡ move_register regs.now tpr.now td tpr.now.held }
{
    let y = tpr.y;
    match tpr.held {
        Some(held) => tpr.end_at((y + held) % (1 << 18)),
        None => match td {
            DIRECT_UPPER => tpr.end_direct(Word::low((y as u64) << 18)),
            DIRECT_LOWER => tpr.end_direct(Word::low(y as u64)),
            _ => tpr.end_at((y + register_value(regs, td)) % (1 << 18)),
        },
    }
}

/// Register then indirect: reads the indirect word at y plus a register.
fn register_then_indirect(regs: &Regs, tpr: &Tpr, td: u8) -> Action
    requires { td < 16 }
    ensures moves { move_of_action result ≡ move_register_then_indirect regs.now tpr.now td }
    ensures range { IsInRange result }
{
    if is_direct_tag(td) {
        return illegal_procedure_fault(regs);
    }
    Action::Reads {
        word: (tpr.y + register_value(regs, td)) % (1 << 18),
        held: tpr.held,
    }
}

/// Indirect then register: reads the indirect word at y, and holds the register.
fn indirect_then_register(regs: &Regs, tpr: &Tpr, td: u8) -> Action
    requires { td < 16 }
    ensures moves { move_of_action result ≡ move_indirect_then_register regs.now tpr.now td }
    ensures range { IsInRange result }
{
    if is_direct_tag(td) {
        return illegal_procedure_fault(regs);
    }
    Action::Reads {
        word: tpr.y,
        held: Some(register_value(regs, td)),
    }
}

/// Indirect then tally: the fault tags, the tags of pairs where no pair may begin, the tally
/// words, and the tags that are not supported, which stop the machine.
fn indirect_then_tally(regs: &Regs, tpr: &Tpr, td: u8) -> Action
    ensures moves { move_of_action result ≡ move_indirect_then_tally regs.now tpr.now td }
    ensures range { IsInRange result }
{
    match td {
        FAULT_TAG_1 => Action::Fails(Halt::Fault(fault(3, tpr.carrier))),
        FAULT_TAG_2 => Action::Fails(Halt::Fault(fault(24, tpr.carrier))),
        FAULT_TAG_3 => Action::Fails(Halt::Fault(fault(25, tpr.carrier))),
        ITP | ITS => illegal_procedure_fault(regs),
        SUBTRACT_DELTA | INDIRECT_ONLY | ADD_DELTA | DECREMENT_INCREMENT | INCREMENT_DECREMENT => {
            Action::Counts
        }
        _ => Action::Fails(Halt::Stop(Stop::Tag)),
    }
}

/// The end of the chain, if the tag of the point is 0 and no register is held.
#[inline(always)]
#[tactic(auto, unfolding(m36_model::specs::Modification::move_of_point, m36_model::specs::Modification::modifier_value))]
pub(crate) fn end_unmodified(tpr: &Tpr) -> Final
    requires tag { tpr.now.tag ≡ 0 }
    requires held { tpr.now.held ≡ None }
    ensures ends { (g : RegsFields) → Ends result ≡ move_of_point g tpr.now }
    ensures direct { result.direct ≡ None }
{
    tpr.end_at(tpr.y)
}

/// The end of the chain, if the tag of the point is one of register modification.
#[inline(always)]
#[tactic(auto, unfolding(m36_model::specs::Modification::move_of_point))]
pub(crate) fn end_by_register(regs: &Regs, tpr: &Tpr) -> Option<Final>
    ensures ends { IfSome result (λ last. Ends last ≡ move_of_point regs.now tpr.now) }
    ensures none { IfNone result (16 ≤ tpr.now.tag) }
{
    let td = tpr.tag % 16;
    match tpr.tag / 16 {
        0 => Some(register(regs, tpr, td)),
        _ => None,
    }
}

/// What the tag of the point does.
#[tactic(auto, unfolding(m36_model::specs::Modification::move_of_point))]
pub(crate) fn action_of(regs: &Regs, tpr: &Tpr) -> Action
    ensures moves { move_of_action result ≡ move_of_point regs.now tpr.now }
    ensures range { IsInRange result }
{
    let td = tpr.tag % 16;
    match tpr.tag / 16 {
        0 => Action::Ends(register(regs, tpr, td)),
        1 => register_then_indirect(regs, tpr, td),
        2 => indirect_then_tally(regs, tpr, td),
        _ => indirect_then_register(regs, tpr, td),
    }
}

/// The word number of the indirect word that the tag of a point reads, and the register that is
/// held from there on. Some only for a tag of register and indirect modification that does not
/// name a direct operand.
#[inline(always)]
#[tactic(auto, unfolding(m36_model::specs::Modification::move_of_point))]
pub(crate) fn word_to_read(regs: &Regs, tpr: &Tpr) -> Option<(u32, Option<u32>)>
    ensures moves { IfSome result (λ r. Reads r.0 r.1 ≡ move_of_point regs.now tpr.now) }
    ensures word { IfSome result (λ r. r.0 < 2 ^ 18) }
    ensures held { IfSome result (λ r. IfSome r.1 (λ h. h < 2 ^ 18)) }
{
    let td = tpr.tag % 16;
    if is_direct_tag(td) {
        return None;
    }
    match tpr.tag / 16 {
        1 => Some(((tpr.y + register_value(regs, td)) % (1 << 18), tpr.held)),
        3 => Some((tpr.y, Some(register_value(regs, td)))),
        _ => None,
    }
}

/// Whether the tag of a point counts a tally word.
#[inline(always)]
#[tactic(auto, unfolding(m36_model::specs::Modification::move_of_point))]
pub(crate) fn is_counting_tag(regs: &Regs, tpr: &Tpr) -> bool
    ensures moves { IsTrue result → Counts ≡ move_of_point regs.now tpr.now }
    ensures counts { IsTrue result → (tpr.now.tag % 16 == indirect_only) ≡ false }
{
    if tpr.tag / 16 != 2 {
        return false;
    }
    matches!(
        tpr.tag % 16,
        SUBTRACT_DELTA | ADD_DELTA | DECREMENT_INCREMENT | INCREMENT_DECREMENT
    )
}
