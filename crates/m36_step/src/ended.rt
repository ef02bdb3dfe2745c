//! The end of a step.

ghost use Rattle.std.specs.Prelude.{◌≡◌};
ghost use Rattle.m36_model.specs.Modification.{here, fault_here};
ghost use Rattle.m36_model.specs.Registers.{RegsFields};
ghost use Rattle.m36_model.specs.Step.{outcome_of, outcome_after};
ghost use Rattle.m36_step.specs.Ended.{halted_end};

use m36_model::{At, Fault, Final, Halt, Outcome, Regs};
use m36_word::Word;

/// The end of a step: its record without the references and the registers.
#[derive(Clone, Copy)]
pub(crate) struct Ended {
    /// The instruction's word; None if its fetch was refused.
    pub(crate) word: Option<Word>,
    /// The end of the address chain; None if no address was formed, or the chain did not end.
    pub(crate) at: Option<Final>,
    pub(crate) outcome: Outcome,
}

/// A fault other than an access violation, at the instruction.
pub(crate) fn fault_here(regs: &Regs, number: u8) -> Fault
    ensures { result ≡ fault_here number regs.now }
{
    Fault {
        at: regs.here(),
        number,
        acv: 0,
    }
}

// The outcome of a step that this halt ends.
fn outcome_of(halt: Halt) -> Outcome
    ensures { result ≡ outcome_of halt }
{
    match halt {
        Halt::Fault(fault) => Outcome::Faulted(fault),
        Halt::Stop(stop) => Outcome::Stopped(stop),
    }
}

/// The end of a step that is refused.
pub(crate) fn end_of_halt(word: Option<Word>, at: Option<Final>, halt: Halt) -> Ended
    ensures { result ≡ halted_end word at halt }
{
    Ended {
        word,
        at,
        outcome: outcome_of(halt),
    }
}

/// The outcome of a step whose effect is complete. An overflow is a fault at the instruction if
/// the overflow mask is off.
#[inline(always)]
pub(crate) fn outcome_after_effect(place: At, mask: bool, overflow: bool) -> Outcome
    ensures { (g : RegsFields) → place ≡ here g → result ≡ outcome_after overflow mask g }
{
    if overflow && !mask {
        Outcome::Faulted(Fault {
            at: place,
            number: 13,
            acv: 0,
        })
    } else {
        Outcome::Next
    }
}
