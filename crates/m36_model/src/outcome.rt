//! How a step ends.

use crate::place::At;
use m36_word::Word;
use std::marker::Model;

/// Why a reference is refused, without the word at which it is refused.
#[derive(Clone, Copy, PartialEq, Eq)]
pub struct Refusal {
    /// The fault: 1 store, 16 to 19 directed faults 0 to 3, 20 access violation.
    pub number: u8,
    /// The number of the access violation, or 0 if the fault is another one.
    pub acv: u8,
}

/// A fault: its number, the number of the access violation if it is one, and the word concerned.
#[derive(Clone, Copy, PartialEq, Eq)]
pub struct Fault {
    pub at: At,
    /// 1 store, 2 MME, 3 F1, 5 command, 6 derail, 7 lockup, 10 illegal procedure, 13 overflow, 14
    /// divide check, 16 to 19 directed faults 0 to 3, 20 access violation, 24 F2, 25 F3.
    pub number: u8,
    /// The number of the access violation, or 0 if the fault is another one.
    pub acv: u8,
}

/// Why the machine stopped by itself.
#[derive(Clone, Copy, PartialEq, Eq)]
pub enum Stop {
    /// The instruction DIS.
    Dis,
    /// An operation code without an instruction.
    Operation,
    /// An indirect modification that is not provided.
    Tag,
}

/// What ends a step before its effect.
#[derive(Clone, Copy, PartialEq, Eq)]
pub enum Halt {
    Fault(Fault),
    Stop(Stop),
}

/// The outcome of a step.
#[derive(Clone, Copy, PartialEq, Eq)]
pub enum Outcome {
    /// The run continues with the next instruction.
    Next,
    Faulted(Fault),
    Stopped(Stop),
}

/// The final address of an address chain, with a bit number, or a direct operand.
#[derive(Clone, Copy, PartialEq, Eq)]
pub struct Final {
    /// The direct operand, if the address itself is the operand.
    pub direct: Option<Word>,
    /// The final address with its ring. With a direct operand, the address of the chain's last
    /// point.
    pub at: At,
    /// Bit number; 6 bits.
    pub bit: u8,
}

impl Model for Final {
    ghost use Rattle.std.specs.Prelude.{◌<◌, ◌^◌};
    ghost use Rattle.m36_model.specs.Fields.{FinalFields};

    ghost Value = { FinalFields };

    ghost view = { λ f. record { at = f.at; bit = f.bit; direct = f.direct } };

    ghost invariant = { λ f. f.bit < 2 ^ 6 };

    ghost inverse = { λ f. record { at = f.at; bit = f.bit; direct = f.direct } };
}
