//! The record of one step.

use crate::outcome::{Final, Outcome};
use crate::references::Refs;
use crate::registers::{Ppr, Regs};
use m36_word::Word;

/// What one step did.
#[derive(Drop)]
pub struct StepRecord {
    /// The completed references, in the order in which they were made.
    pub refs: Refs,
    /// The registers after the step.
    pub after: Regs,
    /// The instruction word, or None if its fetch was refused.
    pub word: Option<Word>,
    /// The end of the address chain, or None if no address was formed or the chain was refused.
    pub at: Option<Final>,
    pub outcome: Outcome,
    /// The position of the instruction: its segment, ring and word.
    pub ppr: Ppr,
}

/// What a trace line shows of a step, besides the registers after it.
#[derive(Clone, Copy)]
pub struct Shown {
    /// The instruction word, or None if its fetch was refused.
    pub word: Option<Word>,
    /// The end of the address chain, or None if no address was formed or the chain was refused.
    pub at: Option<Final>,
    pub outcome: Outcome,
    /// The position of the instruction: its segment, ring and word.
    pub ppr: Ppr,
}
