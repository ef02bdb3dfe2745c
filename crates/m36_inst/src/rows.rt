//! The rows of the table.

use crate::effect::Effect;
use crate::operand::Operand;

/// What the processor needs to know of an instruction.
#[derive(Clone, Copy, PartialEq, Eq)]
pub struct Row {
    pub effect: Effect,
    /// How it references its operand.
    pub operand: Operand,
    /// The register that the digit of its mnemonic names, below 8; 0 if no digit names one.
    pub reg: u8,
    /// It accepts a direct operand: the address itself is the operand (tags DU and DL).
    pub direct: bool,
    /// Only a privileged segment may execute it, in ring 0.
    pub privileged: bool,
}

/// The groups of instructions that quick steps execute.
#[derive(Clone, Copy, PartialEq, Eq)]
pub enum Group {
    /// No quick step executes it.
    Other,
    /// It reads a word.
    Read,
    /// It stores a word.
    Store,
    /// It reads a word and then writes it.
    Change,
    /// It stores the left half of a word.
    Upper,
    /// It stores the right half of a word.
    Lower,
    /// It loads a register with its address.
    Address,
    /// It shifts by its address.
    Shift,
    /// It transfers, and changes nothing else.
    Transfer,
    /// It reads a pair.
    ReadPair,
    /// It stores a pair.
    StorePair,
    /// CALL6.
    Call,
    /// RTCD.
    Return,
}

/// What a quick step needs to know of an instruction. It has four bytes.
#[derive(Clone, Copy)]
pub struct Quick {
    /// The register that the digit of its mnemonic names, below 8; 0 if no digit names one.
    pub reg: u16,
    pub effect: Effect,
    pub group: Group,
}

/// A row with its mnemonic, which is padded with blanks to five characters.
#[derive(Clone, Copy)]
pub(crate) struct Named {
    pub(crate) row: Row,
    pub(crate) name: [u8; 5],
}
