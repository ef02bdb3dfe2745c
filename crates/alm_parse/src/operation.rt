//! Kinds of operands: of instructions, and of the directives of the assembler.

/// The kind of operand that an operation has.
#[derive(Clone, Copy, PartialEq, Eq)]
pub enum Operation {
    /// An instruction.
    Instruction,
    /// `entry` and `segdef`.
    Names,
    /// `equ`.
    Value,
    /// `use`.
    Section,
    /// `dec`.
    Decimal,
    /// `oct`.
    Octal,
    /// `aci`.
    Characters,
    /// `zero`.
    Halves,
    /// `bss`.
    Block,
    /// `even` and `entrybound`, which have no operand.
    Bare,
    /// `end`, after which the text is ignored.
    End,
}
