//! The effects of operations.

/// The effect of an operation.
#[derive(Clone, Copy, PartialEq, Eq)]
pub enum LineEffect {
    /// None: the line has no operation, or it is `end`.
    Nothing,
    /// Places an instruction with this operation code and this bit 27.
    Instruction(u16, bool),
    /// `entry`: defines names that may be called.
    Entry,
    /// `segdef`: defines names.
    Segdef,
    /// `equ`: gives a symbol a value.
    Equ,
    /// `use`: selects a section.
    Use,
    /// `dec`, `oct` and `aci`: place words.
    Words,
    /// `zero`: places a word of two halves.
    Zero,
    /// `bss`: places words of zeros, and gives a symbol their place.
    Block,
    /// `even`: aligns to an even offset.
    Even,
    /// `entrybound`: sets the entry bound.
    Bound,
}
