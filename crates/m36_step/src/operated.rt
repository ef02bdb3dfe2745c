//! The results of reaching an operand and of operating on it.
//!
//! The words of an operand and the words to write are not in these results, but in variables of
//! the function that joins the parts: both have room for a block, which would be copied with each
//! result.

/// Which part of a word is written.
#[derive(Clone, Copy, PartialEq, Eq)]
pub(crate) enum Part {
    Whole,
    Left,
    Right,
}

/// An operand that was reached: where the words of the effect have to be written.
#[derive(Clone, Copy)]
pub(crate) struct Reached {
    /// The place in core of the first word to write; 24 bits. It is 0 if nothing is written.
    pub(crate) place: u32,
    pub(crate) part: Part,
}

/// An operation whose effect is in the registers: where its words have to be written.
#[derive(Clone, Copy)]
pub(crate) struct Operated {
    /// The place in core of the first word; 24 bits. It is 0 if nothing is written.
    pub(crate) place: u32,
    /// The part of the word to write. For a half, the effect gives the half right-justified.
    pub(crate) part: Part,
    /// Whether overflow has to be reported.
    pub(crate) overflow: bool,
}
