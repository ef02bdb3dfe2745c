//! What a data instruction changes: a small value, which is then applied to the registers in
//! place.

ghost use Rattle.std.specs.Prelude.{◌<◌, ◌^◌};

use m36_model::Ind;
use m36_word::{Pair, Word};

/// An index register and its new value.
#[derive(Clone, Copy)]
pub struct NewIndex {
    /// The new value; 18 bits.
    pub value: u32,
    /// The register, 0 to 7.
    pub n: u8,
    ghost value_fits: { value < 2 ^ 18 },
    ghost n_fits: { n < 8 },
}

/// The new values of registers.
#[derive(Clone, Copy)]
pub enum NewValues {
    Nothing,
    /// The accumulator.
    A(Word),
    /// The quotient register.
    Q(Word),
    /// Both, as a pair: the accumulator takes the even word.
    Aq(Pair),
    X(NewIndex),
}

/// The words to write into the operand.
#[derive(Clone, Copy)]
pub enum WordsToWrite {
    Nothing,
    One(Word),
    Two(Pair),
}

/// What a data instruction changes, except for the instruction counter.
#[derive(Clone, Copy)]
pub struct Change {
    pub taken: NewValues,
    pub put: WordsToWrite,
    /// The new indicators.
    pub ind: Ind,
    /// Whether overflow has to be reported.
    pub overflow: bool,
}
