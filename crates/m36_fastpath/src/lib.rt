//! The frequent data instructions of the Honeywell 6180, executed directly in the registers.
//!
//! - on single words: [`read_word`], [`store_word`], [`store_half`], [`change_word`] and
//!   [`load_address`];
//! - on pairs: [`read_pair`] and [`store_pair`];
//! - shifts: [`shift`].
//!
//! Each has exactly the effect that the instruction's equations define, for one group of
//! instructions (`Group` of `m36_inst`).
//!
//! [`read_word`], [`change_word`] and [`read_pair`] are for quick steps, the fast way of `m36_step`
//! for a step that nothing refuses. A quick step makes no overflow fault: if the instruction would
//! give one, they say so and change nothing. Their counterparts [`read_word_with_overflow`],
//! [`change_word_with_overflow`] and [`read_pair_with_overflow`] are for the general step: they
//! complete the instruction, and return whether it overflowed.
//!
//! Source: Multics Processor Manual AL39, "Fixed-point instructions" and "Boolean instructions".
#![tactic(auto)]

mod pairs;
mod registers;
mod shifts;
mod sums;
mod words;

pub use pairs::{read_pair, read_pair_with_overflow, store_pair};
pub use registers::{accumulator, aq_pair, quotient_register};
pub use shifts::shift;
pub use words::{
    change_word, change_word_with_overflow, load_address, read_word, read_word_with_overflow,
    store_half, store_word,
};
