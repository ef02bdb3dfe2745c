//! Arithmetic of words, pairs and halves.
//!
//! Words have 36 bits, pairs 72 and halves 18. The name of a call ends in the number of its bits,
//! except `mul` and `div`, which are for words. Signed numbers are in two's complement. No call
//! allocates memory, and only `div` can be refused.
//!
//! Each call returns the result that `m36_model` defines with whole numbers:
//!
//! - A sum or a difference is the true result modulo two to the number of bits. Carry depends on
//!   the unsigned result, and overflow on the signed one.
//! - A product is exact, and a quotient is truncated toward zero.
//! - A Boolean operation works bit by bit.
//! - A shift is a product with a power of two or a quotient by one, and a rotation is the sum of
//!   both.
//!
//! Contracts see a `Sum36`, `Sum72` or `Sum18` as a number with its indicators. It is a theorem
//! (`division_law`) that `DivideCheck` is returned exactly if the divisor is 0 or the quotient does
//! not fit into a word.
//!
//! Source: Multics Processor Manual AL39, "Number representation" and the fixed point, Boolean and
//! shift instructions.
#![tactic(auto)]

pub mod additions;
pub mod booleans;
pub mod comparisons;
pub mod divisions;
mod narrow;
mod pair_shifts;
pub mod products;
pub mod shifts;
mod signs;
pub mod subtractions;
pub mod sums;
mod wide;
mod word_shifts;

pub use additions::{add18, add36, add72};
pub use booleans::{
    and_not18, and_not36, and_not72, and18, and36, and72, or18, or36, or72, xor18, xor36, xor72,
};
pub use comparisons::{Compare, cmp18, cmp36, cmp72};
pub use divisions::{DivideCheck, div, division_law};
pub use products::mul;
pub use shifts::{Shift, shift36, shift72};
pub use subtractions::{neg18, neg36, neg72, sub18, sub36, sub72};
pub use sums::{Sum18, Sum36, Sum72};
