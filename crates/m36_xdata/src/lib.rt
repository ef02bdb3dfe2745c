//! Data instructions of the Honeywell 6180: loads, stores, sums, shifts, products, comparisons and
//! Boolean operations.
//!
//! [`exec`] gives exactly the effect that the instruction's equations define: the new registers
//! and the words to write. It refuses only DIV, with fault 14, divide check, if the divisor is 0
//! or the quotient does not fit. [`exec_in_place`] does the same directly in the registers. The
//! arithmetic is that of `m36_arith`.
//!
//! `m36_fastpath` executes the frequent instructions, and this crate all others.
//!
//! Source: Multics Processor Manual AL39, "Fixed-point instructions" and "Boolean instructions".
#![tactic(auto)]

mod apply;
mod bits;
pub mod changes;
mod compares;
mod conditions;
mod execute;
mod loads;
mod logic;
mod numbers;
mod operands;
mod products;
mod registers;
mod results;
mod stores;
mod sums;

pub use execute::{exec, exec_in_place};
