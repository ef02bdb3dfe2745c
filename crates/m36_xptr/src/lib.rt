//! Pointer register instructions of the Honeywell 6180.
//!
//! - EPP and EPBP load a pointer register with the final address or the base of its segment.
//! - LPRI loads all eight pointer registers from a block of ITS pairs, and LPRP one from a packed
//!   pointer.
//! - SPRI, in its two forms, and SPBP store pointer registers as ITS pairs.
//! - EPAQ loads the final address into A and Q.
//! - STCD stores a pointer to the instruction after the next one.
//!
//! [`exec`] gives exactly the effect that the instruction's equations define: the new registers
//! and the words to write, or the fault.
//!
//! Source: Multics Processor Manual AL39, "Pointer register data movement load instructions",
//! "Pointer register data movement store instructions", "Effective address to AQ" and "Store
//! control double".
#![tactic(auto)]

mod execute;
mod loads;
mod registers;
mod stores;

pub use execute::exec;
