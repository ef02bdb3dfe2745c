//! Address formation: from an instruction to the address of the word that it works on.
//!
//! The instruction gives the first point of a chain: a segment, a ring, an address and a tag. The
//! tag of a point does one of three things. It ends the chain; it gives a fault or a stop; or it
//! leads on through an indirect word: a plain one, an ITS or ITP pair, or a tally word, which ends
//! the chain. An address reads at most 16 indirect words; a pair counts as one. The ring never
//! falls on the way: each pair raises it to the ring that the pair names and to the first ring
//! bracket of the segment that has the pair.
//!
//! By the contract of [`form_address`] its result, core and the completed references are those of
//! the address chain over core. It cannot run out of memory. If it counts a tally word, the Write
//! of this word is checked and marked, but its new value is not written: the instruction writes it
//! together with everything else that it writes. Until then the references of the operand get it
//! from [`pending_tally`].
//!
//! Source: Multics Processor Manual AL39, "Effective address formation", "Address modification
//! features", "Indirect word formats" and "Indirect then tally (IT) modification".
#![tactic(auto)]

mod chain;
mod indirect;
mod modification;
mod quick;
mod registers;
mod tallies;
mod temporary;

pub use chain::{form_address, pending_tally, plain_address};
pub use indirect::add_reference;
pub use quick::{Counting, Through, quick_indirect_address, quick_tally_address};
pub use registers::{procedure_ring, procedure_segment};
