//! The walk of a reference: how one reference to core memory is made.
//!
//! A reference names a word of a segment, and a ring. These are checked in order, and the first
//! that fails is its fault: the segment has a live descriptor, its ring brackets are in order, it
//! gives the ring the right, the word is within the bound, and the word has a place in core. Then
//! the marks of the reference are set in the page table words through which it has passed. Then its
//! words are read. For a pair or a block, each word is checked in ascending order before anything
//! changes.
//!
//! The contract of each call that a step makes says that the store of core words serves the request
//! in this way (clause `serves`): what the reply is and what core is afterwards, whatever the step
//! has claimed and referenced before. A refused reference changes nothing. Each call answers by the
//! descriptors that core has at this time. What was read of the tables is kept (`m36_associative`);
//! no contract mentions this. Only `copy` can run out of memory.
//!
//! Source: Multics Processor Manual AL39, "Address appending", "Segment descriptor word", "Page
//! table word", "Access control".
#![tactic(auto)]

mod asks;
mod front;
mod marks;
mod place;
mod quick;
mod reads;
mod refer;
mod reference;
mod refusal;
mod targets;
#[cfg(test)]
mod tests;
pub mod walk;
pub mod words;
mod writes;

pub use walk::Walk;
pub use words::{Pending, WordRun};
pub use writes::first_at;
