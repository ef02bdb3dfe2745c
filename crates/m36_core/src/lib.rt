//! The core memory of the Honeywell 6180: frames of 1,024 words of 36 bits.
//!
//! Contracts see core as a list of words, each a number below 2^36. `peek` and `poke` read and
//! write one word. `page` and `page_mut` borrow exactly the words of one frame, to read or to write
//! them. `copy` makes a second core with the same words. The list changes only by `poke` and by
//! writes through `page_mut`; `frame_law` states word by word what core is after such a write.
//!
//! Core is one block of raw memory. Only six functions of `cells` use its pointer: they allocate
//! and free the block, read and write one word, and borrow a range of words for reading or writing.
//! A page is borrowed in place, without a copy.
//!
//! Source: Multics Processor Manual AL39, "Addressing -- segmentation and paging".
#![tactic(auto)]

mod cells;
pub mod laws;
pub mod memory;

pub use laws::frame_law;
pub use memory::Core;
