//! Stepping back: makes a machine that can be copied a machine that can return to earlier states.
//!
//! A [`Past`] is a machine that can go back. Its model is its first state and the count of steps
//! that were taken from there and not taken back; it is in the state of its history with that
//! number. A turn is a turn of the machine inside. Going back by n steps lowers the count by
//! exactly n, and so restores both registers and core. If fewer steps were taken, or memory runs
//! out, nothing changes.
//!
//! A `Past` keeps the first state and at most eight copies of later states, at first one every
//! 1,024 steps. Before a ninth is kept, every second is dropped, and the distance doubles. To go
//! back it copies the nearest earlier state and takes the turns from there again. No contract says
//! what is kept, or how much: that affects only speed and memory. If there is no memory for a
//! copy, it is not kept.
//!
//! `specs/History.antt` defines turns and going back. The processor has nothing like it.
#![tactic(auto)]

mod kept;
pub mod past;
mod replaying;

pub use past::Past;
