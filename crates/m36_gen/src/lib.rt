//! The generator: it makes the files of a bootable folder from a seed.
//!
//! [`make`] returns the sources of 64 programs, the source of a gate of ring 0 that stops the
//! machine, the words of a data segment, all zero, and the boot text. Each program adds to an index
//! register in a loop, stores the sums in the data segment, and goes on to the next program. The
//! seed draws what each program adds, how often, and where in the data it stores. The same seed
//! makes the same files.
//!
//! It is proved that the files are exactly those that `specs/Folder.antt` defines as a function of
//! the seed, that the only error is `NoMemory`, and that all words that a program stores are within
//! the data segment.
//!
//! Source: the draws are made by the linear congruential generator of Knuth's MMIX (The Art of
//! Computer Programming, volume 2, section 3.3.4), of which the upper 31 bits are used. The
//! programs are this project's own.
#![tactic(auto)]

mod catalog;
pub mod draws;
pub mod files;
pub mod laws;
mod lines;
pub mod making;
mod programs;

pub use files::{File, Files};
pub use laws::data_law;
pub use making::{add_fixed_files, make, sources};
