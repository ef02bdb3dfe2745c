//! The booted image: the core and the registers with which a booted machine starts. It is made
//! from a catalog and the files of its segments.
//!
//! `lay` returns exactly the image of the definitions, word by word: the descriptors, the page
//! tables, the content of each segment, the stacks, the linkage offset table (LOT) with the linkage
//! section of the start, and the registers. If the catalog cannot be booted, it returns the first
//! of the faults U1 to U4 that applies, with its segment. Instead of either, it may fail with
//! `NoMemory`.
//!
//! More about the image that is proved:
//!
//! - Its core and pager represent the flat memory of the catalog and the files. The core is laid
//!   out as the laws of flat memory require, and the pager has exactly the pages of the image's
//!   segments.
//! - No page is in a frame at first, so core has only the frames of the wired tables and those
//!   that the catalog asks for.
//! - The numbers of the layout agree: the image has each segment under the number that is assigned
//!   to it, and the linkage register points to the linkage section that is laid ([`law_image`]).
//! - A segment may be started exactly if the ring of the start may execute it.
//!
//! The work grows with the words of the segments and of core.
//!
//! Source: the layout is this project's own; descriptors, page tables, pointers and rings are
//! those of the Multics Processor Manual AL39, stacks, linkage sections and the LOT after the
//! Multics Programmers' Manual AG91.
#![tactic(auto)]

mod core_words;
pub mod fault;
pub mod image;
mod limits;
mod objects;
mod segments;
pub mod start;
mod tables;

ghost use Rattle.m36_boot.specs.ImageLaw.{ImageNumbersLaw, MayStartLaw};

pub use fault::BootFault;
pub use image::{Image, lay};

/// The numbers of a booted image agree.
///
/// - The stack of a ring is the segment that the descriptor segment base register assigns to the
///   ring, and its descriptor satisfies the audit condition on stacks.
/// - There are page tables for the maximum number of segments of a catalog.
/// - Each segment of a ring or of the catalog has its descriptor and its words under the number
///   assigned to it.
/// - In the registers of the start, the linkage register points to the section that is laid.
/// - A segment may be started in a ring exactly if the ring may execute it.
pub fn law_image()
    ensures numbers { ImageNumbersLaw }
    ensures start { MayStartLaw }
{}
