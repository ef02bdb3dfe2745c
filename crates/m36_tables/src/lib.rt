//! The one reader of descriptors and page tables.
//!
//! A word of a segment is found in core through tables. The descriptor segment base register
//! locates the descriptors. A descriptor locates its segment, or the page table of the segment. A
//! page table word names the frame of a page. Everything that looks for the place of a word, such
//! as the walk of a reference or the audit, reads the tables with these calls:
//!
//! - `descriptor` reads the descriptor of a live segment, or returns why there is none.
//!   `descriptor_place` is the address of its two words, and `directory_at` that of the page table
//!   word of the descriptor segment through which they are found.
//! - `page_table_word` reads a page table word that is in core. `page_at` is the address of the
//!   word for a page, and `page_frame` the address at which the page begins. `address_in_frame` is the
//!   address of a word of a page, by a page table word that was read before.
//! - `word_place` is the address of a word by the descriptor of its segment. `word_in_core` also
//!   checks that this address is in core.
//! - `place` is the address of a word of a segment, without access checks, and `content` is the
//!   word.
//!
//! Each result, each refusal included, is that of the definitions in `Place`, `Store` and `Sight`
//! of `m36_model`. No call checks rights, and none sets marks: core is only read.
//!
//! `m36_associative` keeps words that it has read by these calls. For a contiguous segment, and for
//! a page that it puts in front, it decodes them itself.
//!
//! Source: Multics Processor Manual AL39, "Address appending", "Segment descriptor word", "Page
//! table word".
#![tactic(auto)]

pub mod addresses;
pub mod descriptors;
pub mod pages;
pub mod places;
pub mod refusals;

pub use addresses::{
    SEGMENTS, directory_at, is_within_bound, page_at, segment_count, wrapped_address,
};
pub use descriptors::{descriptor, descriptor_place};
pub use pages::{address_in_frame, page_frame, page_table_word};
pub use places::{content, has_ordered_brackets, place, word_in_core, word_place};
pub use refusals::{directed_refusal, store_fault, violation};
