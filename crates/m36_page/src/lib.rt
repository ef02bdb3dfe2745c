//! Demand paging. A page of a segment is in a pageable frame of core, or its words are kept here.
//!
//! The contract:
//!
//! - The content of every word of every segment is the same wherever its page is. Bringing a page
//!   in or evicting one changes no content, and no core word except page table words and words of
//!   pageable frames.
//! - Bringing a page in evicts at most one page, and none that is pinned. A page is pinned if one
//!   of the references that the caller gives is to it. Of the pages that stay where they are it
//!   changes only used marks, which it clears, and none of a pinned page.
//! - The kept words change only for the page that is evicted.
//! - Setting a word changes it in its frame or in the kept words, and nothing else.
//!
//! Two facts are in no clause, and can be read in the code. After `Pager::new` no memory is
//! allocated, since `kept` writes within the room that was allocated there. And the page that is
//! evicted is chosen by a hand that goes around the frames; it passes over a page whose used mark
//! is set once, and clears the mark (`choice`). A test of `system_tests` observes this choice.
//!
//! `Pager::new` allocates room for the words of all pages, but writes only those that are given.
//! The zeros after them are not written until a word after them is kept. So a large segment with
//! few words takes more room than a small one, but no more time.
//!
//! Source: Multics Processor Manual AL39, "Paging"; the choice is after Corbato, "A Paging
//! Experiment with the Multics System" (1968).
#![tactic(auto)]

mod choice;
mod copying;
mod kept;
pub mod pager;
mod residence;
mod table;

pub use pager::{Pager, Pinned};
pub use table::{PageTable, are_placed};
