//! The associative memories: what the walk of a reference keeps of the tables that it has read.
//!
//! Two memories have 16 entries each: one keeps segment descriptor words, by segment number, the
//! other page table words, by their address in core. A new entry replaces the one that was used
//! least recently. In front of both memories are 16 pages. A page has its address in core and what
//! the descriptor of its segment allows.
//!
//! The invariant `AreCoherent` says that everything kept is what the tables in core say; for a page
//! table word, everything except its marks. Each call here preserves it. So the memories affect
//! only the time that a reference takes:
//!
//! - `descriptor` and `word_place` return what the reader of tables (`m36_tables`) returns, and
//!   keep what they have read.
//! - `enter` puts a page in front: the number of its words that are within the bound and in core,
//!   which rings may read, write and fetch from it, and whether its marks are set.
//! - `place_to_read` and the calls beside it answer a reference from a page in front, by
//!   comparisons only. Instructions are fetched from one such page, which is kept separately with
//!   its ring (`place_to_fetch`), until a fetch goes to another page.
//! - `store` and `mark` write core while the memories keep something. Two kinds of words are
//!   watched: those from which an entry was read, and the page table words through which it was
//!   found. A write of a watched word empties everything if such an entry is still kept, and
//!   otherwise only the front. A mark that changes a word empties everything if a kept descriptor
//!   was read from this word, and otherwise only the front.
//!
//! A page in front answers without its entries being looked up. So each page and each entry has the
//! time of its last use, and before an entry is replaced, it first gets the times at which its
//! pages in front were used (`uses`). When an entry is replaced, its pages leave the front. So the
//! memories keep the same entries as they would without a front. No contract states this order; the
//! tests of `m36_walk` check it.
#![tactic(auto)]

pub mod answering;
pub mod front;
pub mod kept;
pub mod memories;
mod page_rights;
pub mod reading;
pub mod uses;
pub mod watch;
mod watched_words;
pub mod writing;

pub use answering::{
    may_transfer_to, place_to_change, place_to_fetch, place_to_fetch_elsewhere, place_to_read,
    place_to_write,
};
pub use memories::Memories;
pub use reading::{descriptor, enter, word_place};
pub use writing::{mark, store};
