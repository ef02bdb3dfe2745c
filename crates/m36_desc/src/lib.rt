//! Descriptors of the Honeywell 6180, and the rights that they give.
//!
//! A segment descriptor word (SDW) locates a segment, a page table word (PTW) a page, and the
//! descriptor segment base register (DBR) the descriptor segment. Pointer registers and the pairs
//! ITS and ITP name words of segments. Each of these is a record that is read from words and
//! written to words.
//!
//! Reading takes each field from its bits of the words. Writing puts each field into its bits and
//! zeros into all bits without a name. A record that was written is read back unchanged.
//!
//! Each kind of reference has a list of rules that refuse it (`specs/Access.antt`). A reference
//! gets the access violation of the first rule that applies, and is allowed if none applies. A call
//! that is allowed yields its new ring by the ring rules.
//!
//! Source: Multics Processor Manual AL39, "Addressing -- segmentation and paging" and "Access
//! control"; for the ring rules, Schroeder and Saltzer, "A hardware architecture for implementing
//! protection rings" (1972).
#![tactic(auto)]

pub mod access;
pub mod dbr;
pub mod laws;
pub mod pairs;
pub mod pointer;
pub mod ptw;
pub mod sdw;

pub use access::{Acv, call_ring, may_fetch, may_read, may_transfer, may_write};
pub use dbr::Dbr;
pub use laws::{descriptor_laws, field_widths, word_widths};
pub use pairs::{ITP_TAG, ITS_TAG, Itp, Its};
pub use pointer::Ptr;
pub use ptw::Ptw;
pub use sdw::Sdw;
