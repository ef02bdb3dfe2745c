//! The outside world of a command as one object.
//!
//! A command reads and writes files, puts output and takes input. [`World`] has these five calls
//! in one trait, and one ghost record, `Seen`, of all that is observed of the outside:
//!
//! - each [`Event`], in the order in which it happened,
//! - what the folder, the output and the input each logged of their own calls,
//! - the files, the output and the input that is left, if they are known,
//! - four counts of faults, and the names of the references that the world holds, if it holds any.
//!
//! Each call has one clause, which says what the call did to that record.
//!
//! | Call | Events |
//! |---|---|
//! | `read` | `FileRead`, with the name and the answer |
//! | `write` | `FileWrite`, with the name, the content and the answer |
//! | `put`, `put_block` | an `Output` for each piece, or one `OutputFailed` with all pieces |
//! | `next_piece` | `Input` with the piece, which is empty at the end, or `InputFailed` |
//!
//! For each event a record says what it did (`IsFileRead`, `IsOutputFailed`, ..). It has the facts
//! that the traits of `m36_outside` promise for the call, and one equation, `rest`, by which
//! everything else in `Seen` is unchanged. `Happened` selects the record by the event. `Follow` is
//! `Happened` for a list of events, one after another. So one clause says what a function did to
//! the outside, and in which order. An event is logged after the call that it records, and takes no
//! memory.
//!
//! A call that fails to write output is one event. Such a call may write some of the pieces and a
//! prefix of the next. `IsOutputFailed` says which of them the output took, and by how much the
//! written text grew. These are two facts, since the log of an output need not agree with what is
//! written.
//!
//! | World | Its objects | Names of references |
//! |---|---|---|
//! | [`Outside`] | it owns them | none |
//! | [`Borrowed`] | the caller lends them | those of the folder, the input and the output |
//!
//! Both are proved for any folder, input and output. Each event keeps the names of the references.
//! So a caller who lends its objects to a function that is generic over [`World`] knows from
//! `Follow` that the world still holds its own references after the call, and what they hold then
//! (`follow_logs` in `proofs/Following.antt`; `world.rt` of `outside_tests` is a worked caller).
#![tactic(auto)]

pub mod borrowed;
mod calls;
pub mod event;
pub mod outside;
pub mod pieces;
pub mod world;

pub use borrowed::Borrowed;
pub use event::Event;
pub use outside::Outside;
pub use pieces::Pieces;
pub use world::World;
