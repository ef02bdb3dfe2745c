//! The booted system ("supervisor"): the segments of a catalog in the core of a processor, with
//! paging, links and a console.
//!
//! `Super::boot` returns exactly the system that the booted image starts, or the first of the
//! faults U1 to U4 that applies, or `NoMemory`. A `turn` of the system is a turn of its booted
//! run: a step, for which the pages that it lacks are brought in; or the link or console service
//! that the step before it called for; or the end of the run, which is reported again. Page
//! services are not reported.
//!
//! The contract leaves two things of a page service open: which frame is taken, which must hold no
//! page that the instruction has referenced, and which used marks of other pages are cleared. Only
//! a link service can run out of memory; then it changes nothing. Given these choices, each turn
//! and the state after it, with every word of core and every kept word, are a function of the
//! state before. A system cannot go back.
//!
//! The flat run has no pages, and is a function of the catalog and the files. The laws relate the
//! booted run to it, until an LDBR replaces the descriptor segment:
//!
//! - Each turn that executes no ABSA and does not run out of memory is the turn of the flat run.
//!   ABSA loads a core address, which depends on the frames. If a turn executes it, the turn of the
//!   flat run does too.
//! - The core stays laid out as that of the booted image, and the audit conditions are kept, also
//!   by services.
//! - If the linkage segment of a ring is all zeros, a link service lays the first linkage section
//!   there as the image of a start does.
//! - The console writes as many characters as A says.
//!
//! `specs/BootedRun.antt` says what the next turn of a run may be, `Services` what a service does,
//! and `FlatRun` what the flat run is. The booted image is that of `m36_boot`.
//!
//! The layout, the services and their rules are this simulator's own; descriptors, page tables and
//! faults are those of the Multics Processor Manual AL39.
#![tactic(auto)]

pub mod booted;
pub mod booting;
mod console;
mod content;
mod linking;
mod naming;
pub mod next_event;
mod stepping;

ghost use Rattle.m36_super.specs.TurnLaws.{LoadsLaw, TurnLaw, TurnAuditLaw, PlainTurnsLaw};
ghost use Rattle.m36_super.specs.SuperFields.{PagingLaw, StepManagedLaw};
ghost use Rattle.m36_super.specs.LayingLaw.{LayingLaw};
ghost use Rattle.m36_super.specs.ConsoleLaw.{ConsoleCounts};

pub use booted::Super;
pub use booting::{are_short, files_of};
pub use next_event::NextEvent;

/// Until an LDBR is executed, a turn of a booted run is that of the flat run, or runs out of
/// memory, or executes ABSA as the turn of the flat run does. The core stays laid out as that of
/// the booted image, and the turn keeps the audit conditions. So the turns before the first that
/// executes ABSA or LDBR, or runs out of memory, are those of the flat run, which has no frames. A
/// step counts as loading the descriptor segment base register exactly if it executes an LDBR.
pub fn law_turn()
    ensures loads { LoadsLaw }
    ensures turn { TurnLaw }
    ensures audit { TurnAuditLaw }
    ensures function { PlainTurnsLaw }
{}

/// A call of the pager that keeps all content moves pages of the booted image, and the pager and
/// its core still satisfy `IsManaged`. So does a step before which the descriptor segment base
/// register is that of the image.
pub fn law_paging()
    ensures paging { PagingLaw }
    ensures step { StepManagedLaw }
{}

/// If the linkage segment of a ring is all zeros, a link service lays the first linkage section of
/// the ring there as the image of a start does, with its word of the linkage offset table. No word
/// of another segment changes.
pub fn law_laying()
    ensures { LayingLaw }
{}

/// A console service writes as many characters as A says.
pub fn law_console()
    ensures { ConsoleCounts }
{}
