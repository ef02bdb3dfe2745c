//! The auditor: it decides whether the tables of a core isolate its rings.
//!
//! A processor separates its rings by segment descriptors, page tables and the rules of access.
//! This works only if the tables themselves are sound: a page table in a writable segment, or two
//! segments on one core word, defeat every rule. `audit` reads the tables that a descriptor segment
//! base register (DBR) gives to a core, and decides six conditions:
//!
//! 1. Each live segment has its ring brackets in order.
//! 2. No core word is a word of two tables.
//! 3. No core word is both a table word and a word of a segment.
//! 4. No core word is two words of segments.
//! 5. Each segment that rings above R2 may call is a gate.
//! 6. The ring that such a call enters has a stack.
//!
//! The findings of `audit` are, for each condition that fails and in this order, the least segment
//! (1, 5, 6) or the least core word (2, 3, 4) that breaks it (clause `findings`). There are none
//! exactly if all six conditions hold (`audited`), and then each ring r from 1 to 7 is isolated
//! (`isolated`): for programs in ring r and above, up to a fault, a stop or a gate call, no word
//! changes that ring r may not write, and no record depends on a word that ring r may not read.
//! `Verdict::has_no_findings` says whether there are no findings. The only error is `NoMemory`,
//! before anything is read.
//!
//! `joint_audit` decides the same for one to eight processes on one core, each with its DBR, and
//! two conditions between them. No table word of one process is a table word or a segment word of
//! another, except in the page table of a segment that both have. No segment word of one is at the
//! core address of one of another, except for the same word of such a segment. Two segments are the
//! same if their descriptors are equal words. The findings are those of each process in order, and
//! then the least core word that breaks each condition between processes. If there are none, every
//! schedule of the processes is isolated in each ring from 1 to 7.
//!
//! Cost of `audit`: memory for one mark and two counts for each core word. Marks are written only
//! up to the last word of a table, and counts up to the last word at which a run begins or ends. So
//! the time grows with these words, with the descriptors and with the page tables, but not with the
//! words of the segments nor with the rest of core. Each table word is marked with its table.
//! Segment words are not visited one by one: a page or an unpaged segment is a run of core words.
//! For each core word, the auditor counts the runs that begin and end there. One pass over core
//! then knows how many runs are open at each word. It ends at the last word at which a run begins,
//! since after it the number of open runs does not grow.
//!
//! Cost of `joint_audit`: three more numbers for each core word, and one for each descriptor. The
//! marks and counts are used again for each process. Three values are recorded for each core word,
//! each of them "none", one number, or "several": the process that has a table word there, the
//! process that has a segment word there, and the table. Each descriptor gets the number of the
//! first one with the same words, so page tables of equal descriptors count as one table. Runs are
//! counted once more over all processes, for first descriptors only. So the time grows with the
//! words of core, of the descriptors and of the page tables, and not with pairs of them.
//!
//! A hash map finds the numbers of equal descriptors, with an entry for each different descriptor.
//! Its seed depends on all descriptors, so descriptors that collide under one seed do not under
//! another. All memory is allocated before any finding is made.
//!
//! Source: Multics Processor Manual AL39, "Addressing -- segmentation and paging", "Access
//! control"; Schroeder and Saltzer, "A hardware architecture for implementing protection rings"
//! (1972). The six conditions are this project's choice.
#![tactic(auto)]

pub mod auditor;
mod brackets;
mod breaking;
mod equal_descriptors;
mod gates;
mod identities;
pub mod joint_auditor;
mod joint_runs;
pub mod joint_verdict;
mod joint_words;
mod live_descriptor;
mod owners;
mod recorded;
mod run;
mod segment_runs;
mod table_words;
mod tables;
pub mod verdict;
mod words;

pub use auditor::audit;
pub use joint_auditor::joint_audit;
pub use joint_verdict::{JointFinding, JointVerdict};
pub use verdict::{Finding, Verdict};
