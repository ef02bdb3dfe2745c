//! The laws on which isolation rests.
//!
//! If the six audit conditions hold of the tables of a core, each ring r from 1 to 7 is isolated
//! (`law_window`). That is: for any programs in ring r and above, up to the first fault, stop or
//! gate call, no word changes that ring r may not write, and no step depends on a word that ring r
//! may not read. Besides the audit, the only premise is that the processor has eight pointer
//! registers, which its type ensures.
//!
//! The other functions are facts that this needs: about stores, rights, effects, one step, two
//! states that look the same from a ring, and the conditions themselves.
//!
//! Each law is a function without arguments and with an empty body. Its contract is the law: a
//! statement about the definitions of the machine, for all states. The proofs are about any store
//! that satisfies `law_store`, and about programs that ask a store; a step is such a program. So
//! the laws of a step are proved by the kinds of operands and the rules of the address chain. Only
//! what an effect changes is proved for each instruction.
//!
//! Source: Schroeder and Saltzer, "A hardware architecture for implementing protection rings"
//! (1972); Multics Processor Manual AL39, "Access control".
#![tactic(auto)]

ghost use Rattle.std.specs.Prelude.{ℕ, List, map};
ghost use Rattle.m36_desc.specs.Fields.{DbrFields};
ghost use Rattle.m36_model.specs.Core.{core_store, core_tables};
ghost use Rattle.m36_model.specs.Audit.{AreApart, IsAudited};
ghost use Rattle.m36_model.specs.StoreLaw.{Lawful};
ghost use Rattle.m36_model.specs.CoreLaw.{HasTables, IsSegmentSpot, IsMarkedFrom};
ghost use Rattle.m36_model.specs.Isolation.{Isolated};
ghost use Rattle.m36_model.specs.Flat.{Flat, flat_store, flat_tables, HasDescriptors, IsFlatSpot};
ghost use Rattle.m36_model.specs.Flat.{IsSameFlat, IsFlatAudited};
ghost use Rattle.m36_model.specs.BootedCore.{booted_dbr, IsLaid};
ghost use Rattle.m36_model.specs.PagedStep.{PagedStepLaw, MovedLaw, SameAuditLaw, FlatAuditLaw};
ghost use Rattle.m36_model.specs.JointAudit.{IsJointlyAudited};
ghost use Rattle.m36_model.specs.JointIsolation.{JointlyIsolated};
ghost use Rattle.m36_isol.specs.Findings.{FindingsLaw, JointFindingsLaw};
ghost use Rattle.m36_isol.specs.Rights.{RightsLaw};
ghost use Rattle.m36_isol.specs.Gates.{GatesLaw};
ghost use Rattle.m36_isol.specs.MarkBits.{MarksKeepBits, MarksAreFields, UnusedIsField};
ghost use Rattle.m36_isol.specs.BootedNumbers.{BootedNumbersLaw};
ghost use Rattle.m36_isol.specs.PageServices.{PagesLaw};
ghost use Rattle.m36_isol.specs.References.{FewReferencesLaw};
ghost use Rattle.m36_model.specs.Laws.{EffectLaw, EffectRefusals, DependsLaw, SightLaw, ReachLaw};
ghost use Rattle.m36_model.specs.Laws.{CoreReachLaw};
ghost use Rattle.m36_model.specs.Laws.{FallLaw, MarksLaw, AgreeLaw, AuditKeptLaw};

/// An audit finds nothing exactly if all six conditions hold, and there is only one list of
/// findings.
pub fn law_findings()
    ensures { FindingsLaw }
{}

/// What the brackets and the rights of a segment have to be for a reference to be allowed.
pub fn law_rights()
    ensures { RightsLaw }
{}

/// If the audit conditions hold, a segment that rings above R2 may call is a gate, and the ring
/// that a call enters has a stack.
pub fn law_gates()
    ensures { GatesLaw }
{}

/// Core is a store as the laws require, if table words and words of segments are separate, as three
/// of the audit conditions say: descriptors and places depend on the tables without marks; the word
/// at the place of a segment word is its content; marks, and words written at segment words, change
/// neither tables nor other words.
///
/// A mark changes no other bit of its page table word, and turns on the bits that are the fields
/// `used` and `modified`. Turning the used bit off changes only that field.
pub fn law_store()
    ensures marks { MarksKeepBits }
    ensures fields { MarksAreFields }
    ensures unused { UnusedIsField }
    ensures store { (core : List ℕ) (dbr : DbrFields) → AreApart core dbr
        → Lawful core_store dbr (HasTables core dbr) (IsSegmentSpot core dbr)
        (IsMarkedFrom core dbr) }
{}

/// Only CALL6 and RTCD change the ring, and only LDBR changes the DBR. An effect gives as many
/// words to write as its operand kind requires. No effect is refused with a directed fault, an
/// access violation, or fault tag 2 or 3.
pub fn law_effect()
    ensures effects { EffectLaw }
    ensures refusals { EffectRefusals }
{}

/// In ring r and above, a step refers only to segments that ring r can see, and writes only
/// segments that ring r can change. What ring r cannot see does not affect the record of a step.
pub fn law_sight()
    ensures depends { (core : List ℕ) (dbr : DbrFields) → IsAudited core dbr
        → DependsLaw core_store (core_tables core dbr) }
    ensures refers { (core : List ℕ) (dbr : DbrFields) → IsAudited core dbr
        → SightLaw core_store (core_tables core dbr) }
{}

/// In ring r and above, a step does not change the content of a segment that ring r cannot change.
/// In core, it changes only words of segments that ring r can change, and marks of page table
/// words.
pub fn law_reach()
    ensures content { (core : List ℕ) (dbr : DbrFields) → IsAudited core dbr
        → ReachLaw core_store (core_tables core dbr) }
    ensures words { (core : List ℕ) (dbr : DbrFields) → IsAudited core dbr → CoreReachLaw core dbr }
{}

/// From ring r or above, a step ends in a ring below r only by a gate call.
pub fn law_fall()
    ensures { (core : List ℕ) (dbr : DbrFields) → IsAudited core dbr
        → FallLaw core_store (core_tables core dbr) }
{}

/// Marks affect no descriptor, no place and no record.
pub fn law_marks()
    ensures { (core : List ℕ) (dbr : DbrFields) → IsAudited core dbr
        → MarksLaw core_store (core_tables core dbr) }
{}

/// In ring r and above, a step from each of two states that agree has the same record, and the
/// states after it agree.
pub fn law_agree()
    ensures { (core : List ℕ) (dbr : DbrFields) → IsAudited core dbr
        → AgreeLaw core_store (core_tables core dbr) }
{}

/// If the audit conditions hold, the tables isolate each ring from 1 to 7.
pub fn law_window()
    ensures { (core : List ℕ) (dbr : DbrFields) → IsAudited core dbr
        → Isolated core_store (core_tables core dbr) }
{}

/// A step in any ring preserves the audit conditions, unless it executes LDBR.
pub fn law_audit_preserved()
    ensures { AuditKeptLaw }
{}

/// A joint audit of several processes finds nothing exactly if all its conditions hold, and there
/// is only one list of findings.
pub fn law_joint_findings()
    ensures { JointFindingsLaw }
{}

/// If the joint audit conditions hold of a core and the DBRs of several processes, every schedule
/// of these processes is isolated in each ring r from 1 to 7. That is: while the processes run in
/// ring r and above, until one of them faults, stops, or leaves through a gate, no word changes
/// that ring r may not write, and no event depends on a word that ring r may not read. An event
/// that ends below ring r is a call through a gate of its own process.
pub fn law_schedule()
    ensures { (core : List ℕ) (dbrs : List DbrFields) → IsJointlyAudited core dbrs
        → JointlyIsolated core_store (map (core_tables core) dbrs) }
{}

/// A flat memory has descriptors and the content of segments, without page tables. It is a store as
/// the laws require. If the audit conditions about descriptors hold of it, its tables isolate each
/// ring.
pub fn law_flat()
    ensures store { (s : Flat) (dbr : DbrFields)
        → Lawful flat_store dbr (HasDescriptors s dbr) IsFlatSpot IsSameFlat }
    ensures window { (s : Flat) (dbr : DbrFields) → IsFlatAudited s dbr
        → Isolated flat_store (flat_tables s dbr) }
{}

/// Laws of the core of a booted image, whatever frames its pages are in:
///
/// - Its table words and words of segments are separate.
/// - A step over it is the step over the flat memory that it represents, or ends with a page fault,
///   or executes ABSA. After the step, core is still that of a booted image.
/// - Moving pages between frames and the kept words does not change the flat memory.
/// - Whether the audit conditions hold depends only on the descriptors.
/// - The numbers of the layout are those of its parts.
pub fn law_paged()
    ensures apart { (core : List ℕ) (frames : ℕ) → IsLaid core frames → AreApart core booted_dbr }
    ensures step { PagedStepLaw }
    ensures moved { MovedLaw }
    ensures audit { SameAuditLaw }
    ensures flat { FlatAuditLaw }
    ensures numbers { BootedNumbersLaw }
{}

/// A step records at most 20 references. A booted image has at least 24 frames, so there is always
/// one whose page the step has not referenced.
pub fn law_references()
    ensures { FewReferencesLaw }
{}

/// An instruction references at most 18 pages. So if it is restarted after the service of each page
/// fault, and the pages that it has referenced stay in their frames, it has no page fault after 18
/// services.
pub fn law_pages()
    ensures { PagesLaw }
{}
