//! The joint audit of several processes on one core.

ghost use Rattle.std.specs.Prelude.{[], ◌≡◌, ◌+◌, ◌*◌, ◌<◌, ◌≤◌, ◌^◌, ◌↔◌, IfOk, Some, map, length};
ghost use Rattle.std.specs.Prelude.{replicate, slice_get};
ghost use Rattle.arrayvec.specs.ArrayVec.{array_vec_len};
ghost use Rattle.m36_desc.specs.Fields.{DbrFields};
ghost use Rattle.m36_model.specs.Audit.{AreFindings};
ghost use Rattle.m36_model.specs.Core.{core_store, core_tables};
ghost use Rattle.m36_model.specs.JointAudit.{AreFindingsFrom, AreJointFindings, IsJointlyAudited};
ghost use Rattle.m36_model.specs.JointAudit.{most_processes};
ghost use Rattle.m36_model.specs.JointIsolation.{JointlyIsolated};
ghost use Rattle.m36_audit.specs.Findings.{finding_pairs};
ghost use Rattle.m36_audit.specs.Classes.{descriptors_of_process, AreFirstEquals};
ghost use Rattle.m36_audit.specs.Joints.{all_found, AreWordOwners};

use crate::auditor::findings_from_marks;
use crate::equal_descriptors::equal_descriptors;
use crate::identities::record_tables;
use crate::joint_runs::count_processes;
use crate::joint_verdict::{JointFinding, JointVerdict, note_between, note_process};
use crate::joint_words::{first_joint_segment_word, first_joint_table_word};
use crate::owners::record_owners;
use crate::recorded::RecordedNumbers;
use crate::run::RunCounts;
use crate::segment_runs::count_segments;
use crate::table_words::mark_tables;
use crate::tables::TableMarks;
use crate::verdict::Verdict;
use arrayvec::ArrayVec;
use m36_core::Core;
use m36_desc::Dbr;
use m36_isol::{law_joint_findings, law_schedule};
use m36_word::NoMemory;
use std::alloc::Global;

/// What is recorded for each core word over several processes.
#[derive(Drop)]
struct WordOwners {
    /// The process that has a table word there.
    tables: RecordedNumbers,
    /// The process that has a segment word there.
    segments: RecordedNumbers,
    /// The table that has a word there.
    identities: RecordedNumbers,
}

impl WordOwners {
    /// Nothing is recorded. Fails only if memory runs out.
    fn new(alloc: Global, size: u32) -> Result<WordOwners, NoMemory>
        ensures tables { IfOk result (λ s. s.tables.values.items ≡ replicate size 0) }
        ensures segments { IfOk result (λ s. s.segments.values.items ≡ replicate size 0) }
        ensures identities { IfOk result (λ s. s.identities.values.items ≡ replicate size 0) }
    {
        let tables = RecordedNumbers::new(alloc, size)?;
        let segments = RecordedNumbers::new(alloc, size)?;
        let identities = RecordedNumbers::new(alloc, size)?;
        Ok(WordOwners {
            tables,
            segments,
            identities,
        })
    }
}

/// The findings of process k by itself. Records in `owners` which core words it has. What `marks`
/// and `counts` had before is cleared.
fn findings_of(
    marks: &mut TableMarks,
    counts: &mut RunCounts,
    owners: &mut WordOwners,
    core: &Core,
    dbrs: &[Dbr],
    firsts: &Vec<u32>,
    k: usize,
) -> Verdict
    requires few { length dbrs.now ≤ most_processes }
    requires process { k < length dbrs.now }
    requires marks_len { length marks.old.tables ≡ length core.now }
    requires starts_len { length counts.old.starts ≡ length core.now }
    requires stops_len { length counts.old.stops ≡ length core.now }
    requires equal_descriptors { AreFirstEquals core.now dbrs.now
        (descriptors_of_process * length dbrs.now) firsts.now.items }
    requires before { AreWordOwners core.now dbrs.now firsts.now.items k
        owners.old.tables.values.items owners.old.segments.values.items
        owners.old.identities.values.items }
    ensures marks_len { length marks.new.tables ≡ length core.now }
    ensures starts_len { length counts.new.starts ≡ length core.now }
    ensures stops_len { length counts.new.stops ≡ length core.now }
    ensures findings { (dbr : DbrFields) → slice_get dbrs.now k ≡ Some dbr
        → AreFindings core.now dbr (finding_pairs result.findings.items) }
    ensures after { AreWordOwners core.now dbrs.now firsts.now.items (k + 1)
        owners.new.tables.values.items owners.new.segments.values.items
        owners.new.identities.values.items }
{
    let dbr = dbrs[k];
    marks.clear();
    counts.clear();
    mark_tables(marks, core, dbr);
    count_segments(counts, core, dbr);
    let table_number = k as u32;
    record_owners(
        &mut owners.tables,
        &mut owners.segments,
        marks,
        counts,
        core,
        dbr,
        table_number,
    );
    record_tables(&mut owners.identities, core, dbr, firsts, table_number);
    findings_from_marks(marks, counts, core, dbr)
}

/// The findings of each process by itself, in the order of the processes. Records in `owners` which
/// core words each of them has.
fn findings_of_all(
    marks: &mut TableMarks,
    counts: &mut RunCounts,
    owners: &mut WordOwners,
    core: &Core,
    dbrs: &[Dbr],
    firsts: &Vec<u32>,
) -> ArrayVec<JointFinding, 50>
    requires few { length dbrs.now ≤ most_processes }
    requires marks_len { length marks.old.tables ≡ length core.now }
    requires starts_len { length counts.old.starts ≡ length core.now }
    requires stops_len { length counts.old.stops ≡ length core.now }
    requires equal_descriptors { AreFirstEquals core.now dbrs.now
        (descriptors_of_process * length dbrs.now) firsts.now.items }
    requires before { AreWordOwners core.now dbrs.now firsts.now.items 0
        owners.old.tables.values.items owners.old.segments.values.items
        owners.old.identities.values.items }
    ensures starts_len { length counts.new.starts ≡ length core.now }
    ensures stops_len { length counts.new.stops ≡ length core.now }
    ensures findings { AreFindingsFrom 0 core.now dbrs.now (all_found result.items) }
    ensures room { array_vec_len result ≤ 48 }
    ensures after { AreWordOwners core.now dbrs.now firsts.now.items (length dbrs.now)
        owners.new.tables.values.items owners.new.segments.values.items
        owners.new.identities.values.items }
{
    let mut findings = ArrayVec::new();
    for k in 0..dbrs.len() {
        let own = findings_of(marks, counts, owners, core, dbrs, firsts, k);
        note_process(&mut findings, k as u8, &own);
    }
    findings
}

/// The findings of the joint audit: those of each process, and then those between processes.
/// Nothing is recorded in `owners` before.
fn joint_findings(
    marks: &mut TableMarks,
    counts: &mut RunCounts,
    owners: &mut WordOwners,
    core: &Core,
    dbrs: &[Dbr],
    firsts: &Vec<u32>,
) -> JointVerdict
    requires few { length dbrs.now ≤ most_processes }
    requires marks_len { length marks.old.tables ≡ length core.now }
    requires starts_len { length counts.old.starts ≡ length core.now }
    requires stops_len { length counts.old.stops ≡ length core.now }
    requires equal_descriptors { AreFirstEquals core.now dbrs.now
        (descriptors_of_process * length dbrs.now) firsts.now.items }
    requires before { AreWordOwners core.now dbrs.now firsts.now.items 0
        owners.old.tables.values.items owners.old.segments.values.items
        owners.old.identities.values.items }
    ensures { AreJointFindings core.now dbrs.now (all_found result.findings.items) }
{
    let mut findings = findings_of_all(marks, counts, owners, core, dbrs, firsts);
    let second = first_joint_table_word(
        &owners.tables,
        &owners.segments,
        &owners.identities,
        core,
        dbrs,
        firsts,
    );
    counts.clear();
    count_processes(counts, core, dbrs, firsts);
    let third = first_joint_segment_word(&owners.segments, counts, core, dbrs, firsts);
    note_between(&mut findings, 2, second);
    note_between(&mut findings, 3, third);
    JointVerdict { findings }
}

/// Decides the joint audit of one to eight processes on one core, by their DBRs. The conditions are
/// the six of each process, and two between processes:
///
/// - No table word of one process is a table word or a segment word of another, except in the page
///   tables of segments with equal descriptors.
/// - No segment word of one process is at the core address of one of another, except for the same
///   word of such segments.
///
/// The findings are those of each process in order, and then, for each condition between processes
/// that fails, the least core word that breaks it. If there are none, every schedule of the
/// processes is isolated in each ring from 1 to 7. Fails only if memory runs out, before any
/// finding is made.
pub fn joint_audit(alloc: Global, core: &Core, dbrs: &[Dbr]) -> Result<JointVerdict, NoMemory>
    requires some { 1 ≤ length dbrs.now }
    requires few { length dbrs.now ≤ most_processes }
    ensures findings { IfOk result (λ j. AreJointFindings core.now dbrs.now
        (all_found j.findings.items)) }
    ensures audited { IfOk result (λ j. (j.findings.items ≡ [])
        ↔ IsJointlyAudited core.now dbrs.now) }
    ensures isolated { IfOk result (λ j. j.findings.items ≡ []
        → JointlyIsolated core_store (map (core_tables core.now) dbrs.now)) }
{
    let size = core.len();
    let mut marks = TableMarks::new(alloc, size)?;
    let mut counts = RunCounts::new(alloc, size)?;
    let mut owners = WordOwners::new(alloc, size)?;
    let firsts = equal_descriptors(alloc, core, dbrs)?;
    law_joint_findings();
    law_schedule();
    Ok(joint_findings(&mut marks, &mut counts, &mut owners, core, dbrs, &firsts))
}
