//! The audit of a core and a descriptor segment base register (DBR).

ghost use Rattle.std.specs.Prelude.{[], ◌≡◌, ◌^◌, ◌↔◌, IfOk, None, length, replicate};
ghost use Rattle.m36_model.specs.Audit.{IsWordOfTable, AreFindings, IsAudited};
ghost use Rattle.m36_model.specs.Core.{core_store, core_tables};
ghost use Rattle.m36_model.specs.Isolation.{Isolated};
ghost use Rattle.m36_audit.specs.Findings.{finding_pairs};
ghost use Rattle.m36_audit.specs.TableMarks.{AreMarked};
ghost use Rattle.m36_audit.specs.Runs.{runs_of_process, run, AreCounted};

use crate::breaking::{Condition, first_segment};
use crate::run::RunCounts;
use crate::segment_runs::count_segments;
use crate::table_words::mark_tables;
use crate::tables::TableMarks;
use crate::verdict::{Verdict, note};
use crate::words::{first_table_and_segment_word, first_word_in_two_segments};
use arrayvec::ArrayVec;
use m36_core::Core;
use m36_desc::Dbr;
use m36_isol::{law_findings, law_window};
use m36_word::NoMemory;
use std::alloc::Global;

/// The findings for a DBR, in the order of the conditions. The table words are marked already, and
/// the runs of the segments are counted.
pub(crate) fn findings_from_marks(
    marks: &TableMarks,
    counts: &RunCounts,
    core: &Core,
    dbr: Dbr,
) -> Verdict
    requires marked { AreMarked (IsWordOfTable core.now dbr) (length core.now) marks.now.tables
        marks.now.least }
    requires counted { AreCounted (run core.now dbr) runs_of_process (length core.now)
        counts.now.starts counts.now.stops }
    ensures { AreFindings core.now dbr (finding_pairs result.findings.items) }
{
    let first = first_segment(Condition::Brackets, core, dbr);
    let second = marks.least;
    let third = first_table_and_segment_word(marks, counts, core, dbr);
    let fourth = first_word_in_two_segments(counts, core, dbr);
    let fifth = first_segment(Condition::Gate, core, dbr);
    let sixth = first_segment(Condition::Stack, core, dbr);
    let mut findings = ArrayVec::new();
    note(&mut findings, 1, first);
    note(&mut findings, 2, second);
    note(&mut findings, 3, third);
    note(&mut findings, 4, fourth);
    note(&mut findings, 5, fifth);
    note(&mut findings, 6, sixth);
    Verdict { findings }
}

/// Marks the table words, counts the runs of the segments, and makes the findings from both.
/// `marks` and `counts` have an entry for each core word, all of them zero.
fn findings_of(marks: &mut TableMarks, counts: &mut RunCounts, core: &Core, dbr: Dbr) -> Verdict
    requires tables { marks.old.tables ≡ replicate (length core.now) 0 }
    requires least { marks.old.least ≡ None }
    requires starts { counts.old.starts ≡ replicate (length core.now) 0 }
    requires stops { counts.old.stops ≡ replicate (length core.now) 0 }
    ensures { AreFindings core.now dbr (finding_pairs result.findings.items) }
{
    mark_tables(marks, core, dbr);
    count_segments(counts, core, dbr);
    findings_from_marks(marks, counts, core, dbr)
}

/// Decides the six audit conditions of the tables that a DBR gives to a core. For each condition
/// that fails, in order, the findings have its number and the least segment or core word that
/// breaks it. If there are none, all six conditions hold, and the tables isolate each ring from 1
/// to 7. Fails only if memory runs out, before anything is read.
pub fn audit(alloc: Global, core: &Core, dbr: Dbr) -> Result<Verdict, NoMemory>
    ensures findings { IfOk result (λ v. AreFindings core.now dbr
        (finding_pairs v.findings.items)) }
    ensures audited { IfOk result (λ v. (v.findings.items ≡ []) ↔ IsAudited core.now dbr) }
    ensures isolated { IfOk result (λ v. v.findings.items ≡ []
        → Isolated core_store (core_tables core.now dbr)) }
{
    let size = core.len();
    let mut marks = TableMarks::new(alloc, size)?;
    let mut counts = RunCounts::new(alloc, size)?;
    law_findings();
    law_window();
    Ok(findings_of(&mut marks, &mut counts, core, dbr))
}
