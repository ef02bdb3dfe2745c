//! The two conditions between processes: no table word of one is a table word or a segment word of
//! another, except in shared page tables; and no core word is segment words of two, except the same
//! word of shared segments. One pass over core each.

ghost use Rattle.std.specs.Prelude.{◌≡◌, ◌*◌, ◌<◌, ◌≤◌, ◌^◌, ◌+◌, ◌==◌, ◌&&◌, ◌||◌, nat_lt, length};
ghost use Rattle.m36_model.specs.Audit.{Finds};
ghost use Rattle.m36_model.specs.JointAudit.{IsJointTable, IsJointSegment, most_processes};
ghost use Rattle.m36_audit.specs.Runs.{runs_of_process, AreCounted, IsOpenCount};
ghost use Rattle.m36_audit.specs.Classes.{descriptors_of_process, AreFirstEquals};
ghost use Rattle.m36_audit.specs.RecordedNumbers.{AreRecorded, several};
ghost use Rattle.m36_audit.specs.WordOwners.{joint_run, IsOfProcessBelow, HasTableNumbered};
ghost use Rattle.m36_audit.specs.WordOwners.{OwnsTableWord, OwnsSegmentWord, is_joint_table_word};
ghost use Rattle.m36_audit.specs.WordOwners.{joint_coverage};

use crate::recorded::{RecordedNumbers, SEVERAL};
use crate::run::RunCounts;
use m36_core::Core;
use m36_desc::Dbr;

/// Whether a core word breaks the condition on table words between processes: it is a word of two
/// tables that are not shared, or a table word of one process and a segment word of another. The
/// arguments are the values recorded for the word: 0, one number, or `SEVERAL`.
fn is_joint_table_word(tables: u32, segments: u32, identities: u32) -> bool
    ensures { result ≡ is_joint_table_word tables segments identities }
{
    let parted = tables != segments || tables == SEVERAL;
    tables == SEVERAL && identities == SEVERAL || tables != 0 && segments != 0 && parted
}

/// The first core word that is a table word of one process, and a table word that is not shared or
/// a segment word of another.
pub(crate) fn first_joint_table_word(
    tables: &RecordedNumbers,
    segments: &RecordedNumbers,
    identities: &RecordedNumbers,
    core: &Core,
    dbrs: &[Dbr],
    firsts: &Vec<u32>,
) -> Option<u32>
    requires equal_descriptors { AreFirstEquals core.now dbrs.now
        (descriptors_of_process * length dbrs.now)
        firsts.now.items }
    requires tables { AreRecorded (IsOfProcessBelow (OwnsTableWord core.now dbrs.now)
        (length dbrs.now))
        (length core.now) tables.now.values.items }
    requires segments { AreRecorded (IsOfProcessBelow (OwnsSegmentWord core.now dbrs.now)
        (length dbrs.now))
        (length core.now) segments.now.values.items }
    requires identities { AreRecorded (IsOfProcessBelow
        (HasTableNumbered core.now dbrs.now firsts.now.items)
        (length dbrs.now)) (length core.now) identities.now.values.items }
    requires few { length dbrs.now ≤ most_processes }
    ensures { Finds (IsJointTable core.now dbrs.now) result }
{
    for a in 0..core.len() {
        if is_joint_table_word(tables.at(a), segments.at(a), identities.at(a)) {
            return Some(a);
        }
    }
    None
}

/// The number of runs of first descriptors that cover word `a`, from the number that were open
/// before it.
fn joint_open_runs_at(
    counts: &RunCounts,
    core: &Core,
    dbrs: &[Dbr],
    firsts: &Vec<u32>,
    a: u32,
    open_runs: u32,
) -> u32
    requires few { length dbrs.now ≤ most_processes }
    requires counted { AreCounted (joint_run core.now dbrs.now firsts.now.items)
        (runs_of_process * length dbrs.now) (length core.now) counts.now.starts
        counts.now.stops }
    requires before { IsOpenCount (joint_run core.now dbrs.now firsts.now.items)
        (runs_of_process * length dbrs.now) a open_runs }
    requires inside { a < length core.now }
    ensures value { result ≡ joint_coverage core.now dbrs.now firsts.now.items a }
    ensures after { IsOpenCount (joint_run core.now dbrs.now firsts.now.items)
        (runs_of_process * length dbrs.now) (a + 1) result }
{
    let begin = counts.starts.at(a);
    let end = counts.stops.at(a);
    open_runs + begin - end
}

/// Whether a core word is different segment words of two processes, by what is recorded for it and
/// the number of runs of first descriptors that cover it.
fn is_in_different_segments(segments: u32, open_runs: u32) -> bool
    ensures { result ≡ ((segments == several) && nat_lt 1 open_runs) }
{
    segments == SEVERAL && open_runs > 1
}

/// The first core word that is different segment words of two processes.
pub(crate) fn first_joint_segment_word(
    segments: &RecordedNumbers,
    counts: &RunCounts,
    core: &Core,
    dbrs: &[Dbr],
    firsts: &Vec<u32>,
) -> Option<u32>
    requires few { length dbrs.now ≤ most_processes }
    requires equal_descriptors { AreFirstEquals core.now dbrs.now
        (descriptors_of_process * length dbrs.now)
        firsts.now.items }
    requires segments { AreRecorded (IsOfProcessBelow (OwnsSegmentWord core.now dbrs.now)
        (length dbrs.now))
        (length core.now) segments.now.values.items }
    requires counted { AreCounted (joint_run core.now dbrs.now firsts.now.items)
        (runs_of_process * length dbrs.now) (length core.now) counts.now.starts
        counts.now.stops }
    ensures { Finds (IsJointSegment core.now dbrs.now) result }
{
    let mut open_runs = 0;
    for a in 0..core.len() {
        open_runs = joint_open_runs_at(counts, core, dbrs, firsts, a, open_runs);
        if is_in_different_segments(segments.at(a), open_runs) {
            return Some(a);
        }
    }
    None
}
