//! The third and the fourth condition: no core word is both a table word and a segment word, and
//! none is two segment words. One pass over core each, which counts the open runs.

ghost use Rattle.std.specs.Prelude.{◌≡◌, ◌<◌, ◌^◌, ◌+◌, ◌==◌, ◌&&◌, not, nat_lt, length};
ghost use Rattle.std.specs.Bool.{Decides};
ghost use Rattle.m36_model.specs.Audit.{Finds, IsWordOfTable, IsTableAndSegment, IsInTwoSegments};
ghost use Rattle.m36_audit.specs.TableMarks.{AreMarked};
ghost use Rattle.m36_audit.specs.Runs.{runs_of_process, run, coverage, AreCounted, IsOpenCount};

use crate::run::RunCounts;
use crate::tables::TableMarks;
use m36_core::Core;
use m36_desc::Dbr;

/// The number of runs that cover word `a`, from the number that cover the word before it (0 for
/// word 0).
pub(crate) fn open_runs_at(counts: &RunCounts, core: &Core, dbr: Dbr, a: u32, open_runs: u32) -> u32
    requires counted { AreCounted (run core.now dbr) runs_of_process (length core.now)
        counts.now.starts counts.now.stops }
    requires before { IsOpenCount (run core.now dbr) runs_of_process a open_runs }
    requires inside { a < length core.now }
    ensures value { result ≡ coverage core.now dbr a }
    ensures after { IsOpenCount (run core.now dbr) runs_of_process (a + 1) result }
{
    let begin = counts.starts.at(a);
    let end = counts.stops.at(a);
    open_runs + begin - end
}

/// Whether a word with this number of open runs and this mark is both a segment word and a table
/// word.
fn is_segment_and_table(open_runs: u32, mark: u16) -> bool
    ensures { result ≡ (nat_lt 0 open_runs && not (mark == 0)) }
{
    open_runs > 0 && mark != 0
}

/// Whether a word breaks the third condition.
fn is_table_and_segment(marks: &TableMarks, core: &Core, dbr: Dbr, a: u32, open_runs: u32) -> bool
    requires marked { AreMarked (IsWordOfTable core.now dbr) (length core.now) marks.now.tables
        marks.now.least }
    requires inside { a < length core.now }
    requires covered { open_runs ≡ coverage core.now dbr a }
    ensures { Decides result (IsTableAndSegment core.now dbr a) }
{
    is_segment_and_table(open_runs, marks.tables.at(a))
}

/// Whether a word breaks the fourth condition.
fn is_in_two_segments(core: &Core, dbr: Dbr, a: u32, open_runs: u32) -> bool
    requires inside { a < length core.now }
    requires covered { open_runs ≡ coverage core.now dbr a }
    ensures { Decides result (IsInTwoSegments core.now dbr a) }
{
    open_runs > 1
}

/// The first core word that is both a segment word and a table word.
pub(crate) fn first_table_and_segment_word(
    marks: &TableMarks,
    counts: &RunCounts,
    core: &Core,
    dbr: Dbr,
) -> Option<u32>
    requires marked { AreMarked (IsWordOfTable core.now dbr) (length core.now) marks.now.tables
        marks.now.least }
    requires counted { AreCounted (run core.now dbr) runs_of_process (length core.now)
        counts.now.starts counts.now.stops }
    ensures { Finds (IsTableAndSegment core.now dbr) result }
{
    let mut open_runs = 0;
    for a in 0..marks.tables.end() {
        open_runs = open_runs_at(counts, core, dbr, a, open_runs);
        if is_table_and_segment(marks, core, dbr, a, open_runs) {
            return Some(a);
        }
    }
    None
}

/// The first core word that is two segment words.
pub(crate) fn first_word_in_two_segments(counts: &RunCounts, core: &Core, dbr: Dbr) -> Option<u32>
    requires counted { AreCounted (run core.now dbr) runs_of_process (length core.now)
        counts.now.starts counts.now.stops }
    ensures { Finds (IsInTwoSegments core.now dbr) result }
{
    let mut open_runs = 0;
    for a in 0..counts.starts.end() {
        open_runs = open_runs_at(counts, core, dbr, a, open_runs);
        if is_in_two_segments(core, dbr, a, open_runs) {
            return Some(a);
        }
    }
    None
}
