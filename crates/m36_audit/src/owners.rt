//! Which processes have table words and segment words at each core word.

ghost use Rattle.std.specs.Prelude.{◌≡◌, ◌+◌, ◌<◌, ◌≤◌, ◌^◌, ◌==◌, not, nat_lt, length};
ghost use Rattle.std.specs.Prelude.{slice_index};
ghost use Rattle.m36_model.specs.JointAudit.{most_processes};
ghost use Rattle.m36_audit.specs.Runs.{runs_of_process, run, coverage, AreCounted};
ghost use Rattle.m36_audit.specs.WordOwners.{with_owner_at, AreOwned};

use crate::recorded::RecordedNumbers;
use crate::run::RunCounts;
use crate::tables::TableMarks;
use crate::words::open_runs_at;
use m36_core::Core;
use m36_desc::Dbr;

/// Records a process for a core word, if it has something there.
fn record_owner(recorded: &mut RecordedNumbers, a: u32, has: bool, table_number: u32)
    ensures { recorded.new.values.items
        ≡ with_owner_at has recorded.old.values.items a table_number }
{
    if has {
        recorded.record_number(a, table_number);
    }
}

/// Records process k for each core word: in `tables` if it has a table word there, and in
/// `segments` if it has a segment word there. Its number is k + 1.
pub(crate) fn record_owners(
    tables: &mut RecordedNumbers,
    segments: &mut RecordedNumbers,
    marks: &TableMarks,
    counts: &RunCounts,
    core: &Core,
    dbr: Dbr,
    k: u32,
)
    requires process { k < most_processes }
    requires marked { length marks.now.tables ≡ length core.now }
    requires counted { AreCounted (run core.now dbr) runs_of_process (length core.now)
        counts.now.starts counts.now.stops }
    requires tables_len { length tables.old.values.items ≡ length core.now }
    requires segments_len { length segments.old.values.items ≡ length core.now }
    ensures tables { AreOwned (λ q. not (slice_index marks.now.tables q == 0)) (k + 1)
        (length core.now) tables.old.values.items tables.new.values.items }
    ensures segments { AreOwned (λ q. nat_lt 0 (coverage core.now dbr q)) (k + 1)
        (length core.now) segments.old.values.items segments.new.values.items }
{
    let mut open_runs = 0;
    for a in 0..core.len() {
        open_runs = open_runs_at(counts, core, dbr, a, open_runs);
        record_owner(tables, a, marks.tables.at(a) != 0, k + 1);
        record_owner(segments, a, open_runs > 0, k + 1);
    }
}
