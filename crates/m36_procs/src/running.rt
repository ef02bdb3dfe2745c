//! Runs a schedule, and writes its lines. They are gathered in a block, which is handed over when
//! it is full and at the end.

ghost use Rattle.std.specs.Prelude.{◌≡◌, ◌<◌, true, [], ◌∷◌, ◌++◌, length};
ghost use Rattle.m36_outside.specs.Gathered.{Adds};
ghost use Rattle.m36_outside.specs.Passing.{TakesLines, joined};
ghost use Rattle.m36_outside.specs.Put.{PutResult, PutHasCause};
ghost use Rattle.m36_procs.specs.ProcsFile.{are_process_numbers};
ghost use Rattle.m36_procs.specs.ScheduleText.{event_line, end_line};
ghost use Rattle.m36_procs.specs.RunResult.{RunResult, RunTakes, RunHasCause};

use crate::fault::WriteFault;
use crate::process_set::ProcessSet;
use arrayvec::ArrayString;
use m36_model::StepRecord;
use m36_outside::{Block, Put, Sink};
use m36_text::decimal;
use m36_trace::line;

/// The line of event n, a step of this process, with its line feed.
#[tactic(auto, unfolding(crate::specs::ScheduleText::event_line))]
pub fn event_line(process: u8, n: u64, told: &StepRecord) -> ArrayString<176>
    ensures { result.bytes ≡ event_line n process told.now }
{
    let mut text = ArrayString::new();
    text.push_str(decimal(process as u64).as_str());
    text.push_str(" ");
    text.push_str(line(n, told).as_str());
    text.push_str("\n");
    text
}

/// The last line of a run of a schedule of this many events, with its line feed.
#[tactic(auto, unfolding(crate::specs::ScheduleText::end_line))]
pub fn end_line(events: u64) -> ArrayString<40>
    ensures { result.bytes ≡ end_line events }
{
    let mut text = ArrayString::new();
    text.push_str("end schedule ");
    text.push_str(decimal(events).as_str());
    text.push_str("\n");
    text
}

// Adds the line of an event to a block, as one piece.
#[tactic(auto, using(crate::proofs::EventPieces::one_line))]
fn add_event<S: Sink>(process: u8, n: u64, told: &StepRecord, block: &mut Block, out: &mut S) -> Put
    ensures adds { Adds result block.old block.new (event_line n process told.now ∷ [])
        (S.written out.old) (S.written out.new) (S.taken out.old) (S.taken out.new) }
    ensures cause { PutHasCause result (S.faults out.old) (S.faults out.new) }
{
    block.add(event_line(process, n, told).as_str().as_bytes(), out)
}

// Adds the last line to a block, as one piece, and hands over the block.
#[tactic(auto, using(crate::proofs::EventPieces::one_line))]
fn put_end<S: Sink>(events: u64, block: &mut Block, out: &mut S) -> Put
    ensures says { PutResult result
        (S.written out.old) (S.written out.new) (joined (block.old ++ end_line events ∷ [])) }
    ensures through { TakesLines result
        (S.taken out.old) (S.taken out.new) (block.old ++ end_line events ∷ []) }
    ensures cause { PutHasCause result (S.faults out.old) (S.faults out.new) }
{
    block.finish(end_line(events).as_str().as_bytes(), out)
}

/// Makes the events of a schedule, and writes a line for each and the last line. If a line could
/// not be written, the events of a prefix of the schedule were made.
#[tactic(auto, using(crate::proofs::EventsRun::running, crate::proofs::EventPieces::running))]
pub(crate) fn run_schedule<S: Sink>(
    processes: &mut ProcessSet,
    schedule: &[u8],
    out: &mut S,
) -> Result<(), WriteFault>
    requires named { are_process_numbers (length processes.old.regs) schedule.now ≡ true }
    ensures says { RunResult result schedule.now
        processes.old processes.new (S.written out.old) (S.written out.new) }
    ensures through { RunTakes result schedule.now processes.old
        (S.taken out.old) (S.taken out.new) }
    ensures cause { RunHasCause result (S.faults out.old) (S.faults out.new) }
    ensures count { length processes.new.regs ≡ length processes.old.regs }
{
    let mut block = Block::new();
    let mut told = processes.empty_record();
    let mut n: u64 = 0;
    let mut rest = schedule;
    'events: while let Some((process, more)) = rest.split_first() {
        processes.step_into(*process as usize, &mut told);
        match add_event(*process, n + 1, &told, &mut block, out) {
            Put::Done => {}
            Put::Failed => return Err(WriteFault),
        }
        n += 1;
        rest = more;
    }
    match put_end(n, &mut block, out) {
        Put::Done => Ok(()),
        Put::Failed => Err(WriteFault),
    }
}
