//! What has been read of a text of processes, and what its next line adds.

ghost use Rattle.std.specs.Prelude.{◌≡◌, ◌<◌, ◌≤◌, [], ◌∷◌, ◌++◌, OnOk};
ghost use Rattle.std.specs.List.{repeat};
ghost use Rattle.m36_text.specs.Lines.{words_of};
ghost use Rattle.m36_procs.specs.ProcsFile.{are_process_numbers, most_events, events_with, line_in};
ghost use Rattle.m36_procs.specs.ProcsFile.{may_have_process_line, may_have_at_line, may_end};
ghost use Rattle.m36_procs.specs.ProcsFile.Line.{ProcessLine, TurnsLine};
ghost use Rattle.m36_procs.specs.ReaderSays.{IsReaderInvariant, TakeResult, at_or_other_line};

use crate::fault::{LineFault, ProcsCode};
use crate::line_forms::{Turns, process_line, turns_line};
use m36_core::Core;
use m36_image::put_line_into_core;
use m36_model::Regs;
use m36_word::NoMemory;

/// The maximum number of processes.
const MOST_PROCESSES: usize = 8;

/// The maximum number of events of a schedule.
const MOST_EVENTS: u64 = 10_000_000;

/// Which lines may follow.
#[derive(Clone, Copy, PartialEq, Eq)]
pub(crate) enum Stage {
    /// `process` lines; and `at` and `turns` lines, if there is a process.
    Naming,
    /// `at` and `turns` lines.
    Placing,
    /// `turns` lines.
    Turning,
}

/// What the lines so far have described.
#[derive(Drop)]
pub(crate) struct Reader {
    pub(crate) core: Core,
    /// The registers of each process.
    pub(crate) regs: Vec<Regs>,
    /// The process of each event.
    pub(crate) schedule: Vec<u8>,
    /// The least address that an `at` line may have.
    pub(crate) next: u32,
    pub(crate) stage: Stage,
}

// Whether a `process` line may follow.
fn may_have_process_line(stage: Stage) -> bool
    ensures { result ≡ may_have_process_line stage }
{
    match stage {
        Stage::Naming => true,
        Stage::Placing | Stage::Turning => false,
    }
}

// Whether an `at` line may follow.
fn may_have_at_line(stage: Stage) -> bool
    ensures { result ≡ may_have_at_line stage }
{
    match stage {
        Stage::Naming | Stage::Placing => true,
        Stage::Turning => false,
    }
}

/// Whether the text may end.
pub(crate) fn may_end(stage: Stage) -> bool
    ensures { result ≡ may_end stage }
{
    match stage {
        Stage::Naming | Stage::Placing => false,
        Stage::Turning => true,
    }
}

// Whether each number is that of one of `count` processes.
fn are_process_numbers(count: usize, numbers: &[u8]) -> bool
    ensures { result ≡ are_process_numbers count numbers.now }
{
    numbers.iter().all(|number| (*number as usize) < count)
}

// Whether each turn is that of one of `count` processes.
fn are_turns_of_processes(count: usize, turns: &Turns) -> bool
    ensures { result ≡ are_process_numbers count turns.now.order }
{
    are_process_numbers(count, turns.order.as_slice())
}

// The number of events with these turns after `events` events.
#[tactic(auto, using(crate::proofs::Taking::few_events))]
fn events_with(events: usize, turns: &Turns) -> u64
    requires { events ≤ most_events }
    ensures { result ≡ events_with events turns.now }
{
    events as u64 + turns.times as u64 * turns.order.len() as u64
}

// Adds the registers of a process to those of the processes before it.
fn push_process(all: &mut Vec<Regs>, regs: Regs) -> Result<(), NoMemory>
    ensures { OnOk result (all.new.items ≡ all.old.items ++ regs ∷ []) }
{
    all.push(regs)?;
    Ok(())
}

// Adds numbers to a schedule, `times` times in a row.
#[tactic(auto, using(crate::proofs::Repeating::repeating))]
fn push_numbers(schedule: &mut Vec<u8>, order: &[u8], times: u32) -> Result<(), NoMemory>
    ensures { OnOk result (schedule.new.items ≡ schedule.old.items ++ repeat times order.now) }
{
    let mut left = times;
    'times: while left > 0 {
        schedule.extend_from_slice(order)?;
        left -= 1;
    }
    Ok(())
}

// Adds turns to a schedule.
fn push_turns(schedule: &mut Vec<u8>, turns: &Turns) -> Result<(), NoMemory>
    ensures { OnOk result
        (schedule.new.items ≡ schedule.old.items ++ repeat turns.now.times turns.now.order) }
{
    push_numbers(schedule, turns.order.as_slice(), turns.times)
}

// Takes a `process` line: adds the process. Refuses it with P1 if it is out of order or the ninth.
#[tactic(auto, unfolding(crate::specs::ProcsFile::state_after_line), using(crate::proofs::Taking::taking))]
fn take_process(reader: &mut Reader, regs: Regs) -> Result<(), LineFault>
    ensures { TakeResult result reader.old reader.new (ProcessLine regs) }
{
    if !may_have_process_line(reader.stage) || reader.regs.len() >= MOST_PROCESSES {
        return Err(LineFault::Refused(ProcsCode::P1));
    }
    push_process(&mut reader.regs, regs)?;
    Ok(())
}

// Takes a `turns` line: adds its turns to the schedule. Refuses it with P1 if there is no process
// or there are too many events, and with P2 if no process has one of its numbers.
#[tactic(auto, unfolding(crate::specs::ProcsFile::state_after_line), using(crate::proofs::Taking::taking))]
fn take_turns(reader: &mut Reader, turns: &Turns) -> Result<(), LineFault>
    requires { IsReaderInvariant reader.old }
    ensures { TakeResult result reader.old reader.new (TurnsLine turns.now) }
{
    if reader.regs.is_empty() || events_with(reader.schedule.len(), turns) > MOST_EVENTS {
        return Err(LineFault::Refused(ProcsCode::P1));
    }
    if are_turns_of_processes(reader.regs.len(), turns) {
        push_turns(&mut reader.schedule, turns)?;
        reader.stage = Stage::Turning;
        Ok(())
    } else {
        Err(LineFault::Refused(ProcsCode::P2))
    }
}

// Takes a line that is neither a `process` nor a `turns` line: writes the words of an `at` line
// into core, and refuses any other line with P1.
#[tactic(auto, unfolding(crate::specs::ProcsFile::state_after_line), using(crate::proofs::Taking::taking))]
fn take_other_line(reader: &mut Reader, line: &[u8]) -> Result<(), LineFault>
    ensures { TakeResult result reader.old reader.new (at_or_other_line (words_of line.now)) }
{
    if !may_have_at_line(reader.stage) || reader.regs.is_empty() {
        return Err(LineFault::Refused(ProcsCode::P1));
    }
    match put_line_into_core(&mut reader.core, reader.next, line) {
        Ok(end) => {
            reader.next = end;
            reader.stage = Stage::Placing;
            Ok(())
        }
        Err(_) => Err(LineFault::Refused(ProcsCode::P1)),
    }
}

impl Reader {
    /// Takes a line, or fails with the least code that it has.
    pub(crate) fn take(&mut self, line: &[u8]) -> Result<(), LineFault>
        requires { IsReaderInvariant self.old }
        ensures { TakeResult result self.old self.new (line_in (words_of line.now)) }
    {
        if let Some(regs) = process_line(line) {
            return take_process(self, regs);
        }
        if let Some(turns) = turns_line(line) {
            return take_turns(self, &turns);
        }
        take_other_line(self, line)
    }
}
