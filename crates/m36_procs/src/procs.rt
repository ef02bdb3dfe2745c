//! Processes with their schedule.

ghost use Rattle.std.specs.Prelude.{◌≡◌, ◌<◌, ◌≤◌, ◌^◌, length, slice_get, IfOk, Some};
ghost use Rattle.m36_model.specs.JointAudit.{most_processes};
ghost use Rattle.m36_procs.specs.EventResult.{EventResult};
ghost use Rattle.m36_procs.specs.ProcsFile.{procs_of_text};
ghost use Rattle.m36_procs.specs.ProcsResult.{ProcsResult};
ghost use Rattle.m36_procs.specs.ReaderSays.{IsReaderInvariant, procs_read};
ghost use Rattle.m36_procs.specs.RunResult.{RunResult, RunTakes, RunHasCause};

use crate::fault::{ProcsFault, WriteFault};
use crate::process_set::ProcessSet;
use crate::reader::Reader;
use crate::reading::{read_first_line, read_lines};
use crate::running::run_schedule;
use m36_core::Core;
use m36_model::{Regs, StepRecord};
use m36_outside::Sink;
use m36_word::NoMemory;
use std::alloc::Global;
use std::marker::Model;

/// One to eight processes on one core, and the schedule by which they run: at most 10,000,000
/// process numbers.
#[derive(Drop)]
pub struct Procs {
    processes: ProcessSet,
    schedule: Vec<u8>,
}

impl Model for Procs {
    ghost use Rattle.m36_procs.specs.ProcsFields.{ProcsFields};
    ghost use Rattle.m36_procs.specs.IsProcs.{IsProcs};

    ghost Value = { ProcsFields };

    ghost view = { λ p. record { state = p.processes; schedule = p.schedule.items } };

    ghost invariant = { λ p. IsProcs p.processes p.schedule.items };
}

// The processes and the schedule that were read.
fn make_procs(alloc: Global, reader: Reader) -> Result<Procs, NoMemory>
    requires fits { IsReaderInvariant reader }
    requires some { 0 < length reader.regs.items }
    ensures { IfOk result (λ p. p ≡ procs_read reader) }
{
    let Reader {
        core,
        regs,
        schedule,
        ..
    } = reader;
    let processes = ProcessSet::new(core, regs);
    Ok(Procs {
        processes,
        schedule,
    })
}

impl Procs {
    /// Parses processes with their schedule. The error is the first line that has a code, with the
    /// least code of that line, or `NoMemory`. All memory is allocated here.
    #[tactic(auto, using(crate::proofs::Accepting::accepting))]
    pub fn read(alloc: Global, text: &[u8]) -> Result<Procs, ProcsFault>
        requires { length text.now ≤ 2 ^ 31 }
        ensures { ProcsResult result (procs_of_text text.now) }
    {
        let (mut reader, rest) = read_first_line(alloc, text)?;
        read_lines(&mut reader, rest)?;
        Ok(make_procs(alloc, reader)?)
    }

    /// The number of processes: 1 to 8.
    pub fn count(&self) -> usize
        ensures value { result ≡ length self.now.state.regs }
        ensures some { 1 ≤ result }
        ensures most { result ≤ most_processes }
    {
        self.processes.count()
    }

    /// The core of all processes.
    pub fn core(&self) -> &Core
        ensures { result.now ≡ self.now.state.store }
    {
        self.processes.core()
    }

    /// The registers of process i, counted from 0.
    pub fn regs(&self, i: usize) -> &Regs
        requires { i < length self.now.state.regs }
        ensures { slice_get self.now.state.regs i ≡ Some result.now }
    {
        self.processes.regs(i)
    }

    /// Takes one step of process i, also if it has stopped or faulted, and returns its record. The
    /// registers of the other processes do not change.
    pub fn event(&mut self, i: usize) -> StepRecord
        requires { i < length self.old.state.regs }
        ensures says { EventResult i self.old.state self.new.state result }
        ensures count { length self.new.state.regs ≡ length self.old.state.regs }
        ensures schedule { self.new.schedule ≡ self.old.schedule }
    {
        let processes = &mut self.processes;
        let mut told = processes.empty_record();
        processes.step_into(i, &mut told);
        told
    }

    /// How many events the schedule has.
    pub fn events(&self) -> usize
        ensures { result ≡ length self.now.schedule }
    {
        self.schedule.len()
    }

    /// The process that makes event i of the schedule, counted from 0.
    #[tactic(auto, using(crate::proofs::Naming::named_at))]
    pub fn process_at(&self, i: usize) -> u8
        requires { i < length self.now.schedule }
        ensures value { slice_get self.now.schedule i ≡ Some result }
        ensures there { result < length self.now.state.regs }
    {
        self.schedule[i]
    }

    /// An empty record for `event_into` to overwrite.
    pub fn new_record(&self) -> StepRecord {
        self.processes.empty_record()
    }

    /// As `event`, but overwrites `step` with the record.
    pub fn event_into(&mut self, i: usize, step: &mut StepRecord)
        requires { i < length self.old.state.regs }
        ensures says { EventResult i self.old.state self.new.state step.new }
        ensures count { length self.new.state.regs ≡ length self.old.state.regs }
        ensures schedule { self.new.schedule ≡ self.old.schedule }
    {
        let processes = &mut self.processes;
        processes.step_into(i, step);
    }

    /// Makes the events of the whole schedule, and writes a line for each and the last line, each
    /// as one piece. Fails only if a line could not be written: then a prefix of the text was
    /// written, and the events of a prefix of the schedule were made. How long the two prefixes are
    /// is not said.
    pub fn run<S: Sink>(&mut self, out: &mut S) -> Result<(), WriteFault>
        ensures says { RunResult result self.old.schedule
            self.old.state self.new.state (S.written out.old) (S.written out.new) }
        ensures through { RunTakes result self.old.schedule
            self.old.state (S.taken out.old) (S.taken out.new) }
        ensures cause { RunHasCause result (S.faults out.old) (S.faults out.new) }
        ensures schedule { self.new.schedule ≡ self.old.schedule }
    {
        let Procs {
            processes,
            schedule,
        } = self;
        run_schedule(processes, schedule.as_slice(), out)
    }
}
