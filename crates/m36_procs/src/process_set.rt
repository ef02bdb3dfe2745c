//! The processes on one core.

ghost use Rattle.std.specs.Prelude.{ℕ, ◌≡◌, ◌<◌, length, slice_get, slice_set, Some};
ghost use Rattle.m36_procs.specs.EventResult.{EventResult};

use m36_core::Core;
use m36_model::{Regs, StepRecord};
use m36_step::Machine;
use m36_word::NoMemory;
use std::alloc::Global;
use std::marker::Model;

/// Several processes on one core. The model is the registers of each process and the words of core.
/// The machine has the registers of one process, until it is another's turn.
#[derive(Drop)]
pub(crate) struct ProcessSet {
    machine: Machine,
    /// The registers of each process, except for the one whose registers the machine has: its entry
    /// has no meaning.
    regs: Vec<Regs>,
    /// The process whose registers the machine has.
    inside: usize,
}

impl Model for ProcessSet {
    ghost use Rattle.std.specs.Prelude.{ℕ, List, ◌<◌, length, slice_set};
    ghost use Rattle.m36_model.specs.Schedule.{Processes};

    ghost Value = { Processes (List ℕ) };

    ghost view = { λ p. record { regs = slice_set p.regs.items p.inside p.machine.state.regs; store = p.machine.state.store } };

    ghost invariant = { λ p. p.inside < length p.regs.items };
}

/// Loads the registers of process i into the machine. The registers that the machine had are stored
/// as those of their process, `inside`.
#[tactic(auto, using(crate::proofs::Exchanging::exchanging))]
fn load_registers(machine: &mut Machine, regs: &mut Vec<Regs>, inside: &mut usize, i: usize)
    requires inside { inside.old < length regs.old.items }
    requires there { i < length regs.old.items }
    ensures here { inside.new ≡ i }
    ensures len { length regs.new.items ≡ length regs.old.items }
    ensures store { machine.new.state.store ≡ machine.old.state.store }
    ensures all { slice_set regs.new.items i machine.new.state.regs
        ≡ slice_set regs.old.items inside.old machine.old.state.regs }
{
    if *inside == i {
        return;
    }
    let mut own = regs[i];
    machine.swap(&mut own);
    regs[*inside] = own;
    *inside = i;
}

impl ProcessSet {
    /// The processes with these registers, at least one, on this core.
    #[tactic(auto, using(crate::proofs::Exchanging::exchanging))]
    pub(crate) fn new(core: Core, regs: Vec<Regs>) -> ProcessSet
        requires { 0 < length regs.items }
        ensures { result ≡ record { regs = regs.items; store = core } }
    {
        let first = regs[0];
        ProcessSet {
            machine: Machine::start(core, first),
            regs,
            inside: 0,
        }
    }

    /// The number of processes.
    pub(crate) fn count(&self) -> usize
        ensures { result ≡ length self.now.regs }
    {
        self.regs.len()
    }

    /// The core of all processes.
    pub(crate) fn core(&self) -> &Core
        ensures { result.now ≡ self.now.store }
    {
        self.machine.walk().core()
    }

    /// The registers of process i.
    #[tactic(auto, using(crate::proofs::Exchanging::exchanging))]
    pub(crate) fn regs(&self, i: usize) -> &Regs
        requires { i < length self.now.regs }
        ensures { slice_get self.now.regs i ≡ Some result.now }
    {
        if i == self.inside {
            self.machine.regs()
        } else {
            &self.regs[i]
        }
    }

    /// An empty record for `step_into` to overwrite.
    pub(crate) fn empty_record(&self) -> StepRecord {
        self.machine.empty_record()
    }

    /// Takes one step of process i, and overwrites the record.
    #[tactic(auto, using(crate::proofs::Exchanging::exchanging))]
    pub(crate) fn step_into(&mut self, i: usize, told: &mut StepRecord)
        requires { i < length self.old.regs }
        ensures says { EventResult i self.old self.new told.new }
        ensures count { length self.new.regs ≡ length self.old.regs }
    {
        let ProcessSet {
            machine,
            regs,
            inside,
        } = self;
        load_registers(machine, regs, inside, i);
        machine.step_into(told);
    }
}
