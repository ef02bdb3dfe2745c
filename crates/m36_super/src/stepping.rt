//! Steps with their page services.

ghost use Rattle.std.specs.Prelude.{◌≡◌, ◌≤◌, ◌<◌, ◌/◌, length, true};
ghost use Rattle.m36_isol.specs.References.{references_of_a_step};
ghost use Rattle.m36_link.specs.Fields.{KnownFields};
ghost use Rattle.m36_page.specs.Residence.{has_page, AgreesWithCore, IsPager};
ghost use Rattle.m36_page.specs.Changes.{IsBrought};
ghost use Rattle.m36_super.specs.BootedRun.{IsStepTurn};
ghost use Rattle.m36_super.specs.SuperFields.{run_of, IsManaged, IsRunning, RunningUntilLdbr};
ghost use Rattle.m36_super.specs.SuperFields.{NoServiceAfterLdbr};
ghost use Rattle.m36_super.specs.Stepping.{AbsentWordResult, AttemptResult, IsStepped};
ghost use Rattle.m36_super.specs.Stepping.{StepContract};

use crate::next_event::{NextEvent, event_after_outcome, loaded_after};
use m36_model::{At, Fault, Outcome, Refs, StepRecord};
use m36_page::{Pager, Pinned};
use m36_step::{Machine, Turn};

// The maximum number of pages that an instruction references.
const MOST_PAGES: u8 = 18;

// The fault of a page that is in no frame.
const PAGE_FAULT: u8 = 17;

// The number of words of a page.
const PAGE: u32 = 1024;

// The address of the word whose page was absent, if this fault is a page fault.
fn absent_word_of_fault(fault: Fault) -> Option<At>
    ensures { AbsentWordResult (Outcome.Faulted fault) result }
{
    if fault.number == PAGE_FAULT {
        Some(fault.at)
    } else {
        None
    }
}

// The address of the word whose page was absent, if a step with this outcome lacked a page.
fn absent_word(outcome: Outcome) -> Option<At>
    ensures { AbsentWordResult outcome result }
{
    match outcome {
        Outcome::Faulted(fault) => absent_word_of_fault(fault),
        Outcome::Next => None,
        Outcome::Stopped(_) => None,
    }
}

// Brings the page of a word into a frame that holds no page of these references.
#[tactic(auto, using(crate::proofs::PagedContents::has_frames))]
fn bring_page_in(machine: &mut Machine, pager: &mut Pager, at: At, refs: &Refs)
    requires managed { IsManaged (length pager.old.holders) machine.old.state.store pager.old }
    requires page { has_page pager.old at.seg (at.word / 1024) ≡ true }
    requires few { length refs.now.items ≤ references_of_a_step }
    ensures regs { machine.new.state.regs ≡ machine.old.state.regs }
    ensures brought { IsBrought pager.old machine.old.state.store pager.new
        machine.new.state.store at.seg (at.word / 1024) refs.now.items }
    ensures reads { AgreesWithCore pager.new machine.new.state.store }
    ensures pager { IsPager pager.new }
{
    match pager.bring(machine.core_mut(), at.seg, (at.word / PAGE) as u16, refs) {
        Ok(()) => {}
        Err(Pinned) => unreachable!(),
    }
}

// Takes a step. If it lacks a page, brings the page in and returns true: the step has to be
// retried.
#[tactic(auto, using(crate::proofs::PageTurns::attempts))]
fn try_step(machine: &mut Machine, pager: &mut Pager, told: &mut StepRecord) -> bool
    requires { IsRunning (length pager.old.holders) machine.old.state.regs machine.old.state.store
        pager.old }
    ensures { AttemptResult result machine.old.state pager.old machine.new.state pager.new
        told.new }
{
    machine.step_into(told);
    match absent_word(told.outcome) {
        Some(at) => {
            bring_page_in(machine, pager, at, &told.refs);
            true
        }
        None => false,
    }
}

// Takes a step with its page services. The record becomes that of the last try, which lacks no
// page.
#[tactic(auto, using(crate::proofs::StepTurns::services))]
fn step_with_pages(machine: &mut Machine, pager: &mut Pager, told: &mut StepRecord)
    requires { IsRunning (length pager.old.holders) machine.old.state.regs machine.old.state.store
        pager.old }
    ensures { IsStepped machine.old.state pager.old machine.new.state pager.new told.new }
{
    let mut left = MOST_PAGES;
    while left > 0 {
        if !try_step(machine, pager, told) {
            return;
        }
        left -= 1;
    }
    machine.step_into(told);
}

// Takes a step: with its page services as long as no LDBR has been executed, and without them after
// that.
fn step_into(machine: &mut Machine, pager: &mut Pager, loaded: bool, told: &mut StepRecord)
    requires { RunningUntilLdbr loaded (length pager.old.holders) machine.old.state.regs
        machine.old.state.store pager.old }
    ensures { StepContract loaded machine.old.state pager.old machine.new.state pager.new told.new }
{
    if loaded {
        machine.step_into(told);
    } else {
        step_with_pages(machine, pager, told);
    }
}

/// Takes the turn, which is a step, and overwrites `told` with its record.
#[tactic(auto, using(crate::proofs::StepTurns::turns))]
pub(crate) fn step_told(
    machine: &mut Machine,
    pager: &mut Pager,
    next_event: &mut NextEvent,
    loaded: &mut bool,
    told: &mut StepRecord,
)
    requires { RunningUntilLdbr loaded.old (length pager.old.holders) machine.old.state.regs
        machine.old.state.store pager.old }
    ensures turn { (known : KnownFields) → IsStepTurn loaded.old (length pager.old.holders)
        (run_of machine.old.state pager.old known next_event.old loaded.old) (Turn.Stepped told.new)
        (run_of machine.new.state pager.new known next_event.new loaded.new) }
    ensures frames { length pager.new.holders ≡ length pager.old.holders }
    ensures manages { RunningUntilLdbr loaded.new (length pager.new.holders) machine.new.state.regs
        machine.new.state.store pager.new }
    ensures due { NoServiceAfterLdbr next_event.new loaded.new }
{
    step_into(machine, pager, *loaded, told);
    let now = loaded_after(*loaded, told);
    *next_event = event_after_outcome(now, told.ppr.prr, told.outcome);
    *loaded = now;
}
