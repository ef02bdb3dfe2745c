//! Runs a booted system and writes nothing of its turns.

ghost use Rattle.std.specs.Prelude.{◌≡◌, []};
ghost use Rattle.m36_super.specs.declared.next_event.NextEvent.TheVariants.{Step, Link, Print};
ghost use Rattle.m36_super.specs.SuperFields.{booted_of};
ghost use Rattle.m36_super.specs.SuperTurn.{IsNoService};
ghost use Rattle.m36_program.specs.Goes.{Goes};
ghost use Rattle.cmd_make.specs.QuietRun.{run_from};
ghost use Rattle.cmd_make.specs.RunSays.{rest_from_step, rest_from_service, TurnResult};
ghost use Rattle.cmd_make.specs.RunSays.{MatchesNextEvent, summary_in_result};

use cmd_folder::finish::Finish;
use m36_model::{At, End, StepRecord};
use m36_status::Status;
use m36_step::{Stepper, Turn};
use m36_super::{NextEvent, Super};
use m36_word::NoMemory;

/// How a run ended, and after how many steps; the last step is counted.
#[derive(Clone, Copy)]
pub struct RunEnd {
    pub how: Finish,
    pub steps: u32,
}

/// What follows a step and its service, or a service alone.
#[derive(Clone, Copy)]
pub enum AfterTurn {
    /// A step follows.
    Next,
    /// The run has ended.
    Ended(End),
    /// A link service ran out of memory.
    NoMemory,
}

// What follows a link service: a step, or the end of the run if the link was refused.
fn after_link(system: &Super) -> AfterTurn
    requires { IsNoService system.now.next_event }
    ensures { MatchesNextEvent result system.now.next_event }
{
    match system.next_event() {
        NextEvent::Step => AfterTurn::Next,
        NextEvent::Over(end) => AfterTurn::Ended(end),
        NextEvent::Link(_) | NextEvent::Print => unreachable!(),
    }
}

// Performs the link service for the link at `at`.
#[tactic(auto, using(crate::proofs::Serving::services))]
fn perform_link_service(system: &mut Super, at: At) -> AfterTurn
    requires { system.old.next_event ≡ Link at }
    ensures { TurnResult result system.old.lib
        (rest_from_service system.old.lib (booted_of system.old))
        system.new }
{
    match system.serve_link(at) {
        Ok(_) => after_link(system),
        Err(NoMemory) => AfterTurn::NoMemory,
    }
}

// Performs a console service. What the console writes is not put.
#[tactic(auto, using(crate::proofs::Serving::services))]
fn perform_console_service(system: &mut Super) -> AfterTurn
    requires { system.old.next_event ≡ Print }
    ensures { TurnResult result system.old.lib
        (rest_from_service system.old.lib (booted_of system.old))
        system.new }
{
    match system.turn() {
        Turn::Console(_) => AfterTurn::Next,
        Turn::Ended(end) => AfterTurn::Ended(end),
        _ => unreachable!(),
    }
}

// Performs the service that is next, if there is one.
#[tactic(auto, using(crate::proofs::Serving::services))]
fn serve(system: &mut Super) -> AfterTurn
    ensures { TurnResult result system.old.lib
        (rest_from_service system.old.lib (booted_of system.old))
        system.new }
{
    match system.next_event() {
        NextEvent::Step => AfterTurn::Next,
        NextEvent::Link(at) => perform_link_service(system, at),
        NextEvent::Print => perform_console_service(system),
        NextEvent::Over(end) => AfterTurn::Ended(end),
    }
}

// Takes a step and performs its service. `told` may have the record of an earlier step; it is
// overwritten.
fn take_step(system: &mut Super, told: &mut StepRecord) -> AfterTurn
    requires { system.old.next_event ≡ Step }
    ensures { TurnResult result system.old.lib
        (rest_from_step system.old.lib (booted_of system.old))
        system.new }
{
    system.step_told(told);
    serve(system)
}

/// Runs a system for at most `steps` steps. Fails only with NoMemory, in a link service.
pub fn run_quietly(system: &mut Super, steps: u32) -> Result<RunEnd, Status>
    requires { system.old.next_event ≡ Step }
    ensures { Goes (run_from system.old.lib 0 steps (booted_of system.old)) []
        (summary_in_result result system.new) }
{
    let mut told = system.empty_record();
    let mut taken: u32 = 0;
    let mut left = steps;
    'steps: while left > 0 {
        let hurried = system.hurry(left - 1);
        taken += hurried;
        left -= hurried;
        match take_step(system, &mut told) {
            AfterTurn::Next => {}
            AfterTurn::Ended(end) => {
                return Ok(RunEnd {
                    how: Finish::Over(end),
                    steps: taken + 1,
                });
            }
            AfterTurn::NoMemory => return Err(Status::NoMemory),
        }
        taken += 1;
        left -= 1;
    }
    Ok(RunEnd {
        how: Finish::Limit,
        steps: taken,
    })
}
