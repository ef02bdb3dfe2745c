//! Runs a booted system. The lines of a trace are gathered in a block, which is handed over when it
//! is full, at the end, and when a link service runs out of memory. What the console writes is put
//! before the code makes the next turn.

ghost use Rattle.std.specs.Prelude.{ℕ, ◌≡◌, ◌<◌, ◌≤◌, ◌+◌, ◌^◌, ◌++◌, List, [], ◌∷◌};
ghost use Rattle.m36_super.specs.declared.next_event.NextEvent.TheVariants.{Step, Link, Print};
ghost use Rattle.m36_super.specs.SuperFields.{booted_of};
ghost use Rattle.m36_super.specs.SuperTurn.{IsNoService};
ghost use Rattle.m36_program.specs.Performs.{Performs};
ghost use Rattle.m36_program.specs.Program.{puts_all};
ghost use Rattle.cmd_folder.specs.RunProgram.{RunContext, put_run_end, run_from};
ghost use Rattle.cmd_folder.specs.RunSays.{IsConsoleTextPut, IsRestOf, run_of, rest_from_step};
ghost use Rattle.cmd_folder.specs.RunSays.{rest_from_service, TurnResult, MatchesNextEvent};

use crate::command::RunOutput;
use crate::ending::finish_status;
use crate::finish::Finish;
use crate::lines::{add_console_text, add_link_line, add_step, put_end_lines};
use m36_acl::DeniedLines;
use m36_model::{At, End, StepRecord};
use m36_outside::{Block, Put};
use m36_program::{flush_block, result_of_status};
use m36_status::Status;
use m36_step::{Stepper, Turn};
use m36_super::{NextEvent, Super};
use m36_trace::TraceText;
use m36_word::NoMemory;
use m36_world::World;

/// What follows a step and its service, or a service alone.
#[derive(Clone, Copy)]
pub enum AfterTurn {
    /// A step follows.
    Next,
    /// The run has ended.
    Ended(End),
    /// The output failed.
    WriteFailed,
    /// A link service ran out of memory. The lines before it have been put.
    NoMemory,
}

// What follows a link service: a step, or the end of the run if the link was refused.
fn after_link(system: &Super) -> AfterTurn
    requires { IsNoService system.now.next_event }
    ensures { MatchesNextEvent result system.now.next_event }
{
    match system.next_event() {
        NextEvent::Step => AfterTurn::Next,
        NextEvent::Over(end) => AfterTurn::Ended(end),
        NextEvent::Link(_) | NextEvent::Print => unreachable!(),
    }
}

// Performs the link service for the link at `at`, and adds its line to a trace.
#[tactic(auto, using(crate::proofs::Serving::services))]
fn perform_link_service<W: World>(
    system: &mut Super,
    at: At,
    taken: u32,
    output: RunOutput,
    block: &mut Block,
    world: &mut W,
) -> AfterTurn
    requires next_event { system.old.next_event ≡ Link at }
    requires shown { IsConsoleTextPut output block.old }
    ensures { TurnResult result system.old.lib output
        (rest_from_service block.old taken (booted_of system.old)) taken system.new block.new
        (W.seen world.old) (W.seen world.new) }
{
    match system.serve_link(at) {
        Ok(note) => match add_link_line(output, taken, &note, block, world) {
            Put::Failed => AfterTurn::WriteFailed,
            Put::Done => after_link(system),
        },
        Err(NoMemory) => match flush_block(block, world) {
            Put::Failed => AfterTurn::WriteFailed,
            Put::Done => AfterTurn::NoMemory,
        },
    }
}

// Performs a console service, and puts its characters or adds its line to a trace.
#[tactic(auto, using(crate::proofs::Serving::services))]
fn perform_console_service<W: World>(
    system: &mut Super,
    taken: u32,
    output: RunOutput,
    block: &mut Block,
    world: &mut W,
) -> AfterTurn
    requires next_event { system.old.next_event ≡ Print }
    requires shown { IsConsoleTextPut output block.old }
    ensures { TurnResult result system.old.lib output
        (rest_from_service block.old taken (booted_of system.old)) taken system.new block.new
        (W.seen world.old) (W.seen world.new) }
{
    match system.turn() {
        Turn::Console(note) => match add_console_text(output, taken, &note, block, world) {
            Put::Failed => AfterTurn::WriteFailed,
            Put::Done => AfterTurn::Next,
        },
        Turn::Ended(end) => AfterTurn::Ended(end),
        _ => unreachable!(),
    }
}

// Performs the service that is next, if there is one.
#[tactic(auto, using(crate::proofs::Serving::services))]
fn serve<W: World>(
    system: &mut Super,
    taken: u32,
    output: RunOutput,
    block: &mut Block,
    world: &mut W,
) -> AfterTurn
    requires { IsConsoleTextPut output block.old }
    ensures { TurnResult result system.old.lib output
        (rest_from_service block.old taken (booted_of system.old)) taken system.new block.new
        (W.seen world.old) (W.seen world.new) }
{
    match system.next_event() {
        NextEvent::Step => AfterTurn::Next,
        NextEvent::Link(at) => perform_link_service(system, at, taken, output, block, world),
        NextEvent::Print => perform_console_service(system, taken, output, block, world),
        NextEvent::Over(end) => AfterTurn::Ended(end),
    }
}

// Takes a step and performs its service. `taken` is the count of steps before it. `told` and `text`
// may have the record and the line of an earlier step. The record is overwritten, and of the line
// only the parts that differ are formatted again.
#[tactic(auto, using(crate::proofs::Serving::stepping))]
fn take_step<W: World>(
    system: &mut Super,
    taken: u32,
    output: RunOutput,
    told: &mut StepRecord,
    text: &mut TraceText,
    block: &mut Block,
    world: &mut W,
) -> AfterTurn
    requires step { system.old.next_event ≡ Step }
    requires few { taken + 1 < 2 ^ 32 }
    requires shown { IsConsoleTextPut output block.old }
    ensures { TurnResult result system.old.lib output
        (rest_from_step block.old taken (booted_of system.old)) (taken + 1) system.new block.new
        (W.seen world.old) (W.seen world.new) }
{
    system.step_told(told);
    match add_step(output, taken, told, text, block, world) {
        Put::Failed => AfterTurn::WriteFailed,
        Put::Done => serve(system, taken + 1, output, block, world),
    }
}

// Takes at most `most` steps at once, as long as the next one is quick, if nothing is written of
// steps. Returns the number of steps taken.
fn hurry(system: &mut Super, output: RunOutput, most: u32) -> u32
    requires { system.old.next_event ≡ Step }
    ensures few { result ≤ most }
    ensures next { system.new.next_event ≡ Step }
    ensures same { system.new.lib ≡ system.old.lib }
    ensures goes { (denied : List (List ℕ)) (taken left : ℕ)
        → IsRestOf (run_from (run_of system.old.lib output denied) (taken + result) left
        (booted_of system.new))
        (run_from (run_of system.old.lib output denied) taken (result + left)
        (booted_of system.old)) }
{
    match output {
        RunOutput::Console => system.hurry(most),
        RunOutput::Trace => 0,
    }
}

// Puts the content of the block, and the end of a run of `taken` steps.
#[tactic(auto, using(crate::proofs::RunLoop::ending))]
fn end_run<W: World>(
    how: Finish,
    taken: u32,
    denied: &DeniedLines,
    block: &mut Block,
    world: &mut W,
) -> Result<(), Status>
    ensures { (run : RunContext) → run.denied ≡ denied.now
        → Performs (puts_all block.old (put_run_end run taken how)) result
        (W.seen world.old) (W.seen world.new) }
{
    match put_end_lines(&how, taken, denied, block, world) {
        Put::Done => result_of_status(finish_status(how)),
        Put::Failed => Err(Status::WriteFault),
    }
}

/// Runs a system for at most `steps` steps. Puts what is written of each turn, and the end line;
/// and then the line of a denied segment, if the run ended because the user lacks a right to it.
#[tactic(auto, using(crate::proofs::RunLoop::running))]
pub fn run<W: World>(
    system: &mut Super,
    steps: u32,
    output: RunOutput,
    denied: &DeniedLines,
    world: &mut W,
) -> Result<(), Status>
    requires { system.old.next_event ≡ Step }
    ensures { Performs (run_from (run_of system.old.lib output denied.now) 0 steps
        (booted_of system.old)) result (W.seen world.old) (W.seen world.new) }
{
    let mut block = Block::new();
    let mut told = system.empty_record();
    let mut text = TraceText::new();
    let mut taken: u32 = 0;
    let mut left = steps;
    'steps: while left > 0 {
        let hurried = hurry(system, output, left - 1);
        taken += hurried;
        left -= hurried;
        match take_step(
            system, taken, output, &mut told, &mut text, &mut block, world,
        ) {
            AfterTurn::Next => {}
            AfterTurn::Ended(end) => {
                let ended = end_run(Finish::Over(end), taken + 1, denied, &mut block, world);
                // Dropped by a call, so that the drop is proved once for its type.
                drop(block);
                return ended;
            }
            AfterTurn::WriteFailed => {
                drop(block);
                return Err(Status::WriteFault);
            }
            AfterTurn::NoMemory => {
                drop(block);
                return Err(Status::NoMemory);
            }
        }
        taken += 1;
        left -= 1;
    }
    let ended = end_run(Finish::Limit, taken, denied, &mut block, world);
    drop(block);
    ended
}
