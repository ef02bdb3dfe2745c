//! Runs the machine, and puts a line for each step and the end line.

ghost use Rattle.std.specs.Prelude.{◌≡◌, ◌<◌, ◌+◌, [], ◌∷◌, ◌++◌, length};
ghost use Rattle.m36_text.specs.Lines.{as_line};
ghost use Rattle.m36_trace.specs.TraceLine.{shown_line};
ghost use Rattle.cmd_image.specs.Machine.{after};
ghost use Rattle.m36_program.specs.Gathered.{Adds, Puts};
ghost use Rattle.m36_program.specs.Performs.{Performs};
ghost use Rattle.m36_program.specs.Program.{puts_all};
ghost use Rattle.cmd_image.specs.ImageProgram.{put_run_end, run_from};
ghost use Rattle.cmd_image.specs.Running.{StepResult};

use crate::machine::status_after;
use arrayvec::ArrayString;
use m36_model::{Outcome, Regs, Shown};
use m36_outside::{Block, Put};
use m36_program::{add_piece, finish, result_of_status};
use m36_status::Status;
use m36_step::Machine;
use m36_trace::{TraceText, end_line, push_shown, shown_line};
use m36_world::World;

/// What follows a step of a run.
#[derive(Clone, Copy)]
pub enum AfterStep {
    /// Another step may follow.
    Next,
    /// The step ended the run.
    Ended(Outcome),
    /// The output failed.
    WriteFailed,
}

// Adds a line to a block as one piece, with a line feed at its end. A full block is handed to the
// output first.
fn add_line<W: World>(block: &mut Block, mut line: ArrayString<160>, world: &mut W) -> Put
    requires { length line.bytes < 160 }
    ensures adds { Adds result block.old block.new (as_line line.bytes ∷ [])
        (W.seen world.old) (W.seen world.new) }
{
    line.push_str("\n");
    add_piece(block, line.as_str().as_bytes(), world)
}

// Adds the line of step n, formatted as a whole. Used if `push_shown` did not add it: the block has
// no room for it, or no parts of an earlier line can be used again.
#[inline(never)]
fn add_whole_line<W: World>(
    n: u64,
    shown: &Shown,
    after: &Regs,
    block: &mut Block,
    world: &mut W,
) -> Put
    ensures adds { Adds result block.old block.new
        (as_line (shown_line n shown.now after.now) ∷ []) (W.seen world.old) (W.seen world.new) }
{
    add_line(block, shown_line(n, shown, after), world)
}

// Adds the line of step n with its line feed to a block, as one piece. `text` keeps an earlier
// line, and only the parts that differ are formatted again. `after` has the registers after the
// step.
#[inline(always)]
#[tactic(auto, using(m36_program::proofs::Gathered::gathering))]
fn add_step_line<W: World>(
    text: &mut TraceText,
    n: u64,
    shown: &Shown,
    after: &Regs,
    block: &mut Block,
    world: &mut W,
) -> Put
    ensures adds { Adds result block.old block.new
        (as_line (shown_line n shown.now after.now) ∷ []) (W.seen world.old) (W.seen world.new) }
{
    if push_shown(text, n, shown, after, block) {
        return Put::Done;
    }
    add_whole_line(n, shown, after, block, world)
}

/// Takes step n of a run, counted from 1, and adds its line to the block. `shown` is overwritten
/// with what the line shows of the step.
#[inline]
pub fn take_step<W: World>(
    machine: &mut Machine,
    n: u64,
    shown: &mut Shown,
    text: &mut TraceText,
    block: &mut Block,
    world: &mut W,
) -> AfterStep
    ensures says { StepResult result n machine.old.state block.old block.new
        (W.seen world.old) (W.seen world.new) }
    ensures state { machine.new.state ≡ after machine.old.state }
    ensures ended { machine.new.ended ≡ machine.old.ended }
{
    machine.step_shown(shown);
    let outcome = shown.outcome;
    match add_step_line(text, n, shown, machine.regs(), block, world) {
        Put::Failed => AfterStep::WriteFailed,
        Put::Done => match outcome {
            Outcome::Next => AfterStep::Next,
            Outcome::Faulted(_) | Outcome::Stopped(_) => AfterStep::Ended(outcome),
        },
    }
}

// Adds the last line with its line feed to a block, as one piece, and hands the block over.
fn finish_line<W: World>(block: &mut Block, mut line: ArrayString<160>, world: &mut W) -> Put
    requires { length line.bytes < 160 }
    ensures puts { Puts result (block.old ++ as_line line.bytes ∷ [])
        (W.seen world.old) (W.seen world.new) }
{
    line.push_str("\n");
    finish(block, line.as_str().as_bytes(), world)
}

// Puts the lines of a block, and the end line of a run of `taken` steps. Returns the status of the
// run.
#[tactic(auto, using(crate::proofs::RunLoop::ending))]
fn end_run<W: World>(
    block: &mut Block,
    last: &Outcome,
    taken: u64,
    world: &mut W,
) -> Result<(), Status>
    ensures { Performs (puts_all block.old (put_run_end taken last.now)) result
        (W.seen world.old) (W.seen world.new) }
{
    match finish_line(block, end_line(*last, taken), world) {
        Put::Done => result_of_status(status_after(*last)),
        Put::Failed => Err(Status::WriteFault),
    }
}

/// Runs a machine for at most `steps` steps, and puts a trace line for each and the end line. The
/// lines are gathered in a block, which is handed over when it is full and at the end of the run.
#[tactic(auto, using(crate::proofs::RunLoop::running))]
pub fn run<W: World>(machine: &mut Machine, steps: u32, world: &mut W) -> Result<(), Status>
    ensures { Performs (run_from 0 steps machine.old.state) result
        (W.seen world.old) (W.seen world.new) }
{
    let mut block = Block::new();
    let mut shown = machine.empty_shown();
    let mut text = TraceText::new();
    let mut taken: u32 = 0;
    let mut left = steps;
    'steps: while left > 0 {
        match take_step(
            machine,
            taken as u64 + 1,
            &mut shown,
            &mut text,
            &mut block,
            world,
        ) {
            AfterStep::Next => {}
            AfterStep::Ended(outcome) => {
                let ended = end_run(&mut block, &outcome, taken as u64 + 1, world);
                // Dropped by a call, so that the drop is proved once for its type.
                drop(block);
                return ended;
            }
            AfterStep::WriteFailed => {
                drop(block);
                return Err(Status::WriteFault);
            }
        }
        taken += 1;
        left -= 1;
    }
    let ended = end_run(&mut block, &Outcome::Next, taken as u64, world);
    drop(block);
    ended
}
