//! Takes the turns of a command.

ghost use Rattle.std.specs.Prelude.{◌≡◌, ◌≤◌, ◌<◌, ◌+◌, ◌-◌, ◌^◌, [], ◌∷◌};
ghost use Rattle.m36_debug.specs.Parts.{TurnContract, ServiceIsFlagged, TurnChangesCounts};
ghost use Rattle.m36_debug.specs.Parts.{PrecludesStepIfNoneLeft};
ghost use Rattle.m36_debug.specs.Parts.{CountsSteps, LineContract, put_turn_result, turn_result};
ghost use Rattle.m36_step.specs.Answers.{is_service};
ghost use Rattle.m36_step.specs.Counting.{step_count_limit};
ghost use Rattle.m36_debug.specs.Putting.{pending, PutsPieces};
ghost use Rattle.m36_debug.specs.Session.{Running, standing, machine_relations, go_lines};
ghost use Rattle.m36_debug.specs.Session.{command_lines};

use crate::commands::{AfterTurn, RunningCommand, TurnCommand};
use crate::sitting::SessionState;
use crate::texts::{put_end, put_turn, put_where};
use m36_model::Regs;
use m36_outside::{Block, Put};
use m36_step::{Stepper, Turn};
use m36_trace::TraceText;
use m36_world::World;

/// The result of a turn of a command. What the turn says is written, except for `Cut`.
#[derive(Clone, Copy, PartialEq, Eq)]
pub enum Came {
    /// The command takes another turn; the flag says that this turn was a service.
    Runs(RunningCommand, bool),
    /// The command is complete.
    Waits,
    /// The turn ran out of memory.
    Starves,
    /// What the turn says could not be written.
    Cut,
}

/// How a command, a line or several lines ended. What they say is written, except for `Cut`.
#[derive(Clone, Copy, PartialEq, Eq)]
pub enum LineResult {
    /// The session waits for the next line.
    Line,
    /// The session is over.
    Quit,
    /// Out of memory.
    Starved,
    /// What they say could not be written.
    Cut,
}

// Writes where `go` has stopped, or the end line, once it is complete; otherwise nothing.
#[inline]
#[tactic(auto, using(m36_program::proofs::Gathered::gathers_none))]
fn put_go<W: World>(
    block: &mut Block,
    world: &mut W,
    regs: &Regs,
    sitting: &SessionState,
    next: AfterTurn,
) -> Put
    ensures { PutsPieces result (go_lines regs.now sitting.now next)
        (pending block.old (W.seen world.old))
        (pending block.new (W.seen world.new)) }
{
    match next {
        AfterTurn::Runs(_) | AfterTurn::Starves => Put::Done,
        AfterTurn::Waits => match sitting.ended() {
            Some(end) => put_end(block, world, end, sitting.taken()),
            None => put_where(block, world, regs),
        },
    }
}

// Writes the lines of a turn of a command. `taken` is the count of steps before the turn.
#[inline(always)]
fn put_command<W: World>(
    block: &mut Block,
    world: &mut W,
    command: TurnCommand,
    taken: u64,
    regs: &Regs,
    sitting: &SessionState,
    turn: &Turn,
    next: AfterTurn,
    text: &mut TraceText,
) -> Put
    requires { taken < step_count_limit }
    ensures { PutsPieces result (command_lines command regs.now taken sitting.now turn.now next)
        (pending block.old (W.seen world.old))
        (pending block.new (W.seen world.new)) }
{
    match command {
        TurnCommand::Step => put_turn(block, world, taken, turn, text),
        TurnCommand::Go => put_go(block, world, regs, sitting, next),
    }
}

// Whether a turn is a link service or a console service.
fn is_service(turn: &Turn) -> bool
    ensures { result ≡ is_service turn.now }
{
    match turn {
        Turn::Linked(_) | Turn::Console(_) => true,
        Turn::Stepped(_) | Turn::Ended(_) | Turn::Full | Turn::NoMemory => false,
    }
}

// The result of a turn whose lines were written, by what the command does after it.
fn put_turn_result(turn: &Turn, next: AfterTurn) -> Came
    ensures { result ≡ put_turn_result turn.now next }
{
    match next {
        AfterTurn::Runs(run) => Came::Runs(run, is_service(turn)),
        AfterTurn::Waits => Came::Waits,
        AfterTurn::Starves => Came::Starves,
    }
}

// The result of a turn, given whether its lines could be written.
fn turn_result(put: Put, turn: &Turn, next: AfterTurn) -> Came
    ensures { result ≡ turn_result put turn.now next }
{
    match put {
        Put::Done => put_turn_result(turn, next),
        Put::Failed => Came::Cut,
    }
}

/// Takes a turn of a command, and writes its lines. `turn` and `text` may have an earlier turn and
/// an earlier line: the turn is overwritten, and of the line only the parts that differ are
/// formatted again.
pub(crate) fn take_turn<M: Stepper, W: World>(
    m: &mut M,
    run: RunningCommand,
    sitting: &mut SessionState,
    turn: &mut Turn,
    text: &mut TraceText,
    block: &mut Block,
    world: &mut W,
) -> Came
    requires { sitting.old.taken < step_count_limit }
    ensures says { TurnContract (machine_relations M.regs M.content M.next M.went) result
        (standing sitting.old (Running run)) m.old sitting.new m.new
        (pending block.old (W.seen world.old))
        (pending block.new (W.seen world.new)) }
    ensures served { ServiceIsFlagged (machine_relations M.regs M.content M.next M.went) result
        m.old m.new }
    ensures counts { TurnChangesCounts result run.left sitting.old.taken sitting.new.taken }
    ensures interrupted { PrecludesStepIfNoneLeft
        (machine_relations M.regs M.content M.next M.went) result
        m.old m.new }
    ensures stepped { CountsSteps (machine_relations M.regs M.content M.next M.went)
        sitting.old.taken sitting.new.taken m.old m.new }
{
    let taken = sitting.taken();
    m.turn_into(turn);
    sitting.note(turn);
    let regs = m.regs();
    let next = sitting.decide_after_turn(run, regs, turn);
    let put = put_command(
        block,
        world,
        run.command,
        taken,
        regs,
        sitting,
        turn,
        next,
        text,
    );
    turn_result(put, turn, next)
}

/// Takes the turns of a command, and writes their lines. It takes at most `first.left` steps.
pub(crate) fn run_command<M: Stepper, W: World>(
    m: &mut M,
    first: RunningCommand,
    sitting: &mut SessionState,
    block: &mut Block,
    world: &mut W,
) -> LineResult
    requires some { 0 < first.left }
    requires room { sitting.old.taken + first.left < step_count_limit }
    ensures says { LineContract (machine_relations M.regs M.content M.next M.went) result
        (standing sitting.old (Running first)) m.old [] sitting.new m.new
        (pending block.old (W.seen world.old))
        (pending block.new (W.seen world.new)) }
    ensures taken { sitting.new.taken ≤ sitting.old.taken + first.left }
{
    let mut turn = Turn::Full;
    let mut text = TraceText::new();
    let mut run = first;
    let mut served = false;
    'turns: loop {
        match take_turn(m, run, sitting, &mut turn, &mut text, block, world) {
            Came::Runs(next, service) => {
                run = next;
                served = service;
            }
            Came::Waits => return LineResult::Line,
            Came::Starves => return LineResult::Starved,
            Came::Cut => return LineResult::Cut,
        }
    }
}
