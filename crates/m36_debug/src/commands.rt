//! The commands that take turns, and whether they take another one after a turn.

ghost use Rattle.std.specs.Prelude.{◌≡◌, ◌<◌};
ghost use Rattle.m36_debug.specs.Commands.{is_at_break, takes_another, continue_or_wait};
ghost use Rattle.m36_debug.specs.Commands.{after_step, after_link, after_turn};

use m36_model::{LinkCode, Outcome, Ppr};
use m36_step::Turn;
use m36_word::Pair;

/// The maximum number of steps of `go`.
pub const GO_LIMIT: u32 = 100_000;

/// A place where `go` stops.
#[derive(Clone, Copy, PartialEq, Eq, Default)]
pub struct Break {
    pub word: u32,
    pub seg: u16,
}

/// A command that takes turns.
#[derive(Clone, Copy, PartialEq, Eq)]
pub enum TurnCommand {
    /// `step`: writes each turn.
    Step,
    /// `go`: writes where it has stopped.
    Go,
}

/// A command that is running.
#[derive(Clone, Copy, PartialEq, Eq)]
pub struct RunningCommand {
    /// The number of steps that it may still take.
    pub left: u32,
    pub command: TurnCommand,
}

/// What a command does after a turn.
#[derive(Clone, Copy, PartialEq, Eq)]
pub enum AfterTurn {
    /// It takes another turn.
    Runs(RunningCommand),
    /// It is complete, and the session waits for the next line.
    Waits,
    /// The turn ran out of memory.
    Starves,
}

/// Whether the next instruction, at `place`, is at one of the breaks.
#[inline]
pub(crate) fn is_at_break(place: Ppr, breaks: &[Break]) -> bool
    ensures { result ≡ is_at_break place breaks.now }
{
    breaks
        .iter()
        .any(|b| b.seg == place.psr && b.word == place.ic)
}

// Whether a command that may take `left` more steps takes another one. `go` stops at a break, but
// takes at least one step.
fn takes_another(command: TurnCommand, left: u32, at_break: bool) -> bool
    ensures { result ≡ takes_another command left at_break }
{
    match command {
        TurnCommand::Step => left > 0,
        TurnCommand::Go => left > 0 && (left == GO_LIMIT || !at_break),
    }
}

// What a command does after a turn that need not be followed by a service or the end of the run. It
// may take `left` more steps.
fn continue_or_wait(command: TurnCommand, left: u32, at_break: bool) -> AfterTurn
    ensures { result ≡ continue_or_wait command left at_break }
{
    if takes_another(command, left, at_break) {
        AfterTurn::Runs(RunningCommand { left, command })
    } else {
        AfterTurn::Waits
    }
}

// What a command does after a step, with `left` more steps to take. After a fault or a stop, it
// takes one more turn in any case: the service, or the end of the run.
fn after_step(command: TurnCommand, left: u32, at_break: bool, outcome: Outcome) -> AfterTurn
    ensures { result ≡ after_step command left at_break outcome }
{
    match outcome {
        Outcome::Next => continue_or_wait(command, left, at_break),
        Outcome::Faulted(_) | Outcome::Stopped(_) => AfterTurn::Runs(RunningCommand {
            left,
            command,
        }),
    }
}

// What a command does after a link service. After a refused link, it takes one more turn in any
// case: the end of the run.
fn after_link(
    command: TurnCommand,
    left: u32,
    at_break: bool,
    answer: &Result<Pair, LinkCode>,
) -> AfterTurn
    ensures { result ≡ after_link command left at_break answer.now }
{
    match answer {
        Ok(_) => continue_or_wait(command, left, at_break),
        Err(_) => AfterTurn::Runs(RunningCommand { left, command }),
    }
}

/// What a command does after a turn. `at_break` says whether the turn left the machine at a break.
#[inline(always)]
#[tactic(auto, unfolding(crate::specs::Commands::after_turn))]
pub(crate) fn after_turn(run: RunningCommand, at_break: bool, turn: &Turn) -> AfterTurn
    ensures { result ≡ after_turn run at_break turn.now }
{
    let RunningCommand { left, command } = run;
    match turn {
        Turn::Stepped(_) if left == 0 => AfterTurn::Waits,
        Turn::Stepped(told) => after_step(command, left - 1, at_break, told.outcome),
        Turn::Linked(note) => after_link(command, left, at_break, &note.answer),
        Turn::Console(_) => continue_or_wait(command, left, at_break),
        Turn::Ended(_) | Turn::Full => AfterTurn::Waits,
        Turn::NoMemory => AfterTurn::Starves,
    }
}
