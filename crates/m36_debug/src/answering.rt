//! Answers the lines of a session.

ghost use Rattle.std.specs.Prelude.{◌≡◌, ◌≤◌, ◌<◌, ◌+◌, ◌-◌, ◌^◌, [], ◌∷◌};
ghost use Rattle.m36_debug.specs.Parts.{LineContract, CommandContract, BackContract, result_of_put};
ghost use Rattle.m36_step.specs.Counting.{step_count_limit};
ghost use Rattle.m36_debug.specs.Putting.{pending, PutsPieces};
ghost use Rattle.m36_debug.specs.Session.{Waiting, Backing, standing, machine_relations};
ghost use Rattle.m36_debug.specs.Session.{break_answer};
ghost use Rattle.m36_debug.specs.SessionLines.{most_steps};
ghost use Rattle.m36_debug.specs.SessionState.{session_state_with_break, has_taken};

use crate::commands::{GO_LIMIT, RunningCommand, TurnCommand};
use crate::machine_relations::{LineResult, run_command};
use crate::registers::put_regs;
use crate::session_line::{SessionLine, session_line};
use crate::sitting::SessionState;
use crate::texts::{put_break, put_end, put_seg, put_unknown, put_where};
use m36_outside::{Block, Put};
use m36_step::{BackAnswer, Stepper};
use m36_world::World;

// How a line ends whose answer is written at once, by the result of writing it.
fn result_of_put(put: Put) -> LineResult
    ensures { result ≡ result_of_put put }
{
    match put {
        Put::Done => LineResult::Line,
        Put::Failed => LineResult::Cut,
    }
}

// Takes the turns of a command. If the run has ended, it writes the end line again instead.
fn run_command_unless_ended<M: Stepper, W: World>(
    m: &mut M,
    run: RunningCommand,
    sitting: &mut SessionState,
    block: &mut Block,
    world: &mut W,
) -> LineResult
    requires some { 0 < run.left }
    requires room { sitting.old.taken + run.left < step_count_limit }
    ensures says { CommandContract (machine_relations M.regs M.content M.next M.went) result
        sitting.old.ended run
        sitting.old m.old sitting.new m.new
        (pending block.old (W.seen world.old))
        (pending block.new (W.seen world.new)) }
    ensures taken { sitting.new.taken ≤ sitting.old.taken + run.left }
{
    match sitting.ended() {
        Some(end) => result_of_put(put_end(block, world, end, sitting.taken())),
        None => run_command(m, run, sitting, block, world),
    }
}

// Adds a break and writes it. If there is no room for it, the line is answered as an unknown one.
fn add_break<W: World>(
    line: &[u8],
    seg: u16,
    word: u32,
    sitting: &mut SessionState,
    block: &mut Block,
    world: &mut W,
) -> Put
    requires seg { seg < 2 ^ 15 }
    requires word { word < 2 ^ 18 }
    ensures sitting { sitting.new ≡ session_state_with_break sitting.old seg word }
    ensures taken { sitting.new.taken ≡ sitting.old.taken }
    ensures puts { PutsPieces result (break_answer sitting.old line.now seg word)
        (pending block.old (W.seen world.old))
        (pending block.new (W.seen world.new)) }
{
    if sitting.has_room() {
        sitting.add(seg, word);
        put_break(block, world, seg, word)
    } else {
        put_unknown(block, world, line)
    }
}

// Asks the machine to go back n steps. If it cannot, the line is answered as an unknown one.
fn go_back<M: Stepper, W: World>(
    line: &[u8],
    n: u32,
    m: &mut M,
    sitting: &mut SessionState,
    block: &mut Block,
    world: &mut W,
) -> LineResult
    requires { n ≤ sitting.old.taken }
    ensures says { LineContract (machine_relations M.regs M.content M.next M.went) result
        (standing sitting.old (Backing n line.now)) m.old [] sitting.new m.new
        (pending block.old (W.seen world.old))
        (pending block.new (W.seen world.new)) }
    ensures taken { sitting.new.taken ≤ sitting.old.taken }
{
    match m.back(n) {
        BackAnswer::Done => {
            sitting.note_back(n);
            result_of_put(put_where(block, world, m.regs()))
        }
        BackAnswer::Before(_) => result_of_put(put_unknown(block, world, line)),
        BackAnswer::Unable => result_of_put(put_unknown(block, world, line)),
        BackAnswer::NoMemory => LineResult::Starved,
    }
}

// Goes back n steps. If fewer steps were taken, the line is answered as an unknown one.
fn go_back_if_taken<M: Stepper, W: World>(
    line: &[u8],
    n: u32,
    m: &mut M,
    sitting: &mut SessionState,
    block: &mut Block,
    world: &mut W,
) -> LineResult
    ensures says { BackContract (machine_relations M.regs M.content M.next M.went) result
        (has_taken sitting.old n) line.now n
        sitting.old m.old sitting.new m.new
        (pending block.old (W.seen world.old))
        (pending block.new (W.seen world.new)) }
    ensures taken { sitting.new.taken ≤ sitting.old.taken }
{
    if sitting.has_taken(n) {
        go_back(line, n, m, sitting, block, world)
    } else {
        result_of_put(put_unknown(block, world, line))
    }
}

/// Answers a line, given without its line feed: changes the machine and the state of the session as
/// the line requires, and adds the answer to the block. It takes at most 1,000,000 steps.
pub(crate) fn answer<M: Stepper, W: World>(
    line: &[u8],
    m: &mut M,
    sitting: &mut SessionState,
    block: &mut Block,
    world: &mut W,
) -> LineResult
    requires { sitting.old.taken < 2 ^ 62 }
    ensures says { LineContract (machine_relations M.regs M.content M.next M.went) result
        (standing sitting.old Waiting) m.old (line.now ∷ []) sitting.new m.new
        (pending block.old (W.seen world.old))
        (pending block.new (W.seen world.new)) }
    ensures taken { sitting.new.taken ≤ sitting.old.taken + most_steps }
{
    match session_line(line) {
        SessionLine::Step(left) => {
            let command_run = RunningCommand {
                left,
                command: TurnCommand::Step,
            };
            run_command_unless_ended(m, command_run, sitting, block, world)
        }
        SessionLine::Go => {
            let command_run = RunningCommand {
                left: GO_LIMIT,
                command: TurnCommand::Go,
            };
            run_command_unless_ended(m, command_run, sitting, block, world)
        }
        SessionLine::Break(seg, word) => result_of_put(add_break(
            line, seg, word, sitting, block, world,
        )),
        SessionLine::Regs => result_of_put(put_regs(block, world, m.regs())),
        SessionLine::Seg(seg, word) => result_of_put(put_seg(
            block,
            world,
            seg,
            word,
            m.content(seg, word),
        )),
        SessionLine::Where => result_of_put(put_where(block, world, m.regs())),
        SessionLine::Back(n) => go_back_if_taken(line, n, m, sitting, block, world),
        SessionLine::Quit => LineResult::Quit,
        SessionLine::Empty => LineResult::Line,
        SessionLine::Unknown => result_of_put(put_unknown(block, world, line)),
    }
}
