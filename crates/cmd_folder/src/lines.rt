//! Writes the turns of a run, and its end. For a turn it writes a line of a trace, or characters of
//! the console.

ghost use Rattle.std.specs.Prelude.{◌≡◌, ◌<◌, ◌+◌, [], ◌∷◌, ◌++◌, length, Some};
ghost use Rattle.m36_text.specs.Lines.{as_line};
ghost use Rattle.m36_trace.specs.TraceLine.{line_of};
ghost use Rattle.m36_step.specs.declared.turns.Turn.TheVariants as turn;
ghost use Rattle.m36_program.specs.Gathered.{Adds, Puts};
ghost use Rattle.cmd_folder.specs.RunText.{console_pieces, pieces_of_turn, denied_pieces};
ghost use Rattle.cmd_folder.specs.RunText.{end_pieces};
ghost use Rattle.cmd_folder.specs.RunSays.{IsConsoleTextPut};

use crate::command::RunOutput;
use crate::denied_lines::denied_line;
use crate::ending::finish_line;
use crate::finish::Finish;
use arrayvec::{ArrayString, ArrayVec};
use m36_acl::DeniedLines;
use m36_model::{Shown, StepRecord};
use m36_outside::{Block, Put};
use m36_program::{add_piece, flush_block};
use m36_step::{ConsoleNote, LinkNote};
use m36_trace::{TraceText, line, push_shown};
use m36_turns::{console_line, link_line};
use m36_world::World;

// Adds a text and a line feed to a block, as one piece. There must be room for the line feed.
fn add_line<W: World>(block: &mut Block, mut text: ArrayString<160>, world: &mut W) -> Put
    requires { length text.bytes < 160 }
    ensures adds { Adds result block.old block.new (as_line text.bytes ∷ [])
        (W.seen world.old) (W.seen world.new) }
{
    text.push_str("\n");
    add_piece(block, text.as_str().as_bytes(), world)
}

// As `add_line`, for a byte array.
fn add_bytes<W: World, const N: usize>(
    block: &mut Block,
    mut text: ArrayVec<u8, N>,
    world: &mut W,
) -> Put
    requires { length text.items < N }
    ensures adds { Adds result block.old block.new (as_line text.entry.items ∷ [])
        (W.seen world.old) (W.seen world.new) }
{
    text.push(b'\n');
    add_piece(block, text.as_slice(), world)
}

// Adds the line of step n, formatted as a whole: used if `push_shown` could not push it.
#[inline(never)]
fn add_whole_line<W: World>(n: u64, told: &StepRecord, block: &mut Block, world: &mut W) -> Put
    ensures adds { Adds result block.old block.new (as_line (line_of n told.now) ∷ [])
        (W.seen world.old) (W.seen world.new) }
{
    add_line(block, line(n, told), world)
}

// Adds the line of step n. `text` keeps an earlier line, and only the parts that differ are
// formatted again.
#[tactic(auto, using(m36_program::proofs::Gathered::gathering))]
fn add_trace_line<W: World>(
    n: u64,
    told: &StepRecord,
    text: &mut TraceText,
    block: &mut Block,
    world: &mut W,
) -> Put
    ensures adds { Adds result block.old block.new (as_line (line_of n told.now) ∷ [])
        (W.seen world.old) (W.seen world.new) }
{
    let shown = Shown {
        word: told.word,
        at: told.at,
        outcome: told.outcome,
        ppr: told.ppr,
    };
    if push_shown(text, n, &shown, &told.after, block) {
        return Put::Done;
    }
    add_whole_line(n, told, block, world)
}

// Puts the characters of a console service unchanged, and nothing if there are none. They are
// handed over at once, so the block stays empty.
#[tactic(auto, using(crate::proofs::TurnPieces::showing))]
fn show_characters<W: World>(note: &ConsoleNote, block: &mut Block, world: &mut W) -> Put
    requires { block.old ≡ [] }
    ensures adds { Adds result block.old block.new (console_pieces note.now)
        (W.seen world.old) (W.seen world.new) }
    ensures shown { block.new ≡ [] }
{
    let bytes = note.bytes.as_slice();
    if bytes.is_empty() {
        Put::Done
    } else {
        world.put(bytes)
    }
}

/// Adds the line of a step to a trace. `taken` is the count of steps before it.
#[tactic(auto, using(crate::proofs::TurnPieces::adding))]
pub(crate) fn add_step<W: World>(
    output: RunOutput,
    taken: u32,
    told: &StepRecord,
    text: &mut TraceText,
    block: &mut Block,
    world: &mut W,
) -> Put
    requires { IsConsoleTextPut output block.old }
    ensures adds { Adds result block.old block.new
        (pieces_of_turn output taken (turn.Stepped told.now))
        (W.seen world.old) (W.seen world.new) }
    ensures shown { IsConsoleTextPut output block.new }
{
    match output {
        RunOutput::Console => Put::Done,
        RunOutput::Trace => add_trace_line(taken as u64 + 1, told, text, block, world),
    }
}

/// Adds the line of a link service to a trace.
#[tactic(auto, using(crate::proofs::TurnPieces::adding))]
pub(crate) fn add_link_line<W: World>(
    output: RunOutput,
    taken: u32,
    note: &LinkNote,
    block: &mut Block,
    world: &mut W,
) -> Put
    requires { IsConsoleTextPut output block.old }
    ensures adds { Adds result block.old block.new
        (pieces_of_turn output taken (turn.Linked note.now))
        (W.seen world.old) (W.seen world.new) }
    ensures shown { IsConsoleTextPut output block.new }
{
    match output {
        RunOutput::Console => Put::Done,
        RunOutput::Trace => add_bytes(block, link_line(note), world),
    }
}

/// Puts the characters of a console service, or adds its line to a trace.
#[tactic(auto, using(crate::proofs::TurnPieces::adding))]
pub(crate) fn add_console_text<W: World>(
    output: RunOutput,
    taken: u32,
    note: &ConsoleNote,
    block: &mut Block,
    world: &mut W,
) -> Put
    requires { IsConsoleTextPut output block.old }
    ensures adds { Adds result block.old block.new
        (pieces_of_turn output taken (turn.Console note.now))
        (W.seen world.old) (W.seen world.new) }
    ensures shown { IsConsoleTextPut output block.new }
{
    match output {
        RunOutput::Console => show_characters(note, block, world),
        RunOutput::Trace => add_bytes(block, console_line(note), world),
    }
}

// Adds the line of a denied segment if the run ended because the user lacks a right to it.
#[tactic(auto, using(crate::proofs::TurnPieces::adding), unfolding(crate::specs::RunText::denied_pieces))]
fn add_denied_line<W: World>(
    denied: &DeniedLines,
    how: Finish,
    block: &mut Block,
    world: &mut W,
) -> Put
    ensures adds { Adds result block.old block.new (denied_pieces denied.now how)
        (W.seen world.old) (W.seen world.new) }
{
    match denied_line(denied, how) {
        Some(line) => add_piece(block, line, world),
        None => Put::Done,
    }
}

// Adds the end line of a run of `steps` steps, and the line of a denied segment if there is one.
fn add_end_lines<W: World>(
    how: &Finish,
    steps: u32,
    denied: &DeniedLines,
    block: &mut Block,
    world: &mut W,
) -> Put
    ensures adds { Adds result block.old block.new (end_pieces denied.now (Some how.now) steps)
        (W.seen world.old) (W.seen world.new) }
{
    match add_line(block, finish_line(*how, steps), world) {
        Put::Done => add_denied_line(denied, *how, block, world),
        Put::Failed => Put::Failed,
    }
}

/// Puts the content of a block, then the end line of a run of `steps` steps, and then the line of a
/// denied segment if there is one.
#[tactic(auto, using(m36_program::proofs::Gathered::finishing))]
pub(crate) fn put_end_lines<W: World>(
    how: &Finish,
    steps: u32,
    denied: &DeniedLines,
    block: &mut Block,
    world: &mut W,
) -> Put
    ensures puts { Puts result (block.old ++ end_pieces denied.now (Some how.now) steps)
        (W.seen world.old) (W.seen world.new) }
{
    match add_end_lines(how, steps, denied, block, world) {
        Put::Done => flush_block(block, world),
        Put::Failed => Put::Failed,
    }
}
