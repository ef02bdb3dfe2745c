//! Adds a trace line to a block of lines.

ghost use Rattle.std.specs.Prelude.{[], ◌∷◌, ◌++◌, ◌≡◌, ◌<◌, length};
ghost use Rattle.std.specs.Bool.{OnTrue, OnFalse};
ghost use Rattle.m36_outside.specs.Gathered.{Adds};
ghost use Rattle.m36_outside.specs.Put.{PutHasCause};
ghost use Rattle.m36_text.specs.Lines.{as_line};
ghost use Rattle.m36_trace.specs.TraceLine.{line_of, shown_line};

use crate::text::{ShownLine, StepLine, TraceText};
use crate::trace::{line, shown_line};
use arrayvec::ArrayString;
use m36_model::{Regs, Shown, StepRecord};
use m36_outside::{Block, Put, Sink};

/// Adds the line of step n, with its line feed, to a block as one piece. Only what has changed
/// since the line before is spelled again.
#[inline(always)]
#[tactic(auto, using(crate::proofs::FieldsPut::adding))]
pub fn add_step<S: Sink>(
    text: &mut TraceText,
    n: u64,
    told: &StepRecord,
    block: &mut Block,
    out: &mut S,
) -> Put
    ensures adds { Adds result block.old block.new (as_line (line_of n told.now) ∷ [])
        (S.written out.old) (S.written out.new) (S.taken out.old) (S.taken out.new) }
    ensures cause { PutHasCause result (S.faults out.old) (S.faults out.new) }
{
    if text.set(n, &told.ppr, &told.at, &told.outcome, &told.after) {
        block.add_line(&StepLine { text, told }, out)
    } else {
        add_without_kept(n, told, block, out)
    }
}

/// As `add_step`, given what a trace line shows of the step, and the registers after it.
#[inline(always)]
#[tactic(auto, using(crate::proofs::FieldsPut::adding))]
pub fn add_shown<S: Sink>(
    text: &mut TraceText,
    n: u64,
    shown: &Shown,
    after: &Regs,
    block: &mut Block,
    out: &mut S,
) -> Put
    ensures adds { Adds result block.old block.new (as_line (shown_line n shown.now after.now) ∷ [])
        (S.written out.old) (S.written out.new) (S.taken out.old) (S.taken out.new) }
    ensures cause { PutHasCause result (S.faults out.old) (S.faults out.new) }
{
    if text.set(n, &shown.ppr, &shown.at, &shown.outcome, after) {
        block.add_line(&ShownLine { text, shown, after }, out)
    } else {
        add_shown_without_kept(n, shown, after, block, out)
    }
}

/// As `add_shown`, but without an output: adds the line only if the block has room for it and the
/// kept parts can be used for it. Otherwise the block is unchanged.
#[inline(always)]
#[tactic(auto, using(crate::proofs::FieldsPut::pushing))]
pub fn push_shown(
    text: &mut TraceText,
    n: u64,
    shown: &Shown,
    after: &Regs,
    block: &mut Block,
) -> bool
    ensures done { OnTrue result
        (block.new ≡ block.old ++ as_line (shown_line n shown.now after.now) ∷ []) }
    ensures full { OnFalse result (block.new ≡ block.old) }
{
    if text.set(n, &shown.ppr, &shown.at, &shown.outcome, after) {
        block.push_line(&ShownLine { text, shown, after })
    } else {
        false
    }
}

// Adds a line without the kept parts.
#[inline(never)]
fn add_without_kept<S: Sink>(n: u64, told: &StepRecord, block: &mut Block, out: &mut S) -> Put
    ensures adds { Adds result block.old block.new (as_line (line_of n told.now) ∷ [])
        (S.written out.old) (S.written out.new) (S.taken out.old) (S.taken out.new) }
    ensures cause { PutHasCause result (S.faults out.old) (S.faults out.new) }
{
    add_line_text(line(n, told), block, out)
}

// As `add_without_kept`, given what a trace line shows of the step, and the registers after it.
#[inline(never)]
fn add_shown_without_kept<S: Sink>(
    n: u64,
    shown: &Shown,
    after: &Regs,
    block: &mut Block,
    out: &mut S,
) -> Put
    ensures adds { Adds result block.old block.new (as_line (shown_line n shown.now after.now) ∷ [])
        (S.written out.old) (S.written out.new) (S.taken out.old) (S.taken out.new) }
    ensures cause { PutHasCause result (S.faults out.old) (S.faults out.new) }
{
    add_line_text(shown_line(n, shown, after), block, out)
}

// Adds a line that was made as a whole, with its line feed.
fn add_line_text<S: Sink>(mut line: ArrayString<160>, block: &mut Block, out: &mut S) -> Put
    requires { length line.bytes < 160 }
    ensures adds { Adds result block.old block.new (as_line line.bytes ∷ [])
        (S.written out.old) (S.written out.new) (S.taken out.old) (S.taken out.new) }
    ensures cause { PutHasCause result (S.faults out.old) (S.faults out.new) }
{
    line.push_str("\n");
    block.add(line.as_str().as_bytes(), out)
}
