//! The trace line of a step.

ghost use Rattle.std.specs.Prelude.{◌≡◌, ◌≤◌, length};
ghost use Rattle.m36_text.specs.Lines.{joined_by_spaces};
ghost use Rattle.m36_trace.specs.TraceLine.{fields_of_values, line_of, shown_line};

use crate::fields::{
    put_decimal, put_final, put_indicators, put_instruction, put_outcome, put_place, put_ring,
    put_word,
};
use arrayvec::ArrayString;
use m36_model::{Final, Outcome, Ppr, Regs, Shown, StepRecord};
use m36_word::Word;

// The trace line of step `n`, given the values that it shows.
#[tactic(auto, using(crate::proofs::Lines::put_in_turn))]
fn line_of_values(
    n: u64,
    ppr: &Ppr,
    word: Option<Word>,
    at: Option<Final>,
    outcome: Outcome,
    after: &Regs,
) -> ArrayString<160>
    ensures text { result.bytes ≡ joined_by_spaces
        (fields_of_values n ppr.now word at outcome after.now) }
    ensures len { length result.bytes ≤ 144 }
{
    let mut line = ArrayString::new();
    put_decimal(&mut line, n);
    line.push_str(" ");
    put_ring(&mut line, ppr.prr);
    line.push_str(" ");
    put_place(&mut line, ppr.psr, ppr.ic);
    line.push_str(" ");
    put_instruction(&mut line, word);
    line.push_str(" ");
    put_final(&mut line, at);
    line.push_str(" ");
    put_word(&mut line, after.a);
    line.push_str(" ");
    put_word(&mut line, after.q);
    line.push_str(" ");
    put_indicators(&mut line, &after.ind);
    line.push_str(" ");
    put_outcome(&mut line, outcome);
    line
}

/// The trace line of step `n`, without a line feed. It has at most 144 bytes, so it always fits.
#[tactic(auto, unfolding(crate::specs::TraceLine::line_of))]
pub fn line(n: u64, r: &StepRecord) -> ArrayString<160>
    ensures text { result.bytes ≡ line_of n r.now }
    ensures len { length result.bytes ≤ 144 }
{
    line_of_values(n, &r.ppr, r.word, r.at, r.outcome, &r.after)
}

/// As `line`, given what a trace line shows of the step, and the registers after it.
#[tactic(auto, unfolding(crate::specs::TraceLine::shown_line))]
pub fn shown_line(n: u64, shown: &Shown, after: &Regs) -> ArrayString<160>
    ensures text { result.bytes ≡ shown_line n shown.now after.now }
    ensures len { length result.bytes ≤ 144 }
{
    line_of_values(n, &shown.ppr, shown.word, shown.at, shown.outcome, after)
}
