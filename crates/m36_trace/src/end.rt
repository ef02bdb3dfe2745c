//! The end line of a run.

ghost use Rattle.std.specs.Prelude.{◌≡◌, ◌≤◌, ◌+◌, ◌++◌, length};
ghost use Rattle.m36_trace.specs.EndLine.{ending_text, end_line_of};

use crate::fields::{put_decimal, put_fault, stop_name};
use arrayvec::ArrayString;
use m36_model::Outcome;

// Appends how a run ended, given its last outcome.
fn put_ending(line: &mut ArrayString<160>, last: Outcome)
    requires room { length line.old.bytes + 47 ≤ 160 }
    ensures text { line.new.bytes ≡ line.old.bytes ++ ending_text last }
    ensures len { length line.new.bytes ≤ length line.old.bytes + 47 }
{
    match last {
        Outcome::Next => line.push_str("limit"),
        Outcome::Faulted(fault) => put_fault(line, fault),
        Outcome::Stopped(stop) => line.push_str(stop_name(stop)),
    }
}

/// The end line of a run of `steps` steps, given the last outcome; without a line feed. It has at
/// most 72 bytes.
#[tactic(auto, unfolding(crate::specs::EndLine::end_line_of), using(crate::proofs::Lines::ended_in_turn))]
pub fn end_line(last: Outcome, steps: u64) -> ArrayString<160>
    ensures text { result.bytes ≡ end_line_of last steps }
    ensures len { length result.bytes ≤ 72 }
{
    let mut line = ArrayString::new();
    line.push_str("end ");
    put_ending(&mut line, last);
    line.push_str(" ");
    put_decimal(&mut line, steps);
    line
}
