//! The end line of a run that may have had services.

ghost use Rattle.std.specs.Prelude.{◌≡◌, ◌≤◌, ◌++◌, length};
ghost use Rattle.m36_trace.specs.EndLine.{end_line_with};
ghost use Rattle.m36_turns.specs.TurnLines.{run_end_line_of};

use crate::link::link_code_name;
use arrayvec::ArrayString;
use m36_model::{End, Outcome};
use m36_text::decimal;
use m36_trace::end_line;

// The end line of a run that ended because a service was refused.
#[tactic(auto, using(crate::proofs::Lines::ended_in_turn))]
fn service_end_line(service: &str, code: &str, steps: u64) -> ArrayString<160>
    requires service { length service.now ≤ 20 }
    requires code { length code.now ≤ 20 }
    ensures text { result.bytes ≡ end_line_with (service.now ++ code.now) steps }
    ensures len { length result.bytes ≤ 72 }
{
    let mut line = ArrayString::new();
    line.push_str("end ");
    line.push_str(service);
    line.push_str(code);
    line.push_str(" ");
    line.push_str(decimal(steps).as_str());
    line
}

/// The end line of a run that ended in this way after `steps` steps, without a line feed. It has
/// at most 72 bytes.
#[tactic(auto, unfolding(crate::specs::TurnLines::run_end_line_of, m36_trace::specs::EndLine::end_line_of))]
pub fn run_end_line(how: End, steps: u64) -> ArrayString<160>
    ensures text { result.bytes ≡ run_end_line_of how steps }
    ensures len { length result.bytes ≤ 72 }
{
    match how {
        End::Fault(fault) => end_line(Outcome::Faulted(fault), steps),
        End::Stop(stop) => end_line(Outcome::Stopped(stop), steps),
        End::Link(code) => service_end_line("link ", link_code_name(code), steps),
        End::Console => service_end_line("console", "", steps),
    }
}
