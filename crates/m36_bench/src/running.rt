//! Takes steps of the machine, with and without their trace lines.

use crate::lines::TraceLines;
use m36_model::{Outcome, StepRecord};
use m36_step::Machine;

/// The number of steps after which the run went on, and of the bytes of the trace lines. A step
/// that ends the run is not counted.
#[derive(Clone, Copy)]
pub struct StepCount {
    pub steps: u64,
    pub bytes: u64,
}

/// Takes a step, and returns whether another may follow.
fn step_and_continue(machine: &mut Machine, told: &mut StepRecord) -> bool {
    machine.step_into(told);
    another_follows(told.outcome)
}

/// Whether another step may follow one with this outcome.
fn another_follows(outcome: Outcome) -> bool {
    match outcome {
        Outcome::Next => true,
        _ => false,
    }
}

/// Takes `steps` steps, or fewer if one ends the run, with a record of each and no lines.
pub fn take_recorded_steps(machine: &mut Machine, steps: u64) -> StepCount {
    let mut told = machine.empty_record();
    for n in 0..steps {
        if !step_and_continue(machine, &mut told) {
            return StepCount { steps: n, bytes: 0 };
        }
    }
    StepCount { steps, bytes: 0 }
}

/// Takes `steps` steps, or fewer if one ends the run, and records none of the quick ones.
pub fn take_quiet_steps(machine: &mut Machine, steps: u64) -> StepCount {
    let mut told = machine.empty_record();
    let mut left = steps;
    while left > 0 {
        let most = left.min(1 << 20) as u32;
        left -= machine.hurry(most) as u64;
        if left > 0 {
            if !step_and_continue(machine, &mut told) {
                return StepCount {
                    steps: steps - left,
                    bytes: 0,
                };
            }
            left -= 1;
        }
    }
    StepCount { steps, bytes: 0 }
}

/// Takes `steps` steps, or fewer if one ends the run, and makes the line of each.
pub fn take_steps_with_lines(machine: &mut Machine, steps: u64) -> StepCount {
    let mut shown = machine.empty_shown();
    let mut lines = TraceLines::new();
    for n in 0..steps {
        machine.step_shown(&mut shown);
        lines.add(n.wrapping_add(1), &shown, machine.regs());
        let more = another_follows(shown.outcome);
        if !more {
            return StepCount {
                steps: n,
                bytes: lines.bytes(),
            };
        }
    }
    StepCount {
        steps,
        bytes: lines.bytes(),
    }
}
