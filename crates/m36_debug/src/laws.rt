//! Laws of sessions.

ghost use Rattle.m36_debug.specs.Session.{machine_relations};
ghost use Rattle.m36_debug.specs.SessionText.{SessionLaw};
ghost use Rattle.m36_debug.specs.StepLimit.{StepsWithin};

use m36_step::Stepper;

/// In the events of any session over any machine, `go` takes at most 100,000 steps and `step N` at
/// most N before the next line, and a running command takes at most the steps that are left to it.
pub fn law_step_limit<M: Stepper>()
    ensures { StepsWithin (machine_relations M.regs M.content M.next M.went) }
{}

/// Each call that performs the program of a session is a session by its events, whose lines are
/// those of the bytes that were taken.
///
/// If each state of the machine has one turn and one answer to going back, the text of a session
/// follows from the bytes of the input: however a call ends, and whatever the pieces in which the
/// input came, it puts a prefix of what any call puts that ends as the program says.
pub fn law_session<M: Stepper>()
    ensures { SessionLaw (machine_relations M.regs M.content M.next M.went) }
{}
