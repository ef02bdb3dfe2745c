//! What the next turn of a booted run is, given the step before it.

ghost use Rattle.std.specs.Prelude.{ℕ, ◌≡◌, false, Some};
ghost use Rattle.m36_model.specs.Step.{decode};
ghost use Rattle.m36_super.specs.NextEvent.{is_ldbr, executed_ldbr, loaded_after};
ghost use Rattle.m36_super.specs.NextEvent.{event_after_known_fault, event_after_fault};
ghost use Rattle.m36_super.specs.NextEvent.{event_after_outcome};

use m36_inst::{Effect, Inst, row};
use m36_model::{At, End, Fault, Outcome, StepRecord};
use m36_word::Word;

// The fault of fault tag 2, which a link to be snapped has.
const FAULT_TAG_2: u8 = 24;

// The fault of MME.
const MASTER_MODE_ENTRY: u8 = 2;

/// What the next turn of a booted run is.
#[derive(Clone, Copy, PartialEq, Eq)]
pub enum NextEvent {
    /// A step.
    Step,
    /// The service of the link at this address, for the ring of the address.
    Link(At),
    /// The console service.
    Print,
    /// The end of the run, which is reported again.
    Over(End),
}

// Whether a word is an LDBR instruction.
#[tactic(auto, unfolding(m36_model::specs::Step::decode))]
fn is_ldbr(word: Word) -> bool
    ensures { result ≡ is_ldbr (decode word) }
{
    let inst = Inst::of_word(word);
    match row(inst.code, inst.bit27) {
        Some(row) => loads_dbr(row.effect),
        None => false,
    }
}

// Whether this is the effect of LDBR.
fn loads_dbr(effect: Effect) -> bool
    ensures { (n : ℕ) → result ≡ is_ldbr (Some (effect, n)) }
{
    match effect {
        Effect::Ldbr => true,
        _ => false,
    }
}

// Whether a step has executed an LDBR.
fn executed_ldbr(told: &StepRecord) -> bool
    ensures { result ≡ executed_ldbr told.now.word told.now.outcome }
{
    match (told.word, told.outcome) {
        (Some(word), Outcome::Next) => is_ldbr(word),
        _ => false,
    }
}

/// Whether an LDBR has been executed, before a step or in it.
pub(crate) fn loaded_after(loaded: bool, told: &StepRecord) -> bool
    ensures { result ≡ loaded_after loaded told.now }
{
    loaded || executed_ldbr(told)
}

// The next turn after a fault in this ring, if no LDBR has been executed.
fn event_after_known_fault(ring: u8, fault: Fault) -> NextEvent
    ensures { result ≡ event_after_fault false ring fault }
{
    if fault.number == FAULT_TAG_2 {
        NextEvent::Link(fault.at)
    } else if fault.number == MASTER_MODE_ENTRY && ring == 0 {
        NextEvent::Print
    } else {
        NextEvent::Over(End::Fault(fault))
    }
}

/// The next turn after a step with this outcome. `ring` is the ring in which its instruction was
/// executed, and `loaded` whether an LDBR has been executed, in this step or before it.
pub(crate) fn event_after_outcome(loaded: bool, ring: u8, outcome: Outcome) -> NextEvent
    ensures { result ≡ event_after_outcome loaded ring outcome }
{
    match outcome {
        Outcome::Next => NextEvent::Step,
        Outcome::Stopped(stop) => NextEvent::Over(End::Stop(stop)),
        Outcome::Faulted(fault) => {
            if loaded {
                NextEvent::Over(End::Fault(fault))
            } else {
                event_after_known_fault(ring, fault)
            }
        }
    }
}
