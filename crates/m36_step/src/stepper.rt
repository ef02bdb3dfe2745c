//! The traits of machines that are stepped.

ghost use Rattle.std.specs.Prelude.{ℕ, ◌≡◌, ◌<◌, ◌≤◌, ◌^◌, ◌⊎◌, Option, IfOk};
ghost use Rattle.m36_step.specs.Answers.{PrecludesStep, HasGoneBack, IsService, IsStep};
ghost use Rattle.m36_step.specs.Answers.{IsStepOrEnd};

use crate::turns::{BackAnswer, Turn};
use m36_model::Regs;
use m36_word::{NoMemory, Word};
use std::alloc::Global;

/// A machine that is stepped. A turn is a step, a service that the step before it calls for, or
/// the report that the run has ended.
pub trait Stepper {
    ghost use Rattle.m36_model.specs.Registers.{RegsFields};
    ghost use Rattle.m36_step.specs.declared.turns.Turn.{Turn};
    ghost use Rattle.m36_step.specs.declared.turns.BackAnswer.{BackAnswer};

    /// What a turn may answer, and the state that it leaves.
    ghost next: { Self → Turn → Self → Type 0 };

    /// What going back by n steps may answer, and the state that it leaves.
    ghost went: { Self → ℕ → BackAnswer → Self → Type 0 };

    /// The registers.
    ghost regs: { Self → RegsFields };

    /// The word of a segment, if it has a place.
    ghost content: { Self → ℕ → ℕ → Option ℕ };

    /// Takes one turn, and overwrites `turn` with it. If `turn` is a step, its record is reused,
    /// so a caller that takes many turns keeps one `Turn` for all of them.
    fn turn_into(&mut self, turn: &mut Turn)
        ensures { next self.old turn.new self.new };

    /// Takes one turn.
    fn turn(&mut self) -> Turn
        ensures { next self.old result self.new }
    {
        let mut turn = Turn::Full;
        self.turn_into(&mut turn);
        turn
    }

    /// Goes back by `n` steps.
    fn back(&mut self, n: u32) -> BackAnswer
        ensures { went self.old n result self.new };

    /// The current registers.
    fn regs(&self) -> &Regs
        ensures { result.now ≡ regs self.now };

    /// The word of a segment, without access checks; None if it has no place. Nothing changes, and
    /// no mark is set.
    fn content(&self, seg: u16, word: u32) -> Option<Word>
        requires seg { seg < 2 ^ 15 }
        requires word { word < 2 ^ 18 }
        ensures { result ≡ content self.now seg word };

    /// `back` changes nothing unless it answers Done.
    ghost stays: { (before : Self) (n : ℕ) (answer : BackAnswer) (after : Self)
        → went before n answer after → HasGoneBack answer ⊎ (after ≡ before) };

    /// A service is not followed by another.
    ghost apart: { (first second third : Self) (one two : Turn)
        → next first one second → next second two third → IsService one → IsService two → ⊥ };

    /// The turn after a step whose outcome is not Next is not a step. Nor is the turn after a
    /// refused link.
    ghost interrupted: { (first second third : Self) (one two : Turn)
        → next first one second → next second two third → PrecludesStep one → IsStep two → ⊥ };
}

/// A machine whose turns are a function of its state, and which can be copied.
pub trait Replay: Stepper {
    ghost use Rattle.m36_step.specs.declared.turns.Turn.{Turn};
    ghost use Rattle.m36_step.specs.Answers.{IsStepWithNext};
    ghost use Rattle.m36_step.specs.Hurry.{apply_repeatedly};

    /// What the turn from a state answers.
    ghost answer: { Self → Turn };

    /// The state that the turn from a state leaves.
    ghost after: { Self → Self };

    /// A second machine in the same state. Fails only with `NoMemory`.
    fn copy(&self, alloc: Global) -> Result<Self, NoMemory>
        ensures { IfOk result (λ other. other ≡ self.now) };

    /// Takes at most `most` turns, each of which is a step with the outcome Next. Returns the
    /// number of turns taken, which may be 0. They are not recorded.
    fn hurry(&mut self, most: u32) -> u32
        ensures few { result ≤ most }
        ensures state { self.new ≡ apply_repeatedly after result self.old }
        ensures on { (n : ℕ) → n < result → IsStepWithNext
            (answer (apply_repeatedly after n self.old)) }
    {
        let _ = most;
        0
    }

    /// Each turn is that of its state.
    ghost turns: { (before : Self) (turn : Turn) (later : Self)
        → Self.next before turn later → (turn ≡ answer before) × (later ≡ after before) };

    /// The turn of a state is one that the machine may take from it.
    ghost possible: { (state : Self) → Self.next state (answer state) (after state) };

    /// A turn is a step, or an end that changes nothing.
    ghost kept: { (state : Self) → IsStepOrEnd (after state ≡ state) (answer state) };
}
