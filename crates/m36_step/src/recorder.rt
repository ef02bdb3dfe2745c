//! What is recorded of a step: its references, and how it ended.

ghost use Rattle.std.specs.Prelude.{ℕ, ◌≡◌, ◌+◌, ◌<◌, ◌≤◌, List, [], ◌∷◌, ◌++◌};
ghost use Rattle.m36_model.specs.declared.place.Reference.{Reference};
ghost use Rattle.m36_step.specs.Quick.{next_end};

use m36_model::{At, Final, Kind, Outcome, Reference, StepRecord};
use m36_word::Word;

/// Records the references of a quick step as they are completed, and the end of the step. The
/// content of a recorder after a step that was not quick is unspecified.
pub(crate) trait Recorder {
    ghost use Rattle.std.specs.Prelude.{ℕ, List};
    ghost use Rattle.m36_model.specs.Fields.{PprFields};
    ghost use Rattle.m36_model.specs.declared.place.Reference.{Reference};
    ghost use Rattle.m36_step.specs.declared.ended.Ended.{Ended};

    /// The number of references that are stored, 0 if it stores none. There is room for 40.
    ghost taken: { Self → ℕ };

    /// The place of the instruction, if the recorder has it.
    ghost place: { Self → PprFields };

    /// What holds of the recorder once these references are completed.
    ghost has: { Self → List Reference → Type 0 };

    /// What holds of the recorder once the step has ended in this way, with these references.
    ghost tells: { Self → List Reference → Ended → Type 0 };

    /// Adds a completed reference.
    fn refer(&mut self, kind: Kind, at: At, count: u8)
        requires { taken self.old < 40 }
        ensures has { (refs : List Reference) → has self.old refs
            → has self.new (refs ++ record { kind = kind; at = at; count = count } ∷ []) }
        ensures taken { taken self.new ≤ taken self.old + 1 }
        ensures place { place self.new ≡ place self.old };

    /// Records the end of a step whose outcome is Next.
    fn end(&mut self, word: Word, last: &Final)
        ensures tells { (refs : List Reference) → has self.old refs
            → tells self.new refs (next_end word last.now) }
        ensures place { place self.new ≡ place self.old };
}

/// A recorder that records nothing.
#[derive(Clone, Copy)]
pub(crate) struct NoRecord;

impl Recorder for NoRecord {
    ghost use Rattle.std.specs.Prelude.{ℕ, List};
    ghost use Rattle.m36_model.specs.Fields.{PprFields};

    ghost taken = { λ _. 0 };

    ghost place = { λ _. record { psr = 0; prr = 0; ic = 0 } };

    ghost has = { λ _ _. Unit {0} };

    ghost tells = { λ _ _ _. Unit {0} };

    #[inline(always)]
    fn refer(&mut self, _kind: Kind, _at: At, _count: u8) {}

    #[inline(always)]
    fn end(&mut self, _word: Word, _last: &Final) {}
}

impl Recorder for StepRecord {
    ghost use Rattle.std.specs.Prelude.{◌≡◌, length};
    ghost use Rattle.m36_step.specs.Ended.{end_in_record};

    ghost taken = { λ told. length told.refs.items };

    ghost place = { λ told. told.ppr };

    ghost has = { λ told refs. told.refs.items ≡ refs };

    ghost tells = { λ told refs e. (told.refs.items ≡ refs) × (end_in_record told ≡ e) };

    #[inline(always)]
    fn refer(&mut self, kind: Kind, at: At, count: u8) {
        self.refs.push(Reference { at, kind, count });
    }

    #[inline(always)]
    fn end(&mut self, word: Word, last: &Final) {
        self.word = Some(word);
        self.at = Some(*last);
        self.outcome = Outcome::Next;
    }
}
