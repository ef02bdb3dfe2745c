//! The answers of a turn and of going back.

use arrayvec::ArrayVec;
use m36_model::{At, End, LinkCode, StepRecord};
use m36_word::Pair;
use std::marker::Model;

/// A link service: a link was snapped for a ring, or refused.
#[derive(Drop)]
pub struct LinkNote {
    /// The link as `name$entry`, up to 65 characters; `?` if the word is not a link.
    pub name: ArrayVec<u8, 65>,
    /// The pair that replaces the link, or the reason why there is none.
    pub answer: Result<Pair, LinkCode>,
    /// The address of the link word, as the fault reported it.
    pub at: At,
    /// The ring for which the link is snapped; 3 bits.
    pub ring: u8,
}

impl Model for LinkNote {
    ghost use Rattle.std.specs.Prelude.{◌<◌, ◌^◌};
    ghost use Rattle.m36_step.specs.LinkNoteFields.{LinkNoteFields};

    ghost Value = { LinkNoteFields };

    ghost view = { λ n.
        record { name = n.name.items; answer = n.answer; at = n.at; ring = n.ring } };

    ghost invariant = { λ n. n.ring < 2 ^ 3 };
}

/// A console service: what was written, up to 256 characters.
#[derive(Drop)]
pub struct ConsoleNote {
    pub bytes: ArrayVec<u8, 256>,
}

impl Model for ConsoleNote {
    ghost use Rattle.std.specs.Prelude.{ℕ, List};

    ghost Value = { List ℕ };

    ghost view = { λ n. n.bytes.items };
}

/// The answer of a turn.
#[derive(Drop)]
pub enum Turn {
    /// A step was taken.
    Stepped(StepRecord),
    /// A link was snapped, or refused; after a refusal the next turn answers Ended.
    Linked(LinkNote),
    /// The console service has written characters.
    Console(ConsoleNote),
    /// The run has ended. After the first such answer the state is fixed.
    Ended(End),
    /// The count of steps is at its maximum. Nothing has changed.
    Full,
    /// A service ran out of memory. Nothing has changed.
    NoMemory,
}

/// The answer of going back.
#[derive(Clone, Copy, PartialEq, Eq)]
pub enum BackAnswer {
    /// The machine is in the state n steps earlier.
    Done,
    /// Fewer steps were taken, namely this many. Nothing has changed.
    Before(u64),
    /// This machine cannot go back. Nothing has changed.
    Unable,
    /// Out of memory. Nothing has changed.
    NoMemory,
}
