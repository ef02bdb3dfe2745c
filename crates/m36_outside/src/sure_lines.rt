//! An input in memory that never fails.

ghost use Rattle.std.specs.Prelude.{[], ◌∷◌, ◌++◌, ◌≡◌, ◌≤◌, Some, IfOk, length, take, drop};
ghost use Rattle.m36_outside.specs.Passing.{PieceGives};
ghost use Rattle.m36_outside.specs.Piece.{PieceResult, PieceHasCause};
ghost use Rattle.m36_outside.specs.Remaining.{piece_length};

use crate::call_log::Log;
use crate::lines::{Lines, Piece};
use crate::remaining::Remaining;
use crate::text::Text;
use m36_word::NoMemory;
use std::alloc::Global;
use std::marker::Model;

/// Input in memory; the view is the bytes that are left and the pieces given. It never counts a
/// fault. A piece fills the buffer if enough is left.
#[derive(Drop)]
pub struct SureLines {
    unread: Remaining,
    given: Log<Text>,
}

impl Model for SureLines {
    ghost use Rattle.m36_outside.specs.SureFields.{SureLinesFields};

    ghost Value = { SureLinesFields };

    ghost view = { λ l. record { left = l.unread; given = l.given.entries } };
}

impl SureLines {
    /// Input of these bytes. Fails only with `NoMemory`.
    pub fn new(alloc: Global, content: &[u8]) -> Result<SureLines, NoMemory>
        ensures { IfOk result (λ lines. lines ≡ record { left = content.now; given = [] }) }
    {
        Ok(SureLines {
            unread: Remaining::new(alloc, content)?,
            given: Log::new(),
        })
    }
}

impl Lines for SureLines {
    ghost left = { λ l. Some l.left };

    ghost given = { λ l. l.given };

    ghost faults = { λ _. 0 };

    fn next_piece(&mut self, into: &mut [u8]) -> Piece
        requires room { 1 ≤ length into.old }
        ensures says { PieceResult result (Some self.old.left) (Some self.new.left) into.new }
        ensures gives { PieceGives result self.old.given self.new.given into.new }
        ensures cause { PieceHasCause result 0 0 }
        ensures rest { self.new.left
            ≡ drop (piece_length (length into.old) self.old.left) self.old.left }
    {
        let count = self.unread.take(into);
        self.given.note(&&into[..count]);
        match count {
            0 => Piece::End,
            count => Piece::Got(count),
        }
    }
}
