//! An input in memory whose calls fail on request.

ghost use Rattle.std.specs.Prelude.{◌≡◌, ◌≤◌, ◌<◌, ◌^◌, ◌↔◌, Some, IsTrue, IfOk, length};
ghost use Rattle.m36_outside.specs.CallPlan.{next_fails};
ghost use Rattle.m36_outside.specs.Passing.{PieceGives};
ghost use Rattle.m36_outside.specs.Piece.{PieceResult, PieceHasCause};

use crate::call_log::Log;
use crate::calls::Calls;
use crate::faults::raise;
use crate::lines::{Lines, Piece};
use crate::remaining::Remaining;
use crate::text::Text;
use m36_word::NoMemory;
use std::alloc::Global;
use std::marker::Model;

/// Input in memory. What is left is known to contracts.
///
/// Calls are numbered from 1, and from 2^32 - 1 on each has that number. The calls whose numbers
/// were listed fail, and consume nothing. A piece fills the buffer if enough is left.
#[derive(Drop)]
pub struct MemLines {
    unread: Remaining,
    calls: Calls,
    given: Log<Text>,
    faults: u64,
}

impl Model for MemLines {
    ghost use Rattle.std.specs.Prelude.{◌<◌, ◌^◌};
    ghost use Rattle.m36_outside.specs.MemLines.{MemLinesFields};

    ghost Value = { MemLinesFields };

    ghost view = { λ l. record {
      left = l.unread;
      given = l.given.entries;
      calls = l.calls;
      faults = l.faults;
    } };

    ghost invariant = { λ l. l.faults < 2 ^ 64 };
}

impl MemLines {
    ghost use Rattle.m36_outside.specs.MemLines.{new_lines};

    /// Input of these bytes. `fail` has the numbers of the calls that fail. Fails only with
    /// `NoMemory`.
    pub fn new(alloc: Global, content: &[u8], fail: &[u32]) -> Result<MemLines, NoMemory>
        ensures { IfOk result (λ lines. lines ≡ new_lines content.now fail.now) }
    {
        let unread = Remaining::new(alloc, content)?;
        match Calls::new(alloc, fail) {
            Ok(calls) => Ok(MemLines {
                unread,
                calls,
                given: Log::new(),
                faults: 0,
            }),
            Err(cause) => {
                // Dropped by a call, so the drop is proved once for its type.
                drop(unread);
                Err(cause)
            }
        }
    }
}

impl Lines for MemLines {
    ghost use Rattle.m36_outside.specs.MemLines.{after_piece};

    ghost left = { λ l. Some l.left };

    ghost given = { λ l. l.given };

    ghost faults = { λ l. l.faults };

    fn next_piece(&mut self, into: &mut [u8]) -> Piece
        requires room { 1 ≤ length into.old }
        ensures says { PieceResult result (Some self.old.left) (Some self.new.left) into.new }
        ensures gives { PieceGives result self.old.given self.new.given into.new }
        ensures cause { PieceHasCause result self.old.faults self.new.faults }
        ensures count { self.old.faults ≤ self.new.faults }
        ensures count_bound { self.new.faults < 2 ^ 64 }

        ensures fails { (result ≡ Piece.Failed) ↔ IsTrue (next_fails self.old.calls) }
        ensures after { self.new ≡ after_piece self.old (length into.old) }
    {
        if self.calls.next_fails() {
            self.faults = raise(self.faults);
            return Piece::Failed;
        }
        let count = self.unread.take(into);
        self.given.note(&&into[..count]);
        match count {
            0 => Piece::End,
            count => Piece::Got(count),
        }
    }
}
