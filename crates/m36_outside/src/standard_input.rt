//! The standard input.

ghost use Rattle.std.specs.Prelude.{[], ◌≡◌, ◌≤◌, ◌<◌, ◌^◌, None, length};
ghost use Rattle.m36_outside.specs.Passing.{PieceGives};
ghost use Rattle.m36_outside.specs.Piece.{PieceResult, PieceHasCause};
ghost use Rattle.m36_outside.specs.System.{PieceHasError};

use crate::faults::count_after_piece;
use crate::lines::{Lines, Piece};
use crate::logged::LoggedReader;
use crate::reading::read_piece;
use std::marker::Model;

/// The standard input. What is left there is not known to contracts. Its count of faults, the
/// pieces that it gave, and the errors of the system are.
#[derive(Drop)]
pub struct StdLines<R: Input> {
    faults: u64,
    reader: LoggedReader<R::Reader>,
    rt: R,
}

impl<R: Input> Model for StdLines<R> {
    ghost use Rattle.std.specs.Prelude.{◌<◌, ◌^◌};
    ghost use Rattle.m36_outside.specs.SystemModels.{InputModel};

    ghost Value = { InputModel };

    ghost view = { λ l. record {
      faults = l.faults;
      given = l.reader.given.entries;
      errors = l.reader.errors.entries;
    } };

    ghost invariant = { λ l. l.faults < 2 ^ 64 };
}

impl<R: Input + Drop> StdLines<R> {
    /// The standard input of this runtime.
    pub fn new(rt: R) -> StdLines<R>
        ensures { result ≡ record { faults = 0; given = []; errors = [] } }
    {
        StdLines {
            faults: 0,
            reader: LoggedReader::new(rt.reader()),
            rt,
        }
    }
}

impl<R: Input + Drop> Lines for StdLines<R> {
    ghost left = { λ _. None };

    ghost given = { λ l. l.given };

    ghost faults = { λ l. l.faults };

    fn next_piece(&mut self, into: &mut [u8]) -> Piece
        requires room { 1 ≤ length into.old }
        ensures says { PieceResult result None None into.new }
        ensures gives { PieceGives result self.old.given self.new.given into.new }
        ensures cause { PieceHasCause result self.old.faults self.new.faults }
        ensures count { self.old.faults ≤ self.new.faults }
        ensures count_bound { self.new.faults < 2 ^ 64 }

        ensures error { PieceHasError result self.old.errors self.new.errors }
    {
        let answer = read_piece(&mut self.reader, into);
        self.faults = count_after_piece(self.faults, answer);
        answer
    }
}
