//! The trait of an input.

ghost use Rattle.std.specs.Prelude.{ℕ, ◌≡◌, ◌≤◌, ◌<◌, ◌^◌, List, length, Option};
ghost use Rattle.m36_outside.specs.Passing.{PieceGives};
ghost use Rattle.m36_outside.specs.Piece.{PieceResult, PieceHasCause};

/// The answer to a call for the next piece.
#[derive(Clone, Copy, PartialEq, Eq, Debug)]
pub enum Piece {
    /// The number of bytes at the beginning of the buffer, at least 1.
    Got(usize),
    /// End of input: nothing is left.
    End,
    /// The input could not be read, and nothing was consumed. The count of faults rose.
    Failed,
}

/// Input that is read in pieces. The end of a piece need not be the end of a line.
///
/// What is left may be known to contracts, as for input in memory, or not, as for a terminal.
/// Whether it is known never changes. Every input logs the pieces that it gave, in order, one for
/// each call that did not fail; an empty piece is the end. Its count of faults never falls, is
/// below 2^64, and saturates at 2^64 - 1.
pub trait Lines {
    /// The bytes that are left, if they are known.
    ghost left: { Self → Option (List ℕ) };

    /// The pieces given so far, in order.
    ghost given: { Self → List (List ℕ) };

    /// The number of calls that failed.
    ghost faults: { Self → ℕ };

    /// Moves the next bytes to the beginning of `into`. The contract leaves open what follows them
    /// in the buffer.
    fn next_piece(&mut self, into: &mut [u8]) -> Piece
        requires room { 1 ≤ length into.old }

        ensures says { PieceResult result (left self.old) (left self.new) into.new }
        ensures gives { PieceGives result (given self.old) (given self.new) into.new }

        ensures cause { PieceHasCause result (faults self.old) (faults self.new) }
        ensures count { faults self.old ≤ faults self.new }
        ensures count_bound { faults self.new < 2 ^ 64 };
}
