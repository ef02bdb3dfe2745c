//! The trait of an output.

ghost use Rattle.std.specs.Prelude.{ℕ, ◌≡◌, ◌≤◌, ◌<◌, ◌^◌, ◌⊎◌, List, length, Option};
ghost use Rattle.m36_outside.specs.Passing.{PutTakes, TakesLines, joined};
ghost use Rattle.m36_outside.specs.Put.{PutResult, PutHasCause};

use crate::block::Block;

/// The answer to a put.
#[derive(Clone, Copy, PartialEq, Eq)]
pub enum Put {
    /// The whole piece was written.
    Done,
    /// A prefix of the piece was written, perhaps nothing. The count of faults rose.
    Failed,
}

/// An output to which pieces are appended.
///
/// All that was written since the sink was made may be known to contracts, as it is for each sink
/// of this crate. Whether it is known never changes. Every sink logs the pieces that it took, in
/// order, one for each put: the whole piece, or a prefix of it if the put failed. Its count of
/// faults never falls, is below 2^64, and saturates at 2^64 - 1.
pub trait Sink {
    /// All that is written, if it is known.
    ghost written: { Self → Option (List ℕ) };

    /// The pieces taken so far, in order.
    ghost taken: { Self → List (List ℕ) };

    /// The number of puts that failed.
    ghost faults: { Self → ℕ };

    /// Appends a piece. A sink that takes nothing of a non-empty piece has failed.
    fn put(&mut self, piece: &[u8]) -> Put
        ensures says { PutResult result (written self.old) (written self.new) piece.now }
        ensures took { PutTakes result
            (written self.old) (written self.new) (taken self.old) (taken self.new) piece.now }

        ensures cause { PutHasCause result (faults self.old) (faults self.new) }
        ensures count { faults self.old ≤ faults self.new }
        ensures count_bound { faults self.new < 2 ^ 64 };

    /// Appends the pieces of a block, each logged as a piece of its own: all of them or, if a put
    /// fails, some of them and a prefix of the next. An empty block never fails.
    fn put_block(&mut self, block: &Block) -> Put
        ensures says { PutResult result (written self.old) (written self.new) (joined block.now) }
        ensures took { TakesLines result (taken self.old) (taken self.new) block.now }

        ensures cause { PutHasCause result (faults self.old) (faults self.new) }
        ensures count { faults self.old ≤ faults self.new }
        ensures count_bound { (faults self.old < 2 ^ 64) ⊎ (1 ≤ length block.now)
            → faults self.new < 2 ^ 64 }
    {
        let mut place = 0;
        while place < block.len() {
            match self.put(block.piece(place)) {
                Put::Done => {}
                Put::Failed => return Put::Failed,
            }
            place += 1;
        }
        Put::Done
    }
}
