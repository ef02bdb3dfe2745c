//! An output that never fails.

ghost use Rattle.std.specs.Prelude.{[], ◌∷◌, ◌++◌, ◌≡◌, Some};
ghost use Rattle.m36_outside.specs.Passing.{joined};
ghost use Rattle.m36_outside.specs.Put.{PutResult, PutHasCause};

use crate::block::Block;
use crate::call_log::Log;
use crate::sink::{Put, Sink};
use crate::text::Text;

/// Takes every piece and keeps none. The pieces that it took are known to contracts. It never
/// counts a fault.
#[derive(Drop)]
pub struct SureSink {
    taken: Log<Text>,
}

impl SureSink {
    /// A sink that has taken nothing.
    pub fn new() -> SureSink
        ensures { result.taken.entries ≡ [] }
    {
        SureSink { taken: Log::new() }
    }
}

impl Sink for SureSink {
    ghost written = { λ s. Some (joined s.taken.entries) };

    ghost taken = { λ s. s.taken.entries };

    ghost faults = { λ _. 0 };

    #[tactic(auto, using(crate::proofs::Takes::takes))]
    fn put(&mut self, piece: &[u8]) -> Put
        ensures says { PutResult result
            (Some (joined self.old.taken.entries))
            (Some (joined self.new.taken.entries)) piece.now }
        ensures took { self.new.taken.entries ≡ self.old.taken.entries ++ piece.now ∷ [] }
        ensures cause { PutHasCause result 0 0 }
        ensures sure { result ≡ Put.Done }
    {
        self.taken.note(&piece);
        Put::Done
    }

    #[tactic(auto, using(crate::proofs::Blocks::written_at_once))]
    fn put_block(&mut self, block: &Block) -> Put
        ensures says { PutResult result
            (Some (joined self.old.taken.entries)) (Some (joined self.new.taken.entries))
            (joined block.now) }
        ensures took { self.new.taken.entries ≡ self.old.taken.entries ++ block.now }
        ensures cause { PutHasCause result 0 0 }
        ensures sure { result ≡ Put.Done }
    {
        self.taken.note(block);
        Put::Done
    }
}
