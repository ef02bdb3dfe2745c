//! The words at places that were found: one word, a pair, or a block of 16.

ghost use Rattle.std.specs.Prelude.{◌≡◌, ◌+◌, ◌<◌, ◌^◌, length, slice_index};
ghost use Rattle.m36_word.specs.Pairs.{pair_words};
ghost use Rattle.m36_associative.specs.Right.{AreCoherent};
ghost use Rattle.m36_model.specs.Core.{core_put};
ghost use Rattle.m36_model.specs.Place.{wrapped_address};
ghost use Rattle.m36_model.specs.Results.{words_of_pairs};
ghost use Rattle.m36_walk.specs.Runs.{IsInCore, words_from};
ghost use Rattle.m36_walk.specs.Words.{with_pending, run_changes};

use m36_associative::{Memories, store};
use m36_core::Core;
use m36_desc::Dbr;
use m36_tables::wrapped_address;
use m36_word::{Pair, Word};

/// A word that an instruction has still to write. References of the same instruction read it as
/// written.
#[derive(Clone, Copy, PartialEq, Eq)]
pub struct Pending {
    pub word: Word,
    /// The core address to which it will be written.
    pub place: u32,
}

/// Consecutive core words, modulo 2^24.
#[derive(Clone, Copy, PartialEq, Eq)]
pub struct WordRun {
    /// The core address of the first word.
    pub place: u32,
    /// The number of words.
    pub count: u32,
}

/// The word at an address, or the pending word if it is for this address.
#[tactic(auto, unfolding(m36_model::specs::Core::core_put))]
pub(crate) fn with_pending(core: &Core, pending: &Option<Pending>, a: u32) -> Word
    requires { a < length core.now }
    ensures { result ≡ slice_index (with_pending core.now pending.now) a }
{
    match *pending {
        None => core.peek(a),
        Some(p) => { if p.place == a { p.word } else { core.peek(a) } }
    }
}

/// The pair that begins at an address, with the pending word as if it were written.
#[tactic(auto, unfolding(crate::specs::Runs::words_from, crate::specs::Runs::IsInCore))]
pub(crate) fn pair_with_pending(core: &Core, pending: &Option<Pending>, a: u32) -> Pair
    requires place { a < 2 ^ 24 }
    requires inside { IsInCore (length core.now) a 2 }
    ensures { words_from (with_pending core.now pending.now) a 2 ≡ pair_words result }
{
    let even = with_pending(core, pending, a);
    let odd = with_pending(core, pending, wrapped_address(a + 1));
    Pair { even, odd }
}

/// The block of 16 words that begins at an address, with the pending word as if it were written.
pub(crate) fn block_with_pending(core: &Core, pending: &Option<Pending>, a: u32) -> [Pair; 8]
    requires place { a < 2 ^ 24 }
    requires inside { IsInCore (length core.now) a 16 }
    ensures { words_from (with_pending core.now pending.now) a 16 ≡ words_of_pairs result }
{
    let mut pairs = [Pair {
        even: Word::ZERO,
        odd: Word::ZERO,
    }; 8];
    let mut next = a;
    for i in 0..8 {
        pairs[i] = pair_with_pending(core, pending, next);
        next = wrapped_address(wrapped_address(next + 1) + 1);
    }
    pairs
}

/// Writes the pair that begins at an address.
#[tactic(auto, unfolding(m36_model::specs::Core::core_put, crate::specs::Runs::IsInCore))]
pub(crate) fn put_pair(core: &mut Core, dbr: &Dbr, memories: &mut Memories, a: u32, pair: Pair)
    requires place { a < 2 ^ 24 }
    requires inside { IsInCore (length core.old) a 2 }
    requires right { AreCoherent core.old dbr.now memories.old }
    ensures put { core.new ≡ core_put core.old (run_changes a (pair_words pair)) }
    ensures len { length core.new ≡ length core.old }
    ensures right { AreCoherent core.new dbr.now memories.new }
{
    store(core, dbr, memories, a, pair.even);
    store(core, dbr, memories, wrapped_address(a + 1), pair.odd);
}

/// Writes the block of 16 words that begins at an address.
pub(crate) fn put_block(
    core: &mut Core,
    dbr: &Dbr,
    memories: &mut Memories,
    a: u32,
    block: &[Pair; 8],
)
    requires place { a < 2 ^ 24 }
    requires inside { IsInCore (length core.old) a 16 }
    requires right { AreCoherent core.old dbr.now memories.old }
    ensures put { core.new ≡ core_put core.old (run_changes a (words_of_pairs block.now)) }
    ensures words { length (words_of_pairs block.now) ≡ 16 }
    ensures len { length core.new ≡ length core.old }
    ensures right { AreCoherent core.new dbr.now memories.new }
{
    let mut next = a;
    for pair in block {
        put_pair(core, dbr, memories, next, *pair);
        next = wrapped_address(wrapped_address(next + 1) + 1);
    }
}
