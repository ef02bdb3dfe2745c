//! Pointer registers, and their encoding in words.

ghost use Rattle.std.specs.Prelude.{◌≡◌, ◌<◌, ◌^◌, map, length};
ghost use Rattle.m36_xptr.specs.PointerPairs.{pair_of_pointer, pointer_of_pair};

use m36_desc::Ptr;
use m36_model::Regs;
use m36_word::{Pair, Word};

// A pointer, to be overwritten.
const NULL: Ptr = Ptr {
    word: 0,
    seg: 0,
    ring: 0,
    bit: 0,
};

/// The registers with these pointers in the pointer registers.
pub fn with_pointers(regs: &Regs, pointers: [Ptr; 8]) -> Regs
    ensures { result ≡ record regs.now { pr = pointers } }
{
    let mut after = *regs;
    after.pr = pointers;
    after
}

/// The ITS pairs of these pointers.
pub fn pairs(pointers: &[Ptr; 8]) -> [Pair; 8]
    ensures each { result ≡ map pair_of_pointer pointers.now }
    ensures count { length pointers.now ≡ 8 }
{
    let mut pairs = [Pair {
        even: Word::ZERO,
        odd: Word::ZERO,
    }; 8];
    for n in 0..8 {
        pairs[n] = pointers[n].to_words();
    }
    pairs
}

/// The pointers of eight ITS pairs. Each ring is the maximum of the pair's ring and `ring`.
pub fn pointers(block: &[Pair; 8], ring: u8) -> [Ptr; 8]
    requires { ring < 2 ^ 3 }
    ensures each { result ≡ map (pointer_of_pair ring) block.now }
    ensures count { length block.now ≡ 8 }
{
    let mut pointers = [NULL; 8];
    for n in 0..8 {
        let mut pointer = Ptr::of_words(block[n]);
        pointer.ring = pointer.ring.max(ring);
        pointers[n] = pointer;
    }
    pointers
}
