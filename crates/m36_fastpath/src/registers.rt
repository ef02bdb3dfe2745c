//! The registers of the data instructions.

ghost use Rattle.std.specs.Prelude.{◌≡◌};
ghost use Rattle.m36_model.specs.Results.{aq_pair};

use m36_model::Regs;
use m36_word::{Pair, Word};

/// The accumulator, A.
#[inline(always)]
pub fn accumulator(regs: &Regs) -> Word
    ensures { result ≡ regs.now.a }
{
    regs.a
}

/// The quotient register, Q.
#[inline(always)]
pub fn quotient_register(regs: &Regs) -> Word
    ensures { result ≡ regs.now.q }
{
    regs.q
}

/// The accumulator and the quotient register as a pair; the accumulator is the even word.
#[inline(always)]
pub fn aq_pair(regs: &Regs) -> Pair
    ensures { result ≡ aq_pair regs.now }
{
    Pair {
        even: regs.a,
        odd: regs.q,
    }
}
