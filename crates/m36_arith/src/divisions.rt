//! Division of words.

ghost use Rattle.std.specs.Prelude.{◌≡◌, ◌<◌, false};
ghost use Rattle.m36_model.specs.Arithmetic.{is_divide_check};
ghost use Rattle.m36_arith.specs.Division.{IsDivisionResult, DivisionRefusalLaw};

use crate::signs::{are_different, is_negative, magnitude, signed_word};
use m36_word::Word;

/// The division was refused: the divisor is 0, or the quotient does not fit into a word, which is
/// only that of -2^35 by -1.
#[derive(Clone, Copy, PartialEq, Eq)]
pub struct DivideCheck;

// Whether the divisor is 0, or the quotient does not fit into a word.
#[tactic(auto, unfolding(m36_model::specs::Arithmetic::is_divide_check))]
fn is_refused(q: Word, y: Word) -> bool
    ensures value { result ≡ is_divide_check q y }
    ensures divisor { result ≡ false → 0 < y }
{
    y.value() == 0 || (q.value() == 1 << 35 && y.value() == (1 << 36) - 1)
}

/// The quotient of two signed words, truncated toward zero, and the remainder, which has the sign
/// of the dividend.
#[tactic(auto, using(crate::proofs::SignRules::quotient_is, crate::proofs::SignRules::remainder_is))]
pub fn div(q: Word, y: Word) -> Result<(Word, Word), DivideCheck>
    ensures { IsDivisionResult result q y }
{
    if is_refused(q, y) {
        return Err(DivideCheck);
    }
    let dividend = magnitude(q);
    let divisor = magnitude(y);
    let quotient = signed_word(
        are_different(is_negative(q), is_negative(y)),
        dividend / divisor,
    );
    let remainder = signed_word(is_negative(q), dividend % divisor);
    Ok((quotient, remainder))
}

/// A division is refused exactly if the divisor is 0, or the signed quotient does not fit into a
/// word.
pub fn division_law()
    ensures { DivisionRefusalLaw }
{}
