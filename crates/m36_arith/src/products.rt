//! Products of words.

ghost use Rattle.std.specs.Prelude.{◌≡◌};
ghost use Rattle.m36_word.specs.Pairs.{number_of};
ghost use Rattle.m36_model.specs.Arithmetic.{product};

use crate::signs::{are_different, is_negative, magnitude, signed_number};
use crate::wide::pair_of;
use m36_word::{Pair, Word};

/// The product of two signed words. It always fits into a pair.
#[tactic(auto, using(crate::proofs::SignRules::product_is))]
pub fn mul(x: Word, y: Word) -> Pair
    ensures { number_of result ≡ product x y }
{
    let size = magnitude(x) as u128 * magnitude(y) as u128;
    pair_of(signed_number(are_different(is_negative(x), is_negative(y)), size))
}
