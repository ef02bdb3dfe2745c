//! Signs and magnitudes of words, and numbers with a given sign and magnitude.

ghost use Rattle.std.specs.Prelude.{◌≡◌, ◌^◌, ◌<◌, ◌≤◌};
ghost use Rattle.m36_word.specs.Signed.{signed};
ghost use Rattle.m36_model.specs.Arithmetic.{is_negative, modulo};
ghost use Rattle.m36_model.specs.Booleans.{xor_bit};
ghost use Rattle.m36_arith.specs.Signs.{with_sign};

use m36_word::Word;

/// Whether the first bit of a word is on.
pub fn is_negative(w: Word) -> bool
    ensures { result ≡ is_negative (2 ^ 35) w }
{
    w.value() >= 1 << 35
}

/// The magnitude of a word as a signed number, at most 2^35.
#[tactic(auto, using(crate::proofs::SignRules::signed_is))]
pub fn magnitude(w: Word) -> u64
    ensures value { signed (2 ^ 35) w ≡ with_sign (is_negative (2 ^ 35) w) result }
    ensures bound { result ≤ 2 ^ 35 }
    ensures some { 0 < w → 0 < result }
{
    let value = w.value();
    if value < 1 << 35 {
        value
    } else {
        (1 << 36) - value
    }
}

/// Whether two signs are different.
pub fn are_different(first: bool, second: bool) -> bool
    ensures { result ≡ xor_bit first second }
{
    if first { !second } else { second }
}

/// The word with this sign and magnitude, modulo 2^36.
#[tactic(auto, using(crate::proofs::SignRules::plain_is, crate::proofs::SignRules::turned_is))]
pub fn signed_word(negative: bool, size: u64) -> Word
    requires { size ≤ 2 ^ 35 }
    ensures { result ≡ modulo (with_sign negative size) (2 ^ 36) }
{
    if negative {
        Word::low((1 << 36) - size)
    } else {
        Word::low(size)
    }
}

/// The number of 72 bits with this sign and magnitude, modulo 2^72.
#[tactic(auto, using(crate::proofs::SignRules::plain_is, crate::proofs::SignRules::turned_is))]
pub fn signed_number(negative: bool, size: u128) -> u128
    requires { size < 2 ^ 72 }
    ensures value { result ≡ modulo (with_sign negative size) (2 ^ 72) }
    ensures bound { result < 2 ^ 72 }
{
    if negative {
        ((1 << 72) - size) % (1 << 72)
    } else {
        size
    }
}
