//! Differences with a borrow, and negatives. Carry is on exactly if the unsigned minuend is at
//! least the subtrahend plus the borrow, and overflow exactly if the signed difference does not
//! fit.

ghost use Rattle.std.specs.Prelude.{◌≡◌, ◌^◌, ◌<◌};
ghost use Rattle.m36_word.specs.Pairs.{number_of};
ghost use Rattle.m36_model.specs.Arithmetic.{difference, negation};

use crate::narrow::{difference_overflows, of_bit};
use crate::sums::{Sum18, Sum36, Sum72};
use crate::wide::{pair_of, wide_difference_overflows, wide_of_bit};
use m36_word::{Pair, Word};

/// The first word minus the second, and minus 1 if `borrow` is on.
#[tactic(auto, unfolding(m36_model::specs::Arithmetic::difference, m36_model::specs::Arithmetic::difference_value, m36_model::specs::Arithmetic::difference_carry))]
pub fn sub36(x: Word, y: Word, borrow: bool) -> Sum36
    ensures { result ≡ difference (2 ^ 35) x y borrow }
{
    let taken = y.value() + of_bit(borrow);
    let value = Word::low(x.value() + (1 << 36) - taken);
    Sum36 {
        value,
        zero: value.value() == 0,
        negative: value.value() >= 1 << 35,
        carry: taken <= x.value(),
        overflow: difference_overflows(1 << 35, x.value(), y.value(), borrow),
    }
}

/// The first pair minus the second, and minus 1 if `borrow` is on.
#[tactic(auto, unfolding(m36_model::specs::Arithmetic::difference, m36_model::specs::Arithmetic::difference_value, m36_model::specs::Arithmetic::difference_carry))]
pub fn sub72(x: Pair, y: Pair, borrow: bool) -> Sum72
    ensures { result ≡ difference (2 ^ 71) (number_of x) (number_of y) borrow }
{
    let first = x.value();
    let second = y.value();
    let taken = second + wide_of_bit(borrow);
    let value = (first + (1 << 72) - taken) % (1 << 72);
    Sum72 {
        value: pair_of(value),
        zero: value == 0,
        negative: value >= 1 << 71,
        carry: taken <= first,
        overflow: wide_difference_overflows(first, second, borrow),
    }
}

/// The first half minus the second, and minus 1 if `borrow` is on.
#[tactic(auto, unfolding(m36_model::specs::Arithmetic::difference, m36_model::specs::Arithmetic::difference_value, m36_model::specs::Arithmetic::difference_carry))]
pub fn sub18(x: u32, y: u32, borrow: bool) -> Sum18
    requires first { x < 2 ^ 18 }
    requires second { y < 2 ^ 18 }
    ensures { result ≡ difference (2 ^ 17) x y borrow }
{
    let taken = y as u64 + of_bit(borrow);
    let value = ((x as u64 + (1 << 18) - taken) % (1 << 18)) as u32;
    Sum18 {
        value,
        zero: value == 0,
        negative: value >= 1 << 17,
        carry: taken <= x as u64,
        overflow: difference_overflows(1 << 17, x as u64, y as u64, borrow),
    }
}

/// The negative of a word. It overflows only for the least number, -2^35.
#[tactic(auto, unfolding(m36_model::specs::Arithmetic::negation))]
pub fn neg36(x: Word) -> Sum36
    ensures { result ≡ negation (2 ^ 35) x }
{
    sub36(Word::ZERO, x, false)
}

/// The negative of a pair. It overflows only for the least number, -2^71.
#[tactic(auto, unfolding(m36_model::specs::Arithmetic::negation))]
pub fn neg72(x: Pair) -> Sum72
    ensures { result ≡ negation (2 ^ 71) (number_of x) }
{
    sub72(
        Pair {
            even: Word::ZERO,
            odd: Word::ZERO,
        },
        x,
        false,
    )
}

/// The negative of a half. It overflows only for the least number, -2^17.
#[tactic(auto, unfolding(m36_model::specs::Arithmetic::negation))]
pub fn neg18(x: u32) -> Sum18
    requires { x < 2 ^ 18 }
    ensures { result ≡ negation (2 ^ 17) x }
{
    sub18(0, x, false)
}
