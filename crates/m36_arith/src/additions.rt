//! Sums with a carry in. Carry is on exactly if the unsigned sum does not fit, and overflow exactly
//! if the signed sum does not fit.

ghost use Rattle.std.specs.Prelude.{◌≡◌, ◌^◌, ◌<◌};
ghost use Rattle.m36_word.specs.Pairs.{number_of};
ghost use Rattle.m36_model.specs.Arithmetic.{sum};

use crate::narrow::{of_bit, sum_overflows};
use crate::sums::{Sum18, Sum36, Sum72};
use crate::wide::{pair_of, wide_of_bit, wide_sum_overflows};
use m36_word::{Pair, Word};

/// The sum of two words, plus 1 if `carry_in` is on.
#[tactic(auto, unfolding(m36_model::specs::Arithmetic::sum, m36_model::specs::Arithmetic::sum_value, m36_model::specs::Arithmetic::sum_carry))]
pub fn add36(x: Word, y: Word, carry_in: bool) -> Sum36
    ensures { result ≡ sum (2 ^ 35) x y carry_in }
{
    let total = x.value() + y.value() + of_bit(carry_in);
    let value = Word::low(total);
    Sum36 {
        value,
        zero: value.value() == 0,
        negative: value.value() >= 1 << 35,
        carry: total >= 1 << 36,
        overflow: sum_overflows(1 << 35, x.value(), y.value(), carry_in),
    }
}

/// The sum of two pairs, plus 1 if `carry_in` is on.
#[tactic(auto, unfolding(m36_model::specs::Arithmetic::sum, m36_model::specs::Arithmetic::sum_value, m36_model::specs::Arithmetic::sum_carry))]
pub fn add72(x: Pair, y: Pair, carry_in: bool) -> Sum72
    ensures { result ≡ sum (2 ^ 71) (number_of x) (number_of y) carry_in }
{
    let first = x.value();
    let second = y.value();
    let total = first + second + wide_of_bit(carry_in);
    let value = total % (1 << 72);
    Sum72 {
        value: pair_of(value),
        zero: value == 0,
        negative: value >= 1 << 71,
        carry: total >= 1 << 72,
        overflow: wide_sum_overflows(first, second, carry_in),
    }
}

/// The sum of two halves, plus 1 if `carry_in` is on.
#[tactic(auto, unfolding(m36_model::specs::Arithmetic::sum, m36_model::specs::Arithmetic::sum_value, m36_model::specs::Arithmetic::sum_carry))]
pub fn add18(x: u32, y: u32, carry_in: bool) -> Sum18
    requires first { x < 2 ^ 18 }
    requires second { y < 2 ^ 18 }
    ensures { result ≡ sum (2 ^ 17) x y carry_in }
{
    let total = x as u64 + y as u64 + of_bit(carry_in);
    let value = (total % (1 << 18)) as u32;
    Sum18 {
        value,
        zero: value == 0,
        negative: value >= 1 << 17,
        carry: total >= 1 << 18,
        overflow: sum_overflows(1 << 17, x as u64, y as u64, carry_in),
    }
}
