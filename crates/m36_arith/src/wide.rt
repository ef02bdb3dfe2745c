//! Numbers of 72 bits: pairs with a given number, and overflow and order of signed numbers, as
//! `narrow` has them for fewer bits.

ghost use Rattle.std.specs.Prelude.{◌≡◌, ◌+◌, ◌*◌, ◌^◌, ◌<◌, ◌≤◌, not, ◌&&◌, nat_lt, nat_le};
ghost use Rattle.m36_word.specs.Bits.{of_bit};
ghost use Rattle.m36_word.specs.Pairs.{number_of};
ghost use Rattle.m36_model.specs.Arithmetic.{sum_overflow, difference_overflow, is_less};

use m36_word::Pair;

/// Half of the range: 2^71.
const HALF: u128 = 1 << 71;

/// The pair with this number.
pub fn pair_of(v: u128) -> Pair
    requires { v < 2 ^ 72 }
    ensures value { number_of result ≡ v }
    ensures even { result.even < 2 ^ 36 }
    ensures odd { result.odd < 2 ^ 36 }
{
    Pair::of_value(v)
}

/// 1 if a bit is on, and otherwise 0.
pub fn wide_of_bit(on: bool) -> u128
    ensures value { result ≡ of_bit on }
    ensures bound { result ≤ 1 }
{
    if on { 1 } else { 0 }
}

// A signed number of 72 bits, raised by 2^71 so that it is not negative.
fn biased_value(v: u128) -> u128
    requires { v < 2 ^ 72 }
    ensures low { v < 2 ^ 71 → result ≡ v + 2 ^ 71 }
    ensures high { 2 ^ 71 ≤ v → result + 2 ^ 71 ≡ v }
    ensures bound { result < 2 ^ 72 }
{
    if v < HALF { v + HALF } else { v - HALF }
}

// Whether the sum of two numbers that were raised by 2^71 is out of range.
fn is_out_of_range(total: u128) -> bool
    ensures { result ≡ not (nat_le (2 ^ 71) total && nat_lt total (3 * 2 ^ 71)) }
{
    !(HALF <= total && total < 3 * HALF)
}

/// Whether the signed sum of two numbers and a carry does not fit.
#[tactic(auto, using(crate::proofs::SignedOrder::sum_overflow_is))]
pub fn wide_sum_overflows(x: u128, y: u128, carry_in: bool) -> bool
    requires first { x < 2 ^ 72 }
    requires second { y < 2 ^ 72 }
    ensures { result ≡ sum_overflow (2 ^ 71) x y carry_in }
{
    is_out_of_range(biased_value(x) + biased_value(y) + wide_of_bit(carry_in))
}

/// Whether the signed difference of two numbers and a borrow does not fit.
#[tactic(auto, using(crate::proofs::SignedOrder::difference_overflow_is))]
pub fn wide_difference_overflows(x: u128, y: u128, borrow: bool) -> bool
    requires first { x < 2 ^ 72 }
    requires second { y < 2 ^ 72 }
    ensures { result ≡ difference_overflow (2 ^ 71) x y borrow }
{
    is_out_of_range(biased_value(x) + 2 * HALF - (biased_value(y) + wide_of_bit(borrow)))
}

/// Whether the first number is less than the second, as signed numbers.
#[tactic(auto, using(crate::proofs::SignedOrder::is_less_is))]
pub fn wide_is_less(x: u128, y: u128) -> bool
    requires first { x < 2 ^ 72 }
    requires second { y < 2 ^ 72 }
    ensures { result ≡ is_less (2 ^ 71) x y }
{
    biased_value(x) < biased_value(y)
}
