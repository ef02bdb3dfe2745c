//! Overflow and order of signed numbers of up to 36 bits, by unsigned arithmetic.
//!
//! A number below 2 * half represents a signed number in two's complement. The biased number is
//! this number plus half, modulo 2 * half. Biased numbers have the order of the signed numbers.

ghost use Rattle.std.specs.Prelude.{◌≡◌, ◌+◌, ◌*◌, ◌^◌, ◌<◌, ◌≤◌, not, ◌&&◌, nat_lt, nat_le};
ghost use Rattle.m36_word.specs.Bits.{of_bit};
ghost use Rattle.m36_model.specs.Arithmetic.{sum_overflow, difference_overflow, is_less};

/// 1 if a bit is on, and otherwise 0.
pub fn of_bit(on: bool) -> u64
    ensures value { result ≡ of_bit on }
    ensures bound { result ≤ 1 }
{
    if on { 1 } else { 0 }
}

// A signed number, raised by `half` so that it is not negative.
fn biased_value(half: u64, v: u64) -> u64
    requires half { half ≤ 2 ^ 35 }
    requires number { v < 2 * half }
    ensures low { v < half → result ≡ v + half }
    ensures high { half ≤ v → result + half ≡ v }
    ensures bound { result < 2 * half }
{
    if v < half { v + half } else { v - half }
}

// Whether the sum of two numbers that were raised by `half` is out of range.
fn is_out_of_range(half: u64, total: u64) -> bool
    requires { half ≤ 2 ^ 35 }
    ensures { result ≡ not (nat_le half total && nat_lt total (3 * half)) }
{
    !(half <= total && total < 3 * half)
}

/// Whether the signed sum of two numbers and a carry does not fit. This is so if neither number has
/// the sign of the sum modulo 2 * half.
pub fn sum_overflows(half: u64, x: u64, y: u64, carry_in: bool) -> bool
    requires half { half ≤ 2 ^ 35 }
    requires first { x < 2 * half }
    requires second { y < 2 * half }
    ensures { result ≡ sum_overflow half x y carry_in }
{
    let sum = (x + y + of_bit(carry_in)) % (2 * half);
    if half <= sum {
        x < half && y < half
    } else {
        half <= x && half <= y
    }
}

/// Whether the signed difference of two numbers and a borrow does not fit.
#[tactic(auto, using(crate::proofs::SignedOrder::difference_overflow_is))]
pub fn difference_overflows(half: u64, x: u64, y: u64, borrow: bool) -> bool
    requires half { half ≤ 2 ^ 35 }
    requires first { x < 2 * half }
    requires second { y < 2 * half }
    ensures { result ≡ difference_overflow half x y borrow }
{
    is_out_of_range(
        half,
        biased_value(half, x) + 2 * half - (biased_value(half, y) + of_bit(borrow)),
    )
}

/// Whether the first number is less than the second, as signed numbers.
#[tactic(auto, using(crate::proofs::SignedOrder::is_less_is))]
pub fn is_less(half: u64, x: u64, y: u64) -> bool
    requires half { half ≤ 2 ^ 35 }
    requires first { x < 2 * half }
    requires second { y < 2 * half }
    ensures { result ≡ is_less half x y }
{
    biased_value(half, x) < biased_value(half, y)
}
