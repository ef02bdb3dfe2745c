//! Arithmetic on numbers of a register's width.

ghost use Rattle.std.specs.Prelude.{◌≡◌, ◌*◌, ◌^◌, ◌<◌};
ghost use Rattle.m36_word.specs.Pairs.{number_of};
ghost use Rattle.m36_model.specs.Arithmetic.{sum, difference, negation, comparison};
ghost use Rattle.m36_model.specs.Results.{half};
ghost use Rattle.m36_xdata.specs.Registers.{working_of};
ghost use Rattle.m36_xdata.specs.Results.{sum_fields};

use crate::registers::Register;
use m36_arith::{
    Compare, Sum18, Sum36, Sum72, add18, add36, add72, cmp18, cmp36, cmp72, neg18, neg36, neg72,
    sub18, sub36, sub72,
};
use m36_word::{Pair, Word};

/// The result of an operation, for any register's width.
#[derive(Clone, Copy)]
pub struct Computed {
    pub value: u128,
    pub zero: bool,
    pub negative: bool,
    pub carry: bool,
    pub overflow: bool,
}

/// The word with this value.
pub fn word(v: u128) -> Word
    requires { v < 2 ^ 36 }
    ensures { result ≡ v }
{
    Word::low(v as u64)
}

/// The pair with this value.
pub fn pair(v: u128) -> Pair
    requires { v < 2 ^ 72 }
    ensures { number_of result ≡ v }
{
    Pair::of_value(v)
}

/// The result of an operation on words, as a `Computed`.
pub fn from_words(s: Sum36) -> Computed
    ensures value { sum_fields result ≡ s }
    ensures bound { result.value < 2 ^ 36 }
{
    Computed {
        value: s.value.value() as u128,
        zero: s.zero,
        negative: s.negative,
        carry: s.carry,
        overflow: s.overflow,
    }
}

/// The result of an operation on pairs, as a `Computed`.
pub fn from_pairs(s: Sum72) -> Computed
    ensures value { sum_fields result ≡ s }
    ensures bound { result.value < 2 ^ 72 }
{
    Computed {
        value: s.value.value(),
        zero: s.zero,
        negative: s.negative,
        carry: s.carry,
        overflow: s.overflow,
    }
}

/// The result of an operation on halves, as a `Computed`.
pub fn from_halves(s: Sum18) -> Computed
    ensures value { sum_fields result ≡ s }
    ensures bound { result.value < 2 ^ 18 }
{
    Computed {
        value: s.value as u128,
        zero: s.zero,
        negative: s.negative,
        carry: s.carry,
        overflow: s.overflow,
    }
}

/// The sum of two numbers, plus 1 if `carry_in`.
pub fn sum(r: Register, x: u128, y: u128, carry_in: bool) -> Computed
    requires first { x < 2 * half (working_of r) }
    requires second { y < 2 * half (working_of r) }
    ensures value { sum_fields result ≡ sum (half (working_of r)) x y carry_in }
    ensures bound { result.value < 2 * half (working_of r) }
{
    match r {
        Register::A | Register::Q => from_words(add36(word(x), word(y), carry_in)),
        Register::Aq => from_pairs(add72(pair(x), pair(y), carry_in)),
        Register::X(_) => from_halves(add18(x as u32, y as u32, carry_in)),
    }
}

/// The first number minus the second, minus 1 if `borrow`.
pub fn difference(r: Register, x: u128, y: u128, borrow: bool) -> Computed
    requires first { x < 2 * half (working_of r) }
    requires second { y < 2 * half (working_of r) }
    ensures value { sum_fields result ≡ difference (half (working_of r)) x y borrow }
    ensures bound { result.value < 2 * half (working_of r) }
{
    match r {
        Register::A | Register::Q => from_words(sub36(word(x), word(y), borrow)),
        Register::Aq => from_pairs(sub72(pair(x), pair(y), borrow)),
        Register::X(_) => from_halves(sub18(x as u32, y as u32, borrow)),
    }
}

/// The negative of a number, in two's complement.
pub fn negation(r: Register, x: u128) -> Computed
    requires { x < 2 * half (working_of r) }
    ensures value { sum_fields result ≡ negation (half (working_of r)) x }
    ensures bound { result.value < 2 * half (working_of r) }
{
    match r {
        Register::A | Register::Q => from_words(neg36(word(x))),
        Register::Aq => from_pairs(neg72(pair(x))),
        Register::X(_) => from_halves(neg18(x as u32)),
    }
}

/// Compares two numbers.
pub fn comparison(r: Register, x: u128, y: u128) -> Compare
    requires first { x < 2 * half (working_of r) }
    requires second { y < 2 * half (working_of r) }
    ensures { result ≡ comparison (half (working_of r)) x y }
{
    match r {
        Register::A | Register::Q => cmp36(word(x), word(y)),
        Register::Aq => cmp72(pair(x), pair(y)),
        Register::X(_) => cmp18(x as u32, y as u32),
    }
}
