//! The results of sums, differences, negatives and shifts: a number, whether it is zero, whether
//! its first bit is on, carry and overflow.

use m36_word::{Pair, Word};
use std::marker::Model;

/// The result of an operation on words.
#[derive(Clone, Copy, PartialEq, Eq)]
pub struct Sum36 {
    pub value: Word,
    pub zero: bool,
    pub negative: bool,
    pub carry: bool,
    pub overflow: bool,
}

impl Model for Sum36 {
    ghost use Rattle.m36_model.specs.Arithmetic.{SumFields};

    ghost Value = { SumFields };

    ghost view = { λ s. record { value = s.value; zero = s.zero; negative = s.negative; carry = s.carry; overflow = s.overflow } };

    ghost inverse = { λ s. record { value = s.value; zero = s.zero; negative = s.negative; carry = s.carry; overflow = s.overflow } };
}

/// The result of an operation on pairs.
#[derive(Clone, Copy, PartialEq, Eq)]
pub struct Sum72 {
    pub value: Pair,
    pub zero: bool,
    pub negative: bool,
    pub carry: bool,
    pub overflow: bool,
}

impl Model for Sum72 {
    ghost use Rattle.std.specs.Prelude.{◌^◌, ◌<◌};
    ghost use Rattle.m36_word.specs.Pairs.{number_of, pair_of};
    ghost use Rattle.m36_model.specs.Arithmetic.{SumFields};
    ghost use Rattle.m36_arith.specs.PairNumber.{pair_back};

    ghost Value = { SumFields };

    ghost view = { λ s. record { value = number_of s.value; zero = s.zero; negative = s.negative; carry = s.carry; overflow = s.overflow } };

    ghost invariant = { λ s. (s.value.even < 2 ^ 36) × (s.value.odd < 2 ^ 36) };

    ghost inverse = { λ s. record { value = pair_of s.value; zero = s.zero; negative = s.negative; carry = s.carry; overflow = s.overflow } };

    ghost inverse_ok = { λ s h i. record { value = pair_back s.value h.0 h.1 i; zero = s.zero; negative = s.negative; carry = s.carry; overflow = s.overflow } };
}

/// The result of an operation on halves; the value is below 2^18.
#[derive(Clone, Copy, PartialEq, Eq)]
pub struct Sum18 {
    pub value: u32,
    pub zero: bool,
    pub negative: bool,
    pub carry: bool,
    pub overflow: bool,
}

impl Model for Sum18 {
    ghost use Rattle.std.specs.Prelude.{◌^◌, ◌<◌};
    ghost use Rattle.m36_model.specs.Arithmetic.{SumFields};

    ghost Value = { SumFields };

    ghost view = { λ s. record { value = s.value; zero = s.zero; negative = s.negative; carry = s.carry; overflow = s.overflow } };

    ghost invariant = { λ s. s.value < 2 ^ 18 };

    ghost inverse = { λ s. record { value = s.value; zero = s.zero; negative = s.negative; carry = s.carry; overflow = s.overflow } };
}
