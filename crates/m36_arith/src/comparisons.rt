//! Comparisons. Zero is on exactly if both numbers are equal, and negative exactly if the first is
//! less as a signed number. Carry is that of their difference: on exactly if the first is not less
//! as an unsigned number.

ghost use Rattle.std.specs.Prelude.{◌≡◌, ◌^◌, ◌<◌};
ghost use Rattle.m36_word.specs.Pairs.{number_of};
ghost use Rattle.m36_model.specs.Arithmetic.{comparison};

use crate::narrow::is_less;
use crate::wide::wide_is_less;
use m36_word::{Pair, Word};
use std::marker::Model;

/// The result of a comparison.
#[derive(Clone, Copy, PartialEq, Eq)]
pub struct Compare {
    pub zero: bool,
    pub negative: bool,
    pub carry: bool,
}

impl Model for Compare {
    ghost use Rattle.m36_model.specs.Arithmetic.{ComparisonFields};

    ghost Value = { ComparisonFields };

    ghost view = { λ c. record { zero = c.zero; negative = c.negative; carry = c.carry } };

    ghost inverse = { λ c. record { zero = c.zero; negative = c.negative; carry = c.carry } };
}

/// Compares two words.
#[tactic(auto, unfolding(m36_model::specs::Arithmetic::comparison, m36_model::specs::Arithmetic::difference_carry))]
pub fn cmp36(x: Word, y: Word) -> Compare
    ensures { result ≡ comparison (2 ^ 35) x y }
{
    Compare {
        zero: x.value() == y.value(),
        negative: is_less(1 << 35, x.value(), y.value()),
        carry: y.value() <= x.value(),
    }
}

/// Compares two pairs.
#[tactic(auto, unfolding(m36_model::specs::Arithmetic::comparison, m36_model::specs::Arithmetic::difference_carry))]
pub fn cmp72(x: Pair, y: Pair) -> Compare
    ensures { result ≡ comparison (2 ^ 71) (number_of x) (number_of y) }
{
    let first = x.value();
    let second = y.value();
    Compare {
        zero: first == second,
        negative: wide_is_less(first, second),
        carry: second <= first,
    }
}

/// Compares two halves.
#[tactic(auto, unfolding(m36_model::specs::Arithmetic::comparison, m36_model::specs::Arithmetic::difference_carry))]
pub fn cmp18(x: u32, y: u32) -> Compare
    requires first { x < 2 ^ 18 }
    requires second { y < 2 ^ 18 }
    ensures { result ≡ comparison (2 ^ 17) x y }
{
    Compare {
        zero: x == y,
        negative: is_less(1 << 17, x as u64, y as u64),
        carry: y <= x,
    }
}
