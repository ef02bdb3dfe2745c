//! The indicators that results set.

ghost use Rattle.std.specs.Prelude.{◌≡◌, ◌||◌};
ghost use Rattle.m36_model.specs.Results.{half, set_zero_negative, set_zero_negative_carry};
ghost use Rattle.m36_model.specs.Results.{set_zero_negative_overflow};
ghost use Rattle.m36_model.specs.Results.{set_zero_negative_carry_overflow};
ghost use Rattle.m36_model.specs.Results.{set_by_comparison, with_zero};
ghost use Rattle.m36_xdata.specs.Registers.{working_of};
ghost use Rattle.m36_xdata.specs.Results.{sum_fields};

use crate::numbers::Computed;
use crate::registers::{Register, half_of};
use m36_arith::Compare;
use m36_model::Ind;

// Whether at least one of two bits is on.
fn or_bits(first: bool, second: bool) -> bool
    ensures { result ≡ (first || second) }
{
    first || second
}

/// Sets zero and negative for a number of a register's width.
#[tactic(auto, unfolding(m36_model::specs::Results::set_zero_negative))]
pub fn set_zero_negative(r: Register, v: u128, ind: Ind) -> Ind
    ensures { result ≡ set_zero_negative (half (working_of r)) v ind }
{
    Ind {
        zero: v == 0,
        negative: v >= half_of(r),
        ..ind
    }
}

/// Sets zero, negative and carry.
#[tactic(auto, unfolding(m36_model::specs::Results::set_zero_negative_carry))]
pub fn set_zero_negative_carry(s: Computed, ind: Ind) -> Ind
    ensures { result ≡ set_zero_negative_carry (sum_fields s) ind }
{
    Ind {
        zero: s.zero,
        negative: s.negative,
        carry: s.carry,
        ..ind
    }
}

/// Sets zero and negative. Overflow is set if the result overflows, and otherwise unchanged.
#[tactic(auto, unfolding(m36_model::specs::Results::set_zero_negative_overflow))]
pub fn set_zero_negative_overflow(s: Computed, ind: Ind) -> Ind
    ensures { result ≡ set_zero_negative_overflow (sum_fields s) ind }
{
    Ind {
        zero: s.zero,
        negative: s.negative,
        overflow: or_bits(ind.overflow, s.overflow),
        ..ind
    }
}

/// Sets zero, negative and carry. Overflow is set if the result overflows, and otherwise
/// unchanged.
#[tactic(auto, unfolding(m36_model::specs::Results::set_zero_negative_carry_overflow))]
pub fn set_zero_negative_carry_overflow(s: Computed, ind: Ind) -> Ind
    ensures { result ≡ set_zero_negative_carry_overflow (sum_fields s) ind }
{
    Ind {
        zero: s.zero,
        negative: s.negative,
        carry: s.carry,
        overflow: or_bits(ind.overflow, s.overflow),
        ..ind
    }
}

/// Sets zero, negative and carry for a comparison.
#[tactic(auto, unfolding(m36_model::specs::Results::set_by_comparison))]
pub fn set_by_comparison(c: Compare, ind: Ind) -> Ind
    ensures { result ≡ set_by_comparison c ind }
{
    Ind {
        zero: c.zero,
        negative: c.negative,
        carry: c.carry,
        ..ind
    }
}

/// Sets or clears zero.
pub fn with_zero(zero: bool, ind: Ind) -> Ind
    ensures { result ≡ with_zero zero ind }
{
    Ind { zero, ..ind }
}
