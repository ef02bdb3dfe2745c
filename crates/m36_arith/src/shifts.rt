//! Shifts of words and pairs. Overflow is off after each shift, and carry after each except a left
//! shift.

ghost use Rattle.std.specs.Prelude.{◌≡◌, ◌^◌, ◌<◌};
ghost use Rattle.m36_word.specs.Pairs.{number_of};
ghost use Rattle.m36_arith.specs.ShiftResult.{shifted_number, shift_carry, shift_result};

use crate::sums::{Sum36, Sum72};
use crate::wide::pair_of;
use crate::{pair_shifts, word_shifts};
use m36_word::{Pair, Word};

/// The kinds of shifts.
#[derive(Clone, Copy, PartialEq, Eq)]
pub enum Shift {
    /// To the left; zeros enter. Carry is on exactly if the first bit changes during the shift.
    Left,
    /// To the right; copies of the first bit enter.
    Right,
    /// To the right; zeros enter.
    RightZero,
    /// To the left; the bits that leave enter at the other end.
    Rotate,
}

// A number of 36 bits, shifted by n places.
fn shifted_word(op: Shift, v: u64, n: u32) -> u64
    requires number { v < 2 ^ 36 }
    requires count { n < 128 }
    ensures value { result ≡ shifted_number op 36 v n }
    ensures bound { result < 2 ^ 36 }
{
    match op {
        Shift::Left => word_shifts::shift_left(v, n),
        Shift::Right => word_shifts::shift_right(v, n),
        Shift::RightZero => word_shifts::shift_right_with_zeros(v, n),
        Shift::Rotate => word_shifts::rotate_left(v, n),
    }
}

// The carry of a shift of a number of 36 bits: only a left shift can set it.
fn carry_of_word(op: Shift, v: u64, n: u32) -> bool
    requires number { v < 2 ^ 36 }
    requires count { n < 128 }
    ensures { result ≡ shift_carry op 36 v n }
{
    match op {
        Shift::Left => word_shifts::carry_of_left_shift(v, n),
        Shift::Right | Shift::RightZero | Shift::Rotate => false,
    }
}

/// A word shifted by n, a count below 128.
#[tactic(auto, unfolding(crate::specs::ShiftResult::shift_result))]
pub fn shift36(op: Shift, v: Word, n: u32) -> Sum36
    requires { n < 128 }
    ensures { result ≡ shift_result op 36 v n }
{
    let number = v.value();
    let value = shifted_word(op, number, n);
    Sum36 {
        value: Word::low(value),
        zero: value == 0,
        negative: value >= 1 << 35,
        carry: carry_of_word(op, number, n),
        overflow: false,
    }
}

// A number of 72 bits, shifted by n places.
fn shifted_pair(op: Shift, v: u128, n: u32) -> u128
    requires number { v < 2 ^ 72 }
    requires count { n < 128 }
    ensures value { result ≡ shifted_number op 72 v n }
    ensures bound { result < 2 ^ 72 }
{
    match op {
        Shift::Left => pair_shifts::shift_left(v, n),
        Shift::Right => pair_shifts::shift_right(v, n),
        Shift::RightZero => pair_shifts::shift_right_with_zeros(v, n),
        Shift::Rotate => pair_shifts::rotate_left(v, n),
    }
}

// The carry of a shift of a number of 72 bits: only a left shift can set it.
fn carry_of_pair(op: Shift, v: u128, n: u32) -> bool
    requires number { v < 2 ^ 72 }
    requires count { n < 128 }
    ensures { result ≡ shift_carry op 72 v n }
{
    match op {
        Shift::Left => pair_shifts::carry_of_left_shift(v, n),
        Shift::Right | Shift::RightZero | Shift::Rotate => false,
    }
}

/// A pair shifted by n, a count below 128.
#[tactic(auto, unfolding(crate::specs::ShiftResult::shift_result))]
pub fn shift72(op: Shift, v: Pair, n: u32) -> Sum72
    requires { n < 128 }
    ensures { result ≡ shift_result op 72 (number_of v) n }
{
    let number = v.value();
    let value = shifted_pair(op, number, n);
    Sum72 {
        value: pair_of(value),
        zero: value == 0,
        negative: value >= 1 << 71,
        carry: carry_of_pair(op, number, n),
        overflow: false,
    }
}
