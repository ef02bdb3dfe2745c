//! Shifts of numbers of 72 bits.

ghost use Rattle.std.specs.Prelude.{◌≡◌, ◌-◌, ◌/◌, ◌^◌, ◌<◌, ◌≤◌, ◌==◌, ◌&&◌, not};
ghost use Rattle.m36_model.specs.Shifts.{left_shift, left_shift_carry, copying_right_shift};
ghost use Rattle.m36_model.specs.Shifts.{plain_right_shift, rotation};

/// A shift to the left; zeros enter at the right.
#[tactic(auto, unfolding(m36_model::specs::Shifts::left_shift))]
pub fn shift_left(v: u128, n: u32) -> u128
    requires number { v < 2 ^ 72 }
    requires count { n < 128 }
    ensures value { result ≡ left_shift 72 v n }
    ensures bound { result < 2 ^ 72 }
{
    (v << n) % (1 << 72)
}

/// A number of `count` ones.
#[tactic(auto, using(std::proofs::lemmas::Nat::one_shl, std::proofs::lemmas::Nat::pow_pos))]
fn ones(count: u32) -> u128
    requires { count ≤ 72 }
    ensures { result ≡ 2 ^ count - 1 }
{
    (1 << count) - 1
}

// Whether some of these bits are 1 and some are 0.
fn is_mixed(bits: u128, ones: u128) -> bool
    ensures { result ≡ (not (bits == 0) && not (bits == ones)) }
{
    bits != 0 && bits != ones
}

/// The carry of a left shift: the bits 0 to n of the number, followed by zeros, are neither all
/// zeros nor all ones. If n is the width or more, this means that the number is not 0.
#[tactic(auto, using(crate::proofs::ShiftRules::carry_within_wide, crate::proofs::ShiftRules::carry_past))]
pub fn carry_of_left_shift(v: u128, n: u32) -> bool
    requires number { v < 2 ^ 72 }
    requires count { n < 128 }
    ensures { result ≡ left_shift_carry 72 v n }
{
    if n < 72 {
        is_mixed(v >> (71 - n), ones(n + 1))
    } else {
        v != 0
    }
}

/// A shift to the right; zeros enter at the left.
#[tactic(auto, unfolding(m36_model::specs::Shifts::plain_right_shift))]
pub fn shift_right_with_zeros(v: u128, n: u32) -> u128
    requires number { v < 2 ^ 72 }
    requires count { n < 128 }
    ensures value { result ≡ plain_right_shift v n }
    ensures bound { result < 2 ^ 72 }
{
    v >> n
}

/// A shift to the right that copies the sign. A negative number is complemented before and after a
/// shift with zeros.
#[tactic(auto, using(crate::proofs::ShiftRules::copied_zeros_wide, crate::proofs::ShiftRules::copied_ones_wide))]
pub fn shift_right(v: u128, n: u32) -> u128
    requires number { v < 2 ^ 72 }
    requires count { n < 128 }
    ensures value { result ≡ copying_right_shift 72 v n }
    ensures bound { result < 2 ^ 72 }
{
    const ONES: u128 = (1 << 72) - 1;
    if v < 1 << 71 {
        v >> n
    } else {
        ONES - ((ONES - v) >> n)
    }
}

/// A rotation to the left: the bits that leave at the left enter at the right.
#[tactic(auto, unfolding(m36_model::specs::Shifts::rotation), using(crate::proofs::ShiftRules::rotated_below_wide))]
pub fn rotate_left(v: u128, n: u32) -> u128
    requires number { v < 2 ^ 72 }
    requires count { n < 128 }
    ensures value { result ≡ rotation 72 v n }
    ensures bound { result < 2 ^ 72 }
{
    let by = n % 72;
    (v << by) % (1 << 72) + (v >> (72 - by))
}
