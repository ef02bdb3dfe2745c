//! Sums of words, computed directly in the registers.

ghost use Rattle.std.specs.Prelude.{◌≡◌, false, not, ◌&&◌, [], ◌∷◌, Ok, IsTrue, IfSome, IfNone};
ghost use Rattle.m36_model.specs.Results.{A, Q, with_indicators, set_zero_negative_carry_overflow};
ghost use Rattle.m36_model.specs.Sums.{into_register, into_operand};

use crate::words::advance_counter;
use m36_arith::Sum36;
use m36_model::Regs;

/// Whether the instruction must not be executed: `quiet` is on, and the overflow would be a fault
/// because the overflow mask is off.
#[inline(always)]
pub(crate) fn is_withheld(overflow: bool, quiet: bool, regs: &Regs) -> bool
    ensures { result ≡ (quiet && (overflow && not regs.now.ind.mask)) }
{
    let ind = regs.ind;
    quiet && overflow && !ind.mask
}

/// Sets zero, negative and carry for a sum. Overflow is set if the sum overflows, and otherwise
/// unchanged.
#[inline(always)]
#[tactic(auto, unfolding(m36_model::specs::Results::set_zero_negative_carry_overflow))]
fn set_sum_indicators(s: Sum36, regs: &mut Regs)
    ensures value { regs.new ≡ with_indicators
        (set_zero_negative_carry_overflow s regs.old.ind) regs.old }
    ensures mask { regs.new.ind.mask ≡ regs.old.ind.mask }
{
    regs.ind.zero = s.zero;
    regs.ind.negative = s.negative;
    regs.ind.carry = s.carry;
    if s.overflow {
        regs.ind.overflow = true;
    }
}

/// Loads a sum into the accumulator, and returns whether it overflows. None, only if `quiet`: the
/// overflow would be a fault, and nothing has changed.
#[inline(always)]
#[tactic(auto, unfolding(m36_model::specs::Sums::into_register, m36_model::specs::Results::with_value, m36_model::specs::Results::advanced))]
pub(crate) fn try_sum_a(s: Sum36, quiet: bool, regs: &mut Regs) -> Option<bool>
    ensures done { IfSome result (λ o. Ok (record { regs = regs.new; put = []; overflow = o })
        ≡ into_register A s regs.old) }
    ensures quiet { IfSome result (λ o. (quiet && (o && not regs.new.ind.mask)) ≡ false) }
    ensures none { IfNone result (regs.new ≡ regs.old) }
    ensures asked { IfNone result (IsTrue quiet) }
    ensures dbr { regs.new.dbr ≡ regs.old.dbr }
{
    if is_withheld(s.overflow, quiet, regs) {
        return None;
    }
    regs.a = s.value;
    set_sum_indicators(s, regs);
    advance_counter(regs);
    Some(s.overflow)
}

/// As `try_sum_a`, for the quotient register.
#[inline(always)]
#[tactic(auto, unfolding(m36_model::specs::Sums::into_register, m36_model::specs::Results::with_value, m36_model::specs::Results::advanced))]
pub(crate) fn try_sum_q(s: Sum36, quiet: bool, regs: &mut Regs) -> Option<bool>
    ensures done { IfSome result (λ o. Ok (record { regs = regs.new; put = []; overflow = o })
        ≡ into_register Q s regs.old) }
    ensures quiet { IfSome result (λ o. (quiet && (o && not regs.new.ind.mask)) ≡ false) }
    ensures none { IfNone result (regs.new ≡ regs.old) }
    ensures asked { IfNone result (IsTrue quiet) }
    ensures dbr { regs.new.dbr ≡ regs.old.dbr }
{
    if is_withheld(s.overflow, quiet, regs) {
        return None;
    }
    regs.q = s.value;
    set_sum_indicators(s, regs);
    advance_counter(regs);
    Some(s.overflow)
}

/// Sets the indicators for a sum that goes into the operand, and returns the sum. None, only if
/// `quiet`: its overflow would be a fault, and nothing has changed.
#[inline(always)]
#[tactic(auto, unfolding(m36_model::specs::Sums::into_operand, m36_model::specs::Results::advanced))]
pub(crate) fn try_sum_word(s: Sum36, quiet: bool, regs: &mut Regs) -> Option<Sum36>
    ensures done { IfSome result (λ t.
        Ok (record { regs = regs.new; put = t.value ∷ []; overflow = t.overflow })
        ≡ into_operand A s regs.old) }
    ensures alike { IfSome result (λ t.
        Ok (record { regs = regs.new; put = t.value ∷ []; overflow = t.overflow })
        ≡ into_operand Q s regs.old) }
    ensures quiet { IfSome result (λ t. (quiet && (t.overflow && not regs.new.ind.mask)) ≡ false) }
    ensures none { IfNone result (regs.new ≡ regs.old) }
    ensures asked { IfNone result (IsTrue quiet) }
    ensures dbr { regs.new.dbr ≡ regs.old.dbr }
{
    if is_withheld(s.overflow, quiet, regs) {
        return None;
    }
    set_sum_indicators(s, regs);
    advance_counter(regs);
    Some(s)
}
