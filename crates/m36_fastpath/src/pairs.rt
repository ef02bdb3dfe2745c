//! Frequent instructions on pairs, executed directly in the registers.
//!
//! They take and return a pair by value.

ghost use Rattle.std.specs.Prelude.{ℕ, ◌≡◌, ◌^◌, ◌<◌, false, not, ◌&&◌, [], Ok};
ghost use Rattle.std.specs.Prelude.{IsTrue, IsFalse, IfSome, IfNone};
ghost use Rattle.m36_word.specs.Pairs.{number_of, pair_words};
ghost use Rattle.m36_model.specs.Effect.{exec};
ghost use Rattle.m36_model.specs.Fields.{FinalFields};
ghost use Rattle.m36_model.specs.Loads.{load};
ghost use Rattle.m36_model.specs.Results.{AQ, with_indicators, with_value};
ghost use Rattle.m36_model.specs.Results.{with_test_indicators, set_zero_negative_carry_overflow};
ghost use Rattle.m36_model.specs.Step.{no_operand};
ghost use Rattle.m36_model.specs.Sums.{into_register};
ghost use Rattle.m36_inst.specs.Quick.{group_of};
ghost use Rattle.m36_inst.specs.declared.rows.Group.TheVariants as group;
ghost use Rattle.m36_fastpath.specs.FastPath.{GivesEffect, IsQuietEffect, operand_of_pair};

use crate::registers::aq_pair;
use crate::sums::is_withheld;
use crate::words::{advance_counter, set_comparison_indicators};
use m36_arith::{Sum72, add72, and72, cmp72, or72, sub72, xor72};
use m36_inst::Effect;
use m36_model::Regs;
use m36_word::Pair;

/// Stores a pair into the accumulator and the quotient register.
#[inline(always)]
#[tactic(auto, unfolding(m36_model::specs::Results::with_value))]
fn set_aq(p: &Pair, regs: &mut Regs)
    ensures { regs.new ≡ with_value AQ (number_of p.now) regs.old }
{
    let _bits = p.odd.value();
    regs.a = p.even;
    regs.q = p.odd;
}

/// Sets zero and negative for a pair.
#[inline(always)]
#[tactic(auto, unfolding(m36_model::specs::Results::set_zero_negative))]
fn set_pair_indicators(p: &Pair, regs: &mut Regs)
    ensures { regs.new ≡ with_test_indicators (2 ^ 71) (number_of p.now) regs.old }
{
    let v = p.value();
    regs.ind.zero = v == 0;
    regs.ind.negative = v >= 1 << 71;
}

/// Loads a pair into the accumulator and the quotient register, sets zero and negative for it, and
/// advances the instruction counter.
#[inline(always)]
#[tactic(auto, unfolding(m36_model::specs::Loads::load, m36_model::specs::Results::with_value, m36_model::specs::Results::advanced))]
pub(crate) fn load_pair(p: Pair, regs: &mut Regs)
    ensures dbr { regs.new.dbr ≡ regs.old.dbr }
    ensures value { Ok (record { regs = regs.new; put = []; overflow = false })
        ≡ load AQ (number_of p) regs.old }
{
    set_aq(&p, regs);
    set_pair_indicators(&p, regs);
    advance_counter(regs);
}

/// Sets zero, negative and carry for a sum. Overflow is set if the sum overflows, and otherwise
/// unchanged.
#[inline(always)]
#[tactic(auto, unfolding(m36_model::specs::Results::set_zero_negative_carry_overflow))]
fn set_sum_indicators(s: &Sum72, regs: &mut Regs)
    ensures value { regs.new ≡ with_indicators
        (set_zero_negative_carry_overflow s.now regs.old.ind) regs.old }
    ensures mask { regs.new.ind.mask ≡ regs.old.ind.mask }
{
    let before = regs.ind.overflow;
    regs.ind.zero = s.zero;
    regs.ind.negative = s.negative;
    regs.ind.carry = s.carry;
    regs.ind.overflow = before || s.overflow;
}

/// Loads a sum into the accumulator and the quotient register, and returns whether it overflows.
/// None, only if `quiet`: the overflow would be a fault, and nothing has changed.
#[inline(always)]
#[tactic(auto, unfolding(m36_model::specs::Sums::into_register, m36_model::specs::Results::with_value, m36_model::specs::Results::advanced))]
fn try_sum_pair(s: Sum72, quiet: bool, regs: &mut Regs) -> Option<bool>
    ensures done { IfSome result (λ o. Ok (record { regs = regs.new; put = []; overflow = o })
        ≡ into_register AQ s regs.old) }
    ensures quiet { IfSome result (λ o. (quiet && (o && not regs.new.ind.mask)) ≡ false) }
    ensures none { IfNone result (regs.new ≡ regs.old) }
    ensures asked { IfNone result (IsTrue quiet) }
    ensures dbr { regs.new.dbr ≡ regs.old.dbr }
{
    if is_withheld(s.overflow, quiet, regs) {
        return None;
    }
    set_aq(&s.value, regs);
    set_sum_indicators(&s, regs);
    advance_counter(regs);
    Some(s.overflow)
}

/// Executes a frequent instruction that reads a pair, and returns whether it overflows. None, only
/// if `quiet`: the instruction would give an overflow fault, and nothing has changed.
#[inline(always)]
#[tactic(auto, unfolding(m36_model::specs::Effect::exec, m36_model::specs::Sums::add, m36_model::specs::Sums::subtract, m36_model::specs::Compares::compare, m36_model::specs::Logic::and_register, m36_model::specs::Logic::or_register, m36_model::specs::Logic::xor_register, m36_model::specs::Loads::load))]
fn try_read(effect: Effect, regs: &mut Regs, p: Pair, quiet: bool) -> Option<bool>
    requires { group_of effect ≡ group.ReadPair }
    ensures done { IfSome result (λ o. (n : ℕ)
        → GivesEffect effect n regs.old (pair_words p) regs.new [] o) }
    ensures quiet { IfSome result (λ o. (quiet && (o && not regs.new.ind.mask)) ≡ false) }
    ensures none { IfNone result (regs.new ≡ regs.old) }
    ensures asked { IfNone result (IsTrue quiet) }
    ensures dbr { regs.new.dbr ≡ regs.old.dbr }
{
    match effect {
        Effect::Ldaq => load_pair(p, regs),
        Effect::Adaq => return try_sum_pair(add72(aq_pair(regs), p, false), quiet, regs),
        Effect::Sbaq => return try_sum_pair(sub72(aq_pair(regs), p, false), quiet, regs),
        Effect::Cmpaq => set_comparison_indicators(cmp72(aq_pair(regs), p), regs),
        Effect::Anaq => load_pair(and72(aq_pair(regs), p), regs),
        Effect::Oraq => load_pair(or72(aq_pair(regs), p), regs),
        Effect::Eraq => load_pair(xor72(aq_pair(regs), p), regs),
        _ => unreachable!(),
    }
    Some(false)
}

/// Executes a frequent instruction that reads a pair. False: it would give an overflow fault, and
/// nothing has changed. The first ring bracket of the pair's segment does not matter.
#[inline(always)]
pub fn read_pair(effect: Effect, regs: &mut Regs, p: Pair) -> bool
    requires { group_of effect ≡ group.ReadPair }
    ensures done { IsTrue result → (n : ℕ) (f : FinalFields) (ring : ℕ)
        → IsQuietEffect regs.new [] (exec effect n regs.old f (operand_of_pair p ring)) }
    ensures not { IsFalse result → regs.new ≡ regs.old }
    ensures dbr { regs.new.dbr ≡ regs.old.dbr }
{
    match try_read(effect, regs, p, true) {
        Some(_) => true,
        None => false,
    }
}

/// As `read_pair`, but also completes on overflow. Returns whether the instruction overflows.
pub fn read_pair_with_overflow(effect: Effect, regs: &mut Regs, p: Pair) -> bool
    requires { group_of effect ≡ group.ReadPair }
    ensures value { (n : ℕ) → GivesEffect effect n regs.old (pair_words p) regs.new [] result }
    ensures dbr { regs.new.dbr ≡ regs.old.dbr }
{
    match try_read(effect, regs, p, false) {
        Some(overflow) => overflow,
        None => unreachable!(),
    }
}

/// Executes STAQ, and returns the pair to write.
#[inline(always)]
#[tactic(auto, unfolding(m36_model::specs::Effect::exec, m36_model::specs::Stores::store))]
pub fn store_pair(effect: Effect, regs: &mut Regs) -> Pair
    requires { group_of effect ≡ group.StorePair }
    ensures value { (n : ℕ) (f : FinalFields)
        → Ok (record { regs = regs.new; put = pair_words result; overflow = false })
        ≡ exec effect n regs.old f no_operand }
    ensures dbr { regs.new.dbr ≡ regs.old.dbr }
{
    match effect {
        Effect::Staq => {
            let stored = aq_pair(regs);
            advance_counter(regs);
            stored
        }
        _ => unreachable!(),
    }
}
