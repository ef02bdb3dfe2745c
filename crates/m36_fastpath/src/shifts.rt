//! Shifts, executed directly in the registers.

ghost use Rattle.std.specs.Prelude.{ℕ, ◌≡◌, ◌^◌, ◌<◌, false, [], Ok};
ghost use Rattle.m36_word.specs.Pairs.{number_of};
ghost use Rattle.m36_arith.specs.ShiftResult.{shifted_number};
ghost use Rattle.m36_model.specs.Effect.{exec};
ghost use Rattle.m36_model.specs.Shifts.{count_of};
ghost use Rattle.m36_model.specs.ShiftEffects.{shift_left, with_carry};
ghost use Rattle.m36_model.specs.Results.{A, Q, AQ, with_indicators};
ghost use Rattle.m36_model.specs.Step.{no_operand};
ghost use Rattle.m36_inst.specs.Quick.{group_of};
ghost use Rattle.m36_inst.specs.declared.rows.Group.TheVariants as group;

use crate::pairs::load_pair;
use crate::registers::{accumulator, aq_pair, quotient_register};
use crate::words::{load_a, load_q};
use m36_arith::{Shift, shift36, shift72};
use m36_inst::Effect;
use m36_model::{Final, Regs};
use m36_word::{Pair, Word};

/// A word, shifted by `n` places.
#[inline(always)]
#[tactic(auto, unfolding(m36_arith::specs::ShiftResult::shift_result))]
fn shifted_word(op: Shift, w: Word, n: u32) -> Word
    requires { n < 128 }
    ensures { result ≡ shifted_number op 36 w n }
{
    shift36(op, w, n).value
}

/// A pair, shifted by `n` places.
#[inline(always)]
#[tactic(auto, unfolding(m36_arith::specs::ShiftResult::shift_result))]
fn shifted_pair(op: Shift, p: Pair, n: u32) -> Pair
    requires { n < 128 }
    ensures { number_of result ≡ shifted_number op 72 (number_of p) n }
{
    shift72(op, p, n).value
}

/// The number of places to shift by: the computed address modulo 128.
#[inline(always)]
fn shift_count(f: &Final) -> u32
    ensures value { result ≡ count_of f.now.at.word }
    ensures bound { result < 128 }
{
    f.at.word % 128
}

/// Sets or clears carry.
#[inline(always)]
fn set_carry(carry: bool, regs: &mut Regs)
    ensures { regs.new ≡ with_indicators (with_carry carry regs.old.ind) regs.old }
{
    regs.ind.carry = carry;
}

/// ALS: shifts the accumulator left.
#[inline(always)]
#[tactic(auto, unfolding(m36_arith::specs::ShiftResult::shift_result, m36_model::specs::ShiftEffects::shift_left, m36_model::specs::Loads::load, m36_model::specs::Results::with_value, m36_model::specs::Results::set_zero_negative, m36_model::specs::Results::advanced))]
fn shift_a_left(f: &Final, regs: &mut Regs)
    ensures dbr { regs.new.dbr ≡ regs.old.dbr }
    ensures value { Ok (record { regs = regs.new; put = []; overflow = false })
        ≡ shift_left A f.now.at.word regs.old }
{
    let s = shift36(Shift::Left, accumulator(regs), shift_count(f));
    load_a(s.value, regs);
    set_carry(s.carry, regs);
}

/// QLS: shifts the quotient register left.
#[inline(always)]
#[tactic(auto, unfolding(m36_arith::specs::ShiftResult::shift_result, m36_model::specs::ShiftEffects::shift_left, m36_model::specs::Loads::load, m36_model::specs::Results::with_value, m36_model::specs::Results::set_zero_negative, m36_model::specs::Results::advanced))]
fn shift_q_left(f: &Final, regs: &mut Regs)
    ensures dbr { regs.new.dbr ≡ regs.old.dbr }
    ensures value { Ok (record { regs = regs.new; put = []; overflow = false })
        ≡ shift_left Q f.now.at.word regs.old }
{
    let s = shift36(Shift::Left, quotient_register(regs), shift_count(f));
    load_q(s.value, regs);
    set_carry(s.carry, regs);
}

/// LLS: shifts both registers left, as one number of 72 bits.
#[inline(always)]
#[tactic(auto, unfolding(m36_arith::specs::ShiftResult::shift_result, m36_model::specs::ShiftEffects::shift_left, m36_model::specs::Loads::load, m36_model::specs::Results::with_value, m36_model::specs::Results::set_zero_negative, m36_model::specs::Results::advanced))]
fn shift_pair_left(f: &Final, regs: &mut Regs)
    ensures dbr { regs.new.dbr ≡ regs.old.dbr }
    ensures value { Ok (record { regs = regs.new; put = []; overflow = false })
        ≡ shift_left AQ f.now.at.word regs.old }
{
    let s = shift72(Shift::Left, aq_pair(regs), shift_count(f));
    load_pair(s.value, regs);
    set_carry(s.carry, regs);
}

/// Executes a shift. It never gives an overflow fault.
#[inline(always)]
#[tactic(auto, unfolding(m36_model::specs::Effect::exec, m36_model::specs::ShiftEffects::shift_right, m36_model::specs::ShiftEffects::shift_right_logical, m36_model::specs::ShiftEffects::rotate_left, m36_model::specs::Loads::load))]
pub fn shift(effect: Effect, regs: &mut Regs, f: &Final)
    requires { group_of effect ≡ group.Shift }
    ensures value { (n : ℕ) → Ok (record { regs = regs.new; put = []; overflow = false })
        ≡ exec effect n regs.old f.now no_operand }
    ensures dbr { regs.new.dbr ≡ regs.old.dbr }
{
    let n = shift_count(f);
    match effect {
        Effect::Als => shift_a_left(f, regs),
        Effect::Qls => shift_q_left(f, regs),
        Effect::Lls => shift_pair_left(f, regs),
        Effect::Ars => load_a(shifted_word(Shift::Right, accumulator(regs), n), regs),
        Effect::Qrs => load_q(shifted_word(Shift::Right, quotient_register(regs), n), regs),
        Effect::Lrs => load_pair(shifted_pair(Shift::Right, aq_pair(regs), n), regs),
        Effect::Arl => load_a(shifted_word(Shift::RightZero, accumulator(regs), n), regs),
        Effect::Qrl => load_q(
            shifted_word(Shift::RightZero, quotient_register(regs), n),
            regs,
        ),
        Effect::Lrl => load_pair(shifted_pair(Shift::RightZero, aq_pair(regs), n), regs),
        Effect::Alr => load_a(shifted_word(Shift::Rotate, accumulator(regs), n), regs),
        Effect::Qlr => load_q(
            shifted_word(Shift::Rotate, quotient_register(regs), n),
            regs,
        ),
        Effect::Llr => load_pair(shifted_pair(Shift::Rotate, aq_pair(regs), n), regs),
        _ => unreachable!(),
    }
}
