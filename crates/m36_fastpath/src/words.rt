//! Frequent instructions on single words, executed directly in the registers.
//!
//! They take and return words by value. An instruction that may give an overflow fault has two
//! forms: one for a quick step, which checks for the fault first and then changes nothing, and one
//! for the general step, which completes the instruction and returns whether it overflowed.

ghost use Rattle.std.specs.Prelude.{ℕ, ◌≡◌, ◌^◌, ◌<◌, false, not, ◌&&◌, ◌⊎◌, [], ◌∷◌, Ok};
ghost use Rattle.std.specs.Prelude.{IsTrue, IsFalse, IfSome, IfNone};
ghost use Rattle.m36_model.specs.Compares.{test_word};
ghost use Rattle.m36_model.specs.Effect.{exec};
ghost use Rattle.m36_model.specs.Fields.{FinalFields};
ghost use Rattle.m36_model.specs.Loads.{load};
ghost use Rattle.m36_model.specs.Results.{A, Q, X, completes};
ghost use Rattle.m36_model.specs.Results.{advanced, with_indicators, with_test_indicators};
ghost use Rattle.m36_model.specs.Results.{set_by_comparison};
ghost use Rattle.m36_model.specs.Step.{no_operand};
ghost use Rattle.m36_inst.specs.Quick.{group_of};
ghost use Rattle.m36_inst.specs.declared.rows.Group.TheVariants as group;
ghost use Rattle.m36_fastpath.specs.FastPath.{GivesEffect, IsQuietEffect, operand_of_word};

use crate::registers::{accumulator, quotient_register};
use crate::sums::{try_sum_a, try_sum_q, try_sum_word};
use m36_arith::{Compare, Sum36, add36, and36, cmp36, or36, sub36, xor36};
use m36_inst::Effect;
use m36_model::{Final, Regs};
use m36_word::{Field, Word};

/// Advances the instruction counter to the next instruction, modulo 2^18.
#[inline(always)]
#[tactic(auto, unfolding(m36_model::specs::Results::advanced))]
pub(crate) fn advance_counter(regs: &mut Regs)
    ensures value { regs.new ≡ advanced regs.old }
    ensures dbr { regs.new.dbr ≡ regs.old.dbr }
{
    let ic = regs.ppr.ic;
    regs.ppr.ic = (ic + 1) % (1 << 18);
}

/// Sets zero and negative for a word.
#[inline(always)]
#[tactic(auto, unfolding(m36_model::specs::Results::set_zero_negative))]
fn set_word_indicators(w: Word, regs: &mut Regs)
    ensures { regs.new ≡ with_test_indicators (2 ^ 35) w regs.old }
{
    let v = w.value();
    regs.ind.zero = v == 0;
    regs.ind.negative = v >= 1 << 35;
}

/// Sets zero and negative for the value of an index register.
#[inline(always)]
#[tactic(auto, unfolding(m36_model::specs::Results::set_zero_negative))]
fn set_index_indicators(v: u32, regs: &mut Regs)
    ensures { regs.new ≡ with_test_indicators (2 ^ 17) v regs.old }
{
    regs.ind.zero = v == 0;
    regs.ind.negative = v >= 1 << 17;
}

/// Loads a word into the accumulator, sets zero and negative for it, and advances the instruction
/// counter.
#[inline(always)]
#[tactic(auto, unfolding(m36_model::specs::Loads::load, m36_model::specs::Results::with_value, m36_model::specs::Results::advanced))]
pub(crate) fn load_a(w: Word, regs: &mut Regs)
    ensures dbr { regs.new.dbr ≡ regs.old.dbr }
    ensures value { Ok (record { regs = regs.new; put = []; overflow = false })
        ≡ load A w regs.old }
{
    regs.a = w;
    set_word_indicators(w, regs);
    advance_counter(regs);
}

/// As `load_a`, for the quotient register.
#[inline(always)]
#[tactic(auto, unfolding(m36_model::specs::Loads::load, m36_model::specs::Results::with_value, m36_model::specs::Results::advanced))]
pub(crate) fn load_q(w: Word, regs: &mut Regs)
    ensures dbr { regs.new.dbr ≡ regs.old.dbr }
    ensures value { Ok (record { regs = regs.new; put = []; overflow = false })
        ≡ load Q w regs.old }
{
    regs.q = w;
    set_word_indicators(w, regs);
    advance_counter(regs);
}

/// As `load_a`, for index register `n` and a number of 18 bits.
#[inline(always)]
#[tactic(auto, unfolding(m36_model::specs::Loads::load, m36_model::specs::Results::with_value, m36_model::specs::Results::advanced))]
fn load_index(n: u8, v: u32, regs: &mut Regs)
    requires register { n < 8 }
    requires number { v < 2 ^ 18 }
    ensures dbr { regs.new.dbr ≡ regs.old.dbr }
    ensures value { Ok (record { regs = regs.new; put = []; overflow = false })
        ≡ load (X n) v regs.old }
{
    regs.x[n as usize] = v;
    set_index_indicators(v, regs);
    advance_counter(regs);
}

/// Completes a comparison: sets zero, negative and carry, and advances the instruction counter.
#[inline(always)]
#[tactic(auto, unfolding(m36_model::specs::Results::set_by_comparison))]
pub(crate) fn set_comparison_indicators(c: Compare, regs: &mut Regs)
    ensures dbr { regs.new.dbr ≡ regs.old.dbr }
    ensures value { Ok (record { regs = regs.new; put = []; overflow = false })
        ≡ completes (with_indicators (set_by_comparison c regs.old.ind) regs.old) }
{
    regs.ind.zero = c.zero;
    regs.ind.negative = c.negative;
    regs.ind.carry = c.carry;
    advance_counter(regs);
}

/// SZN: sets zero and negative for the word, and advances the instruction counter.
#[inline(always)]
#[tactic(auto, unfolding(m36_model::specs::Compares::test_word))]
fn set_zero_and_negative(w: Word, regs: &mut Regs)
    ensures dbr { regs.new.dbr ≡ regs.old.dbr }
    ensures value { Ok (record { regs = regs.new; put = []; overflow = false })
        ≡ test_word w regs.old }
{
    set_word_indicators(w, regs);
    advance_counter(regs);
}

/// Executes a frequent instruction that reads a word, and returns whether it overflows. None, only
/// if `quiet`: the instruction would give an overflow fault, and nothing has changed.
#[inline(always)]
#[tactic(auto, unfolding(m36_model::specs::Effect::exec, m36_model::specs::Sums::add, m36_model::specs::Sums::subtract, m36_model::specs::Compares::compare, m36_model::specs::Logic::and_register, m36_model::specs::Logic::or_register, m36_model::specs::Logic::xor_register, m36_model::specs::Loads::load))]
fn try_read(effect: Effect, reg: u8, regs: &mut Regs, w: Word, quiet: bool) -> Option<bool>
    requires group { group_of effect ≡ group.Read }
    requires reg { reg < 8 }
    ensures done { IfSome result (λ o. GivesEffect effect reg regs.old (w ∷ []) regs.new [] o) }
    ensures quiet { IfSome result (λ o. (quiet && (o && not regs.new.ind.mask)) ≡ false) }
    ensures none { IfNone result (regs.new ≡ regs.old) }
    ensures asked { IfNone result (IsTrue quiet) }
    ensures dbr { regs.new.dbr ≡ regs.old.dbr }
{
    match effect {
        Effect::Lda => load_a(w, regs),
        Effect::Ldq => load_q(w, regs),
        Effect::LdxN => load_index(reg, Field::<0, 18>::get(w) as u32, regs),
        Effect::LxlN => load_index(reg, Field::<18, 18>::get(w) as u32, regs),
        Effect::Ada => return try_sum_a(add36(accumulator(regs), w, false), quiet, regs),
        Effect::Adq => return try_sum_q(add36(quotient_register(regs), w, false), quiet, regs),
        Effect::Sba => return try_sum_a(sub36(accumulator(regs), w, false), quiet, regs),
        Effect::Sbq => return try_sum_q(sub36(quotient_register(regs), w, false), quiet, regs),
        Effect::Cmpa => set_comparison_indicators(cmp36(accumulator(regs), w), regs),
        Effect::Cmpq => set_comparison_indicators(cmp36(quotient_register(regs), w), regs),
        Effect::Szn => set_zero_and_negative(w, regs),
        Effect::Ana => load_a(and36(accumulator(regs), w), regs),
        Effect::Anq => load_q(and36(quotient_register(regs), w), regs),
        Effect::Ora => load_a(or36(accumulator(regs), w), regs),
        Effect::Orq => load_q(or36(quotient_register(regs), w), regs),
        Effect::Era => load_a(xor36(accumulator(regs), w), regs),
        Effect::Erq => load_q(xor36(quotient_register(regs), w), regs),
        _ => unreachable!(),
    }
    Some(false)
}

/// Executes a frequent instruction that reads a word. False: it would give an overflow fault, and
/// nothing has changed.
#[inline(always)]
pub fn read_word(effect: Effect, reg: u8, regs: &mut Regs, w: Word) -> bool
    requires group { group_of effect ≡ group.Read }
    requires reg { reg < 8 }
    ensures done { IsTrue result → (f : FinalFields)
        → IsQuietEffect regs.new [] (exec effect reg regs.old f (operand_of_word w)) }
    ensures not { IsFalse result → regs.new ≡ regs.old }
    ensures dbr { regs.new.dbr ≡ regs.old.dbr }
{
    match try_read(effect, reg, regs, w, true) {
        Some(_) => true,
        None => false,
    }
}

/// As `read_word`, but also completes on overflow. Returns whether the instruction overflows.
pub fn read_word_with_overflow(effect: Effect, reg: u8, regs: &mut Regs, w: Word) -> bool
    requires group { group_of effect ≡ group.Read }
    requires reg { reg < 8 }
    ensures value { GivesEffect effect reg regs.old (w ∷ []) regs.new [] result }
    ensures dbr { regs.new.dbr ≡ regs.old.dbr }
{
    match try_read(effect, reg, regs, w, false) {
        Some(overflow) => overflow,
        None => unreachable!(),
    }
}

/// Executes STA, STQ or STZ, and returns the word to write.
#[inline(always)]
#[tactic(auto, unfolding(m36_model::specs::Effect::exec, m36_model::specs::Stores::store, m36_model::specs::Stores::store_zero))]
pub fn store_word(effect: Effect, regs: &mut Regs) -> Word
    requires { group_of effect ≡ group.Store }
    ensures value { (n : ℕ) (f : FinalFields)
        → Ok (record { regs = regs.new; put = result ∷ []; overflow = false })
        ≡ exec effect n regs.old f no_operand }
    ensures dbr { regs.new.dbr ≡ regs.old.dbr }
{
    let word = match effect {
        Effect::Sta => accumulator(regs),
        Effect::Stq => quotient_register(regs),
        Effect::Stz => Word::ZERO,
        _ => unreachable!(),
    };
    advance_counter(regs);
    word
}

/// Executes STX or SXL, and returns the half to write, in the low 18 bits of a word.
#[inline(always)]
#[tactic(auto, unfolding(m36_model::specs::Effect::exec, m36_model::specs::Stores::store))]
pub fn store_half(effect: Effect, reg: u8, regs: &mut Regs) -> Word
    requires group { (group_of effect ≡ group.Upper) ⊎ (group_of effect ≡ group.Lower) }
    requires reg { reg < 8 }
    ensures value { (f : FinalFields)
        → Ok (record { regs = regs.new; put = result ∷ []; overflow = false })
        ≡ exec effect reg regs.old f no_operand }
    ensures half { result < 2 ^ 18 }
    ensures dbr { regs.new.dbr ≡ regs.old.dbr }
{
    let half = match effect {
        Effect::StxN => regs.x[reg as usize],
        Effect::SxlN => regs.x[reg as usize],
        _ => unreachable!(),
    };
    advance_counter(regs);
    Word::low(half as u64)
}

/// Executes a frequent instruction that reads and writes a word, and returns the sum to write,
/// with its overflow. None, only if `quiet`: the instruction would give an overflow fault, and
/// nothing has changed.
#[inline(always)]
#[tactic(auto, unfolding(m36_model::specs::Effect::exec, m36_model::specs::Sums::add_one_to_storage, m36_model::specs::Sums::add_to_storage))]
fn try_change(effect: Effect, regs: &mut Regs, w: Word, quiet: bool) -> Option<Sum36>
    requires { group_of effect ≡ group.Change }
    ensures done { IfSome result (λ s. (n : ℕ)
        → GivesEffect effect n regs.old (w ∷ []) regs.new (s.value ∷ []) s.overflow) }
    ensures quiet { IfSome result (λ s. (quiet && (s.overflow && not regs.new.ind.mask)) ≡ false) }
    ensures none { IfNone result (regs.new ≡ regs.old) }
    ensures asked { IfNone result (IsTrue quiet) }
    ensures dbr { regs.new.dbr ≡ regs.old.dbr }
{
    match effect {
        Effect::Aos => try_sum_word(add36(w, Word::low(1), false), quiet, regs),
        Effect::Asa => try_sum_word(add36(accumulator(regs), w, false), quiet, regs),
        Effect::Asq => try_sum_word(add36(quotient_register(regs), w, false), quiet, regs),
        _ => unreachable!(),
    }
}

/// Executes a frequent instruction that reads and writes a word, and returns the word to write.
/// None: the instruction would give an overflow fault, and nothing has changed.
#[inline(always)]
pub fn change_word(effect: Effect, regs: &mut Regs, w: Word) -> Option<Word>
    requires { group_of effect ≡ group.Change }
    ensures done { IfSome result (λ v. (n : ℕ) (f : FinalFields)
        → IsQuietEffect regs.new (v ∷ []) (exec effect n regs.old f (operand_of_word w))) }
    ensures none { IfNone result (regs.new ≡ regs.old) }
    ensures dbr { regs.new.dbr ≡ regs.old.dbr }
{
    match try_change(effect, regs, w, true) {
        Some(s) => Some(s.value),
        None => None,
    }
}

/// As `change_word`, but also completes on overflow. Returns the sum to write, with its overflow.
pub fn change_word_with_overflow(effect: Effect, regs: &mut Regs, w: Word) -> Sum36
    requires { group_of effect ≡ group.Change }
    ensures value { (n : ℕ)
        → GivesEffect effect n regs.old (w ∷ []) regs.new (result.value ∷ []) result.overflow }
    ensures dbr { regs.new.dbr ≡ regs.old.dbr }
{
    match try_change(effect, regs, w, false) {
        Some(s) => s,
        None => unreachable!(),
    }
}

/// Executes EAA, EAQ or EAX: loads the word number of the final address, into the upper half of A
/// or Q, or into an index register. It never overflows.
#[inline(always)]
#[tactic(auto, unfolding(m36_model::specs::Effect::exec))]
pub fn load_address(effect: Effect, reg: u8, regs: &mut Regs, f: &Final)
    requires group { group_of effect ≡ group.Address }
    requires reg { reg < 8 }
    ensures value { Ok (record { regs = regs.new; put = []; overflow = false })
        ≡ exec effect reg regs.old f.now no_operand }
    ensures dbr { regs.new.dbr ≡ regs.old.dbr }
{
    let at = f.at;
    match effect {
        Effect::Eaa => load_a(Word::low((at.word as u64) << 18), regs),
        Effect::Eaq => load_q(Word::low((at.word as u64) << 18), regs),
        Effect::EaxN => load_index(reg, at.word, regs),
        _ => unreachable!(),
    }
}
