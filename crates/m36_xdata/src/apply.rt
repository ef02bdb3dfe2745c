//! Applies a change to the registers.

ghost use Rattle.std.specs.Prelude.{◌≡◌, ◌+◌, ◌%◌, ◌^◌};
ghost use Rattle.m36_model.specs.Results.{with_indicators, advanced, words_of_held};
ghost use Rattle.m36_xdata.specs.Changes.{effect_of_change, words_to_write, with_new_values};

use crate::changes::{Change, NewValues, WordsToWrite};
use m36_model::{Held, Ind, Regs};

/// Stores the new value into its registers.
#[tactic(auto, unfolding(m36_model::specs::Results::with_value))]
fn set_registers(new: NewValues, regs: &mut Regs)
    ensures { regs.new ≡ with_new_values new regs.old }
{
    match new {
        NewValues::Nothing => {}
        NewValues::A(w) => regs.a = w,
        NewValues::Q(w) => regs.q = w,
        NewValues::Aq(p) => {
            regs.a = p.even;
            regs.q = p.odd;
        }
        NewValues::X(i) => regs.x[i.n as usize] = i.value,
    }
}

/// Sets the indicators, and advances the instruction counter to the next instruction.
#[tactic(auto, unfolding(m36_model::specs::Results::advanced))]
fn set_indicators_and_advance(ind: Ind, regs: &mut Regs)
    ensures { regs.new ≡ advanced (with_indicators ind regs.old) }
{
    let ic = regs.ppr.ic;
    regs.ind = ind;
    regs.ppr.ic = (ic + 1) % (1 << 18);
}

// The words to write, in the form of a step.
fn held_of(put: WordsToWrite) -> Held
    ensures { words_of_held result ≡ words_to_write put }
{
    match put {
        WordsToWrite::Nothing => Held::Empty,
        WordsToWrite::One(w) => Held::One(w),
        WordsToWrite::Two(p) => Held::Two(p),
    }
}

/// Applies a change to the registers, and advances the instruction counter. The words to write are
/// put into `put`; the caller has to write them, and to report overflow if the result is true.
#[tactic(auto, unfolding(m36_model::specs::Results::advanced, m36_model::specs::Results::with_value))]
#[inline(always)]
pub fn apply_change(c: &Change, regs: &mut Regs, put: &mut Held) -> bool
    ensures value { record { regs = regs.new; put = words_of_held put.new; overflow = result }
        ≡ effect_of_change c.now regs.old }
    ensures put { words_of_held put.new ≡ words_to_write c.now.put }
    ensures dbr { regs.new.dbr ≡ regs.old.dbr }
{
    set_registers(c.taken, regs);
    set_indicators_and_advance(c.ind, regs);
    *put = held_of(c.put);
    c.overflow
}
