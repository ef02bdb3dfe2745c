//! Quick steps, one after another, without records.

ghost use Rattle.std.specs.Prelude.{ℕ, ◌≡◌, ◌<◌, ◌≤◌};
ghost use Rattle.m36_model.specs.Core.{core_store};
ghost use Rattle.m36_model.specs.Laws.{ExecutesLdbr};
ghost use Rattle.m36_model.specs.Step.{record_of};
ghost use Rattle.m36_model.specs.declared.outcome.Outcome.TheVariants.{Next};
ghost use Rattle.m36_step.specs.Hurry.{state_after_steps};

use crate::quick::try_quick_step;
use crate::recorder::NoRecord;
use m36_model::Regs;
use m36_walk::Walk;

/// Takes at most `most` steps, as long as the next one is quick. Returns the number of steps
/// taken.
pub(crate) fn run_quick_steps(walk: &mut Walk, regs: &mut Regs, most: u32) -> u32
    requires dbr { walk.old.dbr ≡ regs.old.dbr }
    ensures few { result ≤ most }
    ensures state { record { regs = regs.new; store = walk.new.core }
        ≡ state_after_steps result (record { regs = regs.old; store = walk.old.core }) }
    ensures on { (n : ℕ) → n < result
        → (record_of core_store
        (state_after_steps n (record { regs = regs.old; store = walk.old.core }))).outcome ≡ Next }
    ensures plain { (n : ℕ) → n < result
        → ExecutesLdbr (record_of core_store
        (state_after_steps n (record { regs = regs.old; store = walk.old.core }))) → ⊥ }
    ensures dbr { walk.new.dbr ≡ regs.new.dbr }
{
    let mut untold = NoRecord;
    let mut taken = 0;
    while taken < most {
        if !try_quick_step(walk, regs, &mut untold) {
            return taken;
        }
        taken += 1;
    }
    taken
}
