//! Steps of which only what a trace line shows is recorded: the word, the final address, the
//! outcome and the place of the instruction.

ghost use Rattle.std.specs.Prelude.{◌≡◌, ◌<◌, ◌≤◌, [], ◌∷◌, ◌++◌};
ghost use Rattle.m36_model.specs.Core.{core_store};
ghost use Rattle.m36_model.specs.Shown.{shown_of};
ghost use Rattle.m36_model.specs.Step.{record_of, state_after};
ghost use Rattle.m36_step.specs.Shown.{EndsShown, shown_end};

use crate::execute::execute;
use crate::quick::try_quick_step;
use crate::recorder::Recorder;
use m36_model::{At, Final, Kind, Outcome, Refs, Regs, Shown};
use m36_walk::Walk;
use m36_word::Word;

impl Recorder for Shown {
    ghost use Rattle.std.specs.Prelude.{◌≡◌};
    ghost use Rattle.m36_step.specs.Shown.{shown_end};

    ghost taken = { λ _. 0 };

    ghost place = { λ shown. shown.ppr };

    ghost has = { λ _ _. Unit {0} };

    ghost tells = { λ shown _ e. shown_end shown ≡ e };

    #[inline(always)]
    fn refer(&mut self, _kind: Kind, _at: At, _count: u8) {}

    #[inline(always)]
    fn end(&mut self, word: Word, last: &Final) {
        self.word = Some(word);
        self.at = Some(*last);
        self.outcome = Outcome::Next;
    }
}

/// Takes a step in the general way, and records it without the place of its instruction.
#[inline(never)]
fn show_general_step(walk: &mut Walk, regs: &mut Regs, shown: &mut Shown)
    requires dbr { walk.old.dbr ≡ regs.old.dbr }
    ensures ends { EndsShown regs.old walk.old.core walk.new.core regs.new (shown_end shown.new) }
    ensures ppr { shown.new.ppr ≡ shown.old.ppr }
    ensures dbr { walk.new.dbr ≡ regs.new.dbr }
{
    let mut refs = Refs::new();
    let ended = execute(walk, regs, &mut refs);
    shown.word = ended.word;
    shown.at = ended.at;
    shown.outcome = ended.outcome;
}

/// Takes one step, and records it without the place of its instruction.
#[inline(always)]
fn show_step(walk: &mut Walk, regs: &mut Regs, shown: &mut Shown)
    requires dbr { walk.old.dbr ≡ regs.old.dbr }
    ensures ends { EndsShown regs.old walk.old.core walk.new.core regs.new (shown_end shown.new) }
    ensures ppr { shown.new.ppr ≡ shown.old.ppr }
    ensures dbr { walk.new.dbr ≡ regs.new.dbr }
{
    if try_quick_step(walk, regs, shown) {
        return;
    }
    show_general_step(walk, regs, shown)
}

/// Takes one step, and overwrites `shown` with it. The walk and the registers have the same
/// descriptor segment base register.
pub(crate) fn take_shown_step(walk: &mut Walk, regs: &mut Regs, shown: &mut Shown)
    requires dbr { walk.old.dbr ≡ regs.old.dbr }
    ensures shown { shown.new ≡ shown_of
        (record_of core_store (record { regs = regs.old; store = walk.old.core })) }
    ensures after { regs.new
        ≡ (record_of core_store (record { regs = regs.old; store = walk.old.core })).after }
    ensures state { record { regs = regs.new; store = walk.new.core }
        ≡ state_after core_store (record { regs = regs.old; store = walk.old.core }) }
    ensures dbr { walk.new.dbr ≡ regs.new.dbr }
{
    shown.ppr = regs.ppr;
    show_step(walk, regs, shown)
}
