//! The machine.

ghost use Rattle.std.specs.Prelude.{ℕ, ◌≡◌, ◌+◌, ◌%◌, ◌^◌, ◌<◌, ◌≤◌, [], None, length, slice_set};
ghost use Rattle.std.specs.Borrow.{sem};
ghost use Rattle.m36_model.specs.Core.{core_store};
ghost use Rattle.m36_model.specs.Laws.{ExecutesLdbr, PreservesAudit};
ghost use Rattle.m36_model.specs.Results.{advanced};
ghost use Rattle.m36_model.specs.Shown.{shown_of};
ghost use Rattle.m36_model.specs.Step.{program, record_of, state_after};
ghost use Rattle.m36_step.specs.Ended.{EndsAs, end_in_record, empty_record_of};
ghost use Rattle.m36_step.specs.Hurry.{state_after_steps};
ghost use Rattle.m36_step.specs.MachineTurn.{MachineTurns, end_by_outcome};
ghost use Rattle.m36_step.specs.Shown.{empty_shown};
ghost use Rattle.m36_model.specs.declared.outcome.Outcome.TheVariants.{Next};

use crate::execute::execute;
use crate::hurry::run_quick_steps;
use crate::quick::try_quick_step;
use crate::recording::record_end;
use crate::shown::take_shown_step;
use crate::stepper::{Replay, Stepper};
use crate::turns::{BackAnswer, Turn};
use m36_core::Core;
use m36_isol::law_audit_preserved;
use m36_model::{End, Outcome, Refs, Regs, Shown, StepRecord};
use m36_walk::Walk;
use m36_word::{NoMemory, Word};
use std::alloc::Global;
use std::marker::Model;

/// A machine: core memory, the registers of a processor, and how its run of turns has ended, if it
/// has. The walk finds segments by the descriptor segment base register of these registers. Steps
/// ignore how the run has ended; turns check it.
#[derive(Drop)]
pub struct Machine {
    walk: Walk,
    regs: Regs,
    ended: Option<End>,
}

impl Model for Machine {
    ghost use Rattle.std.specs.Prelude.{◌≡◌};
    ghost use Rattle.m36_step.specs.MachineFields.{MachineFields};

    ghost Value = { MachineFields };

    ghost view = { λ m. record {
      state = record { regs = m.regs; store = m.walk.core };
      ended = m.ended;
    } };

    ghost invariant = { λ m. m.walk.dbr ≡ m.regs.dbr };
}

/// Takes a step in the general way, and records it without the place of the instruction and the
/// registers after it.
#[inline(never)]
fn record_general_step(walk: &mut Walk, regs: &mut Regs, told: &mut StepRecord)
    requires dbr { walk.old.dbr ≡ regs.old.dbr }
    ensures ends { EndsAs regs.old (program regs.old) walk.old.core [] walk.new.core
        told.new.refs.items regs.new (end_in_record told.new) }
    ensures ppr { told.new.ppr ≡ told.old.ppr }
    ensures dbr { walk.new.dbr ≡ regs.new.dbr }
{
    told.refs.clear();
    let ended = execute(walk, regs, &mut told.refs);
    record_end(told, &ended);
}

/// Takes one step, and records it without the place of the instruction and the registers after it.
#[inline(always)]
fn record_step(walk: &mut Walk, regs: &mut Regs, told: &mut StepRecord)
    requires dbr { walk.old.dbr ≡ regs.old.dbr }
    ensures ends { EndsAs regs.old (program regs.old) walk.old.core [] walk.new.core
        told.new.refs.items regs.new (end_in_record told.new) }
    ensures ppr { told.new.ppr ≡ told.old.ppr }
    ensures dbr { walk.new.dbr ≡ regs.new.dbr }
{
    told.refs.clear();
    if try_quick_step(walk, regs, told) {
        return;
    }
    record_general_step(walk, regs, told)
}

/// Copies the registers field by field. LLVM would copy a struct of this size by a call.
#[inline(always)]
fn copy_registers(from: &Regs, to: &mut Regs)
    ensures copied { to.new ≡ from.now }
{
    to.a = from.a;
    to.q = from.q;
    to.x = from.x;
    to.pr = from.pr;
    to.dbr = from.dbr;
    to.ppr = from.ppr;
    to.ind = from.ind;
}

/// Takes one step, and overwrites `told` with its record. The walk and the registers have the same
/// descriptor segment base register.
fn take_step(walk: &mut Walk, regs: &mut Regs, told: &mut StepRecord)
    requires dbr { walk.old.dbr ≡ regs.old.dbr }
    ensures told { told.new
        ≡ record_of core_store (record { regs = regs.old; store = walk.old.core }) }
    ensures state { record { regs = regs.new; store = walk.new.core }
        ≡ state_after core_store (record { regs = regs.old; store = walk.old.core }) }
    ensures dbr { walk.new.dbr ≡ regs.new.dbr }
{
    told.ppr = regs.ppr;
    record_step(walk, regs, told);
    copy_registers(regs, &mut told.after);
}

/// An empty record, to be overwritten.
fn empty_record(regs: &Regs) -> StepRecord
    ensures { result ≡ empty_record_of regs.now }
{
    StepRecord {
        refs: Refs::new(),
        after: *regs,
        word: None,
        at: None,
        outcome: Outcome::Next,
        ppr: regs.ppr,
    }
}

impl Machine {
    ghost use Rattle.m36_step.specs.Lending.{LendsCore};

    /// A machine with this core and these registers. Both have the same descriptor segment base
    /// register.
    pub fn new(walk: Walk, regs: Regs) -> Machine
        requires { walk.dbr ≡ regs.dbr }
        ensures state { result.state ≡ record { regs = regs; store = walk.core } }
        ensures ended { result.ended ≡ None }
    {
        Machine {
            walk,
            regs,
            ended: None,
        }
    }

    /// A machine with this core, which is moved and not copied, and these registers.
    pub fn start(core: Core, regs: Regs) -> Machine
        ensures state { result.state ≡ record { regs = regs; store = core } }
        ensures ended { result.ended ≡ None }
    {
        Machine::new(Walk::new(core, regs.dbr), regs)
    }

    /// Takes one step, and returns its record. If the audit conditions hold before a step that
    /// executes no LDBR, they hold after it.
    pub fn step(&mut self) -> StepRecord
        ensures told { result ≡ record_of core_store self.old.state }
        ensures state { self.new.state ≡ state_after core_store self.old.state }
        ensures ended { self.new.ended ≡ self.old.ended }
        ensures kept { PreservesAudit self.old.state self.new.state
            (record_of core_store self.old.state) }
    {
        let mut told = self.empty_record();
        self.step_into(&mut told);
        told
    }

    /// Takes one step, and overwrites `told` with its record. So a run needs only one record, and
    /// its list of references is neither created nor copied in a step.
    #[inline]
    pub fn step_into(&mut self, told: &mut StepRecord)
        ensures told { told.new ≡ record_of core_store self.old.state }
        ensures state { self.new.state ≡ state_after core_store self.old.state }
        ensures ended { self.new.ended ≡ self.old.ended }
        ensures kept { PreservesAudit self.old.state self.new.state
            (record_of core_store self.old.state) }
    {
        law_audit_preserved();
        let Machine { walk, regs, .. } = self;
        take_step(walk, regs, told)
    }

    /// Takes one step, and records only what its trace line shows, besides the registers after it.
    #[inline]
    pub fn step_shown(&mut self, shown: &mut Shown)
        ensures shown { shown.new ≡ shown_of (record_of core_store self.old.state) }
        ensures after { self.new.state.regs ≡ (record_of core_store self.old.state).after }
        ensures state { self.new.state ≡ state_after core_store self.old.state }
        ensures ended { self.new.ended ≡ self.old.ended }
    {
        let Machine { walk, regs, .. } = self;
        take_shown_step(walk, regs, shown)
    }

    /// An empty value for `step_shown` to overwrite.
    pub fn empty_shown(&self) -> Shown
        ensures { result ≡ empty_shown self.now.state.regs }
    {
        Shown {
            word: None,
            at: None,
            outcome: Outcome::Next,
            ppr: self.regs.ppr,
        }
    }

    /// Takes at most `most` steps, as long as the next one is quick: pages in front answer all its
    /// references, nothing refuses it, and the next instruction follows. Returns the number of
    /// steps taken. They are not recorded, and none of them executes an LDBR.
    #[inline]
    pub fn hurry(&mut self, most: u32) -> u32
        ensures few { result ≤ most }
        ensures state { self.new.state ≡ state_after_steps result self.old.state }
        ensures on { (n : ℕ) → n < result
            → (record_of core_store (state_after_steps n self.old.state)).outcome ≡ Next }
        ensures plain { (n : ℕ) → n < result
            → ExecutesLdbr (record_of core_store (state_after_steps n self.old.state)) → ⊥ }
        ensures ended { self.new.ended ≡ self.old.ended }
    {
        let Machine { walk, regs, .. } = self;
        run_quick_steps(walk, regs, most)
    }

    /// Stores how a step ended the run, if it did. The run of turns had not ended before.
    #[inline]
    fn store_end(&mut self, outcome: Outcome)
        requires { self.old.ended ≡ None }
        ensures state { self.new.state ≡ self.old.state }
        ensures ended { self.new.ended ≡ end_by_outcome outcome }
    {
        match outcome {
            Outcome::Next => {}
            Outcome::Faulted(fault) => self.ended = Some(End::Fault(fault)),
            Outcome::Stopped(stop) => self.ended = Some(End::Stop(stop)),
        }
    }

    /// Takes a turn that is not a step, or a step with no record to overwrite.
    #[cold]
    #[inline(never)]
    #[tactic(auto, unfolding(crate::specs::MachineTurn::machine_turn, crate::specs::MachineTurn::machine_after))]
    fn turn_without_record(&mut self, turn: &mut Turn)
        ensures { MachineTurns self.old turn.new self.new }
    {
        *turn = match self.ended {
            Some(end) => Turn::Ended(end),
            None => {
                let told = self.step();
                self.store_end(told.outcome);
                Turn::Stepped(told)
            }
        };
    }

    /// An empty record with the current registers, for `step_into` to overwrite.
    pub fn empty_record(&self) -> StepRecord
        ensures { result ≡ empty_record_of self.now.state.regs }
    {
        empty_record(&self.regs)
    }

    /// Skips the current instruction: the instruction counter increases by 1, modulo 2^18.
    #[tactic(auto, unfolding(m36_model::specs::Results::advanced))]
    pub fn skip(&mut self)
        ensures state { self.new.state
            ≡ record { regs = advanced self.old.state.regs; store = self.old.state.store } }
        ensures ended { self.new.ended ≡ self.old.ended }
    {
        let ic = self.regs.ppr.ic;
        self.regs.ppr.ic = (ic + 1) % (1 << 18);
    }

    /// Exchanges the registers with others, to run another process on the same core. Segments are
    /// then found by the descriptor segment base register of the new registers.
    pub fn swap(&mut self, regs: &mut Regs)
        ensures state { self.new.state ≡ record { regs = regs.old; store = self.old.state.store } }
        ensures ended { self.new.ended ≡ self.old.ended }
        ensures regs { regs.new ≡ self.old.state.regs }
    {
        let before = self.regs;
        let taken = *regs;
        self.walk.set_dbr(taken.dbr);
        self.regs = taken;
        *regs = before;
    }

    /// The current registers.
    pub fn regs(&self) -> &Regs
        ensures { result.now ≡ self.now.state.regs }
    {
        &self.regs
    }

    /// The current core, with the descriptor segment base register.
    pub fn walk(&self) -> &Walk
        ensures { result.now
            ≡ record { core = self.now.state.store; dbr = self.now.state.regs.dbr } }
    {
        &self.walk
    }

    /// Writes one core word.
    pub fn store(&mut self, place: u32, w: Word)
        requires { place < length self.old.state.store }
        ensures state { self.new.state
            ≡ record { regs = self.old.state.regs; store = slice_set self.old.state.store place w } }
        ensures ended { self.new.ended ≡ self.old.ended }
    {
        self.walk.store(place, w);
    }

    /// Core, for writing. Drops what was cached of it.
    pub fn core_mut(&mut self) -> &mut Core
        ensures* lends { sem 𝓛 (LendsCore self.entry result) }
        ensures value { result.now ≡ self.old.state.store }
    {
        self.walk.core_mut()
    }
}

impl Stepper for Machine {
    ghost use Rattle.m36_model.specs.Core.{core_store};
    ghost use Rattle.m36_model.specs.Sight.{content};
    ghost use Rattle.m36_step.specs.MachineTurn.{MachineTurns, MachineWent};
    ghost use Rattle.m36_step.specs.MachineTurn.{machine_stays, machine_apart, machine_interrupted};

    ghost next = { λ before turn later. MachineTurns before turn later };

    ghost went = { λ before n answer later. MachineWent before n answer later };

    ghost regs = { λ m. m.state.regs };

    ghost content = { λ m seg word. content core_store m.state seg word };

    /// A step, until one has ended the run; from then on each turn reports the end and changes
    /// nothing.
    #[inline]
    #[tactic(auto, unfolding(crate::specs::MachineTurn::machine_turn, crate::specs::MachineTurn::machine_after))]
    fn turn_into(&mut self, turn: &mut Turn) {
        if let None = self.ended
            && let Turn::Stepped(told) = turn
        {
            self.step_into(told);
            self.store_end(told.outcome);
        } else {
            self.turn_without_record(turn);
        }
    }

    /// A machine cannot go back.
    fn back(&mut self, _n: u32) -> BackAnswer {
        BackAnswer::Unable
    }

    fn regs(&self) -> &Regs {
        &self.regs
    }

    fn content(&self, seg: u16, word: u32) -> Option<Word> {
        self.walk.content(seg, word)
    }

    ghost stays = { machine_stays };

    ghost apart = { machine_apart };

    ghost interrupted = { machine_interrupted };
}

impl Replay for Machine {
    ghost use Rattle.m36_step.specs.MachineTurn.{machine_turn, machine_after, machine_possible, machine_kept};

    ghost answer = { machine_turn };

    ghost after = { machine_after };

    fn copy(&self, alloc: Global) -> Result<Machine, NoMemory> {
        Ok(Machine {
            walk: self.walk.copy(alloc)?,
            regs: self.regs,
            ended: self.ended,
        })
    }

    fn hurry(&mut self, most: u32) -> u32 {
        if let None = self.ended {
            return self.hurry(most);
        }
        0
    }

    ghost turns = { λ before turn later h. h };

    ghost possible = { machine_possible };

    ghost kept = { machine_kept };
}
