//! The booted system.

ghost use Rattle.std.specs.Prelude.{◌≡◌, ◌<◌, ◌≤◌, length, false};
ghost use Rattle.m36_link.specs.Laws.{IsConsistent};
ghost use Rattle.m36_step.specs.Ended.{empty_record_of};
ghost use Rattle.m36_super.specs.BootedRun.{link_turn};
ghost use Rattle.m36_super.specs.HurriedSteps.{AreStepsWithNext, after_steps};
ghost use Rattle.m36_super.specs.SuperFields.{booted_of, IsRunning, NoServiceAfterLdbr};
ghost use Rattle.m36_super.specs.SuperTurn.{SuperTurns};

use crate::console::print;
use crate::content::flat_content;
use crate::linking::{link, link_turn};
use crate::next_event::NextEvent;
use crate::stepping::step_told;
use m36_core::Core;
use m36_dir::Catalog;
use m36_link::{File, Known};
use m36_model::{At, Regs, StepRecord};
use m36_page::Pager;
use m36_step::{BackAnswer, LinkNote, Machine, Stepper, Turn};
use m36_word::{NoMemory, Word};
use std::alloc::Global;
use std::marker::Model;

/// A booted system: a processor with its core, the pages of all segments, the results of link
/// services, and the catalog with the files of its segments. Its model is these parts and what its
/// next turn is.
#[derive(Drop)]
pub struct Super {
    machine: Machine,
    pager: Pager,
    known: Known,
    catalog: Catalog,
    files: Vec<File>,
    next_event: NextEvent,
    // Whether an LDBR has been executed.
    loaded: bool,
    alloc: Global,
}

impl Model for Super {
    ghost use Rattle.m36_super.specs.SuperFields.{SuperFields, IsSuper};

    ghost Value = { SuperFields };

    ghost view = { λ s. record {
      lib = record { catalog = s.catalog; files = s.files.items };
      regs = s.machine.state.regs;
      core = s.machine.state.store;
      pager = s.pager;
      known = s.known;
      next_event = s.next_event;
      loaded = s.loaded;
    } };

    ghost invariant = { λ s. IsSuper (record {
      lib = record { catalog = s.catalog; files = s.files.items };
      regs = s.machine.state.regs;
      core = s.machine.state.store;
      pager = s.pager;
      known = s.known;
      next_event = s.next_event;
      loaded = s.loaded;
    }) };
}

impl Super {
    /// The system at its start, from the parts of a booted image: the next turn is a step, and no
    /// LDBR has been executed.
    pub(crate) fn system_at_start(
        alloc: Global,
        machine: Machine,
        pager: Pager,
        known: Known,
        catalog: Catalog,
        files: Vec<File>,
    ) -> Super
        requires files { length files.items ≡ length catalog.segments }
        requires frames { length pager.holders ≡ catalog.frames }
        requires runs { IsRunning (length pager.holders) machine.state.regs machine.state.store
            pager }
        requires made { IsConsistent catalog files.items known }
        ensures { result
            ≡ record {
              lib = record { catalog = catalog; files = files.items };
              regs = machine.state.regs;
              core = machine.state.store;
              pager = pager;
              known = known;
              next_event = NextEvent.Step;
              loaded = false;
            } }
    {
        Super {
            machine,
            pager,
            known,
            catalog,
            files,
            next_event: NextEvent::Step,
            loaded: false,
            alloc,
        }
    }

    /// The catalog.
    pub fn catalog(&self) -> &Catalog
        ensures { result.now ≡ self.now.lib.catalog }
    {
        &self.catalog
    }

    /// The current core.
    pub fn core(&self) -> &Core
        ensures { result.now ≡ self.now.core }
    {
        self.machine.walk().core()
    }

    /// What the next turn is.
    pub fn next_event(&self) -> NextEvent
        ensures value { result ≡ self.now.next_event }
        ensures due { NoServiceAfterLdbr self.now.next_event self.now.loaded }
    {
        self.next_event
    }

    /// An empty record with the current registers, for `step_told` to overwrite.
    pub fn empty_record(&self) -> StepRecord
        ensures { result ≡ empty_record_of self.now.regs }
    {
        self.machine.empty_record()
    }

    /// Takes the turn, which is a step, and overwrites `told` with its record.
    #[tactic(auto, using(crate::proofs::SystemTurns::step_is_turn))]
    pub fn step_told(&mut self, told: &mut StepRecord)
        requires { self.old.next_event ≡ NextEvent.Step }
        ensures { SuperTurns self.old (Turn.Stepped told.new) self.new }
    {
        let Super {
            machine,
            pager,
            next_event,
            loaded,
            ..
        } = self;
        step_told(machine, pager, next_event, loaded, told);
    }

    /// Takes at most `most` steps, as long as the next one is quick (see `Machine::hurry`): it lacks
    /// no page, and a step follows it. Returns the number of steps taken. They are not recorded.
    pub fn hurry(&mut self, most: u32) -> u32
        requires { self.old.next_event ≡ NextEvent.Step }
        ensures few { result ≤ most }
        ensures state { self.new ≡ after_steps result self.old }
        ensures turns { AreStepsWithNext self.old.lib (booted_of self.old) result
            (booted_of self.new) }
    {
        let Super { machine, .. } = self;
        machine.hurry(most)
    }

    // Takes a step. Until an LDBR has been executed, the pages that it lacks are brought in.
    fn step(&mut self) -> Turn
        requires { self.old.next_event ≡ NextEvent.Step }
        ensures { SuperTurns self.old result self.new }
    {
        let mut told = self.empty_record();
        self.step_told(&mut told);
        Turn::Stepped(told)
    }

    /// Takes the turn that is the service of a link at a place: returns its note. Fails only with
    /// `NoMemory`.
    #[tactic(auto, using(crate::proofs::SystemTurns::due_at))]
    pub fn serve_link(&mut self, at: At) -> Result<LinkNote, NoMemory>
        requires { self.old.next_event ≡ NextEvent.Link at }
        ensures { SuperTurns self.old (link_turn result) self.new }
    {
        let _next_event = self.next_event();
        self.link(at)
    }

    // Takes a turn that is the service of the link at this address. Fails only with `NoMemory`, and
    // then changes nothing.
    #[tactic(auto, using(crate::proofs::SystemTurns::link_is_turn))]
    fn link(&mut self, at: At) -> Result<LinkNote, NoMemory>
        requires next_event { self.old.next_event ≡ NextEvent.Link at }
        requires runs { self.old.loaded ≡ false }
        ensures { SuperTurns self.old (link_turn result) self.new }
    {
        let Super {
            machine,
            pager,
            known,
            catalog,
            files,
            next_event,
            alloc,
            ..
        } = self;
        link(
            *alloc, catalog, files, machine, pager, known, next_event, at,
        )
    }

    // Takes a turn that is a console service; the run ends if the service is refused.
    #[tactic(auto, using(crate::proofs::SystemTurns::print_is_turn))]
    fn print(&mut self) -> Turn
        requires next_event { self.old.next_event ≡ NextEvent.Print }
        requires runs { self.old.loaded ≡ false }
        ensures { SuperTurns self.old result self.new }
    {
        let Super {
            machine,
            pager,
            next_event,
            ..
        } = self;
        print(machine, pager, next_event)
    }

    // Takes the next turn, which is of this kind.
    #[tactic(auto, using(crate::proofs::SystemTurns::system_turns))]
    fn turn_of(&mut self, next_event: NextEvent) -> Turn
        requires next_event { next_event ≡ self.old.next_event }
        requires due { NoServiceAfterLdbr next_event self.old.loaded }
        ensures { SuperTurns self.old result self.new }
    {
        match next_event {
            NextEvent::Step => self.step(),
            NextEvent::Link(at) => link_turn(self.link(at)),
            NextEvent::Print => self.print(),
            NextEvent::Over(end) => Turn::Ended(end),
        }
    }

    // Takes a turn that is not a step, or a step with no record to overwrite.
    #[cold]
    #[inline(never)]
    fn turn_without_record(&mut self, turn: &mut Turn)
        ensures { SuperTurns self.old turn.new self.new }
    {
        let next_event = self.next_event();
        *turn = self.turn_of(next_event);
    }
}

impl Stepper for Super {
    ghost use Rattle.m36_super.specs.SuperTurn.{SuperTurns, SuperBack, super_content};
    ghost use Rattle.m36_super.specs.SuperTurn.{super_stays, super_apart, super_interrupted};

    ghost next = { λ before turn later. SuperTurns before turn later };

    ghost went = { λ before n answer later. SuperBack before n answer later };

    ghost regs = { λ s. s.regs };

    ghost content = { super_content };

    /// A step, for which the pages that it lacks are brought in; or the service that the step
    /// before it calls for; or the end.
    #[inline]
    fn turn_into(&mut self, turn: &mut Turn) {
        if let NextEvent::Step = self.next_event
            && let Turn::Stepped(told) = turn
        {
            self.step_told(told);
        } else {
            self.turn_without_record(turn);
        }
    }

    /// A booted system cannot go back.
    fn back(&mut self, _n: u32) -> BackAnswer {
        BackAnswer::Unable
    }

    fn regs(&self) -> &Regs {
        self.machine.regs()
    }

    /// Until an LDBR has been executed, the words of absent pages are found too.
    #[tactic(auto, unfolding(crate::specs::SuperTurn::super_content))]
    fn content(&self, seg: u16, word: u32) -> Option<Word> {
        if self.loaded {
            self.machine.walk().content(seg, word)
        } else {
            flat_content(&self.machine, &self.pager, seg, word)
        }
    }

    ghost stays = { super_stays };

    ghost apart = { super_apart };

    ghost interrupted = { super_interrupted };
}
