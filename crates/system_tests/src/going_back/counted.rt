//! A machine that counts its turns. All its copies share the counter, which is not part of the
//! state.

use m36_model::Regs;
use m36_step::{BackAnswer, Machine, Replay, Stepper, Turn};
use m36_word::{NoMemory, Word};
use std::alloc::Global;
use std::cell::Cell;
use std::marker::Model;

#[derive(Drop)]
pub struct Counted<'a> {
    pub machine: Machine,
    pub turns: &'a Cell<u64>,
}

impl<'a> Model for Counted<'a> {
    ghost use Rattle.m36_step.specs.MachineFields.{MachineFields};

    ghost Value = { MachineFields };

    ghost view = { λ c. c.machine };
}

impl Stepper for Counted<'_> {
    ghost use Rattle.m36_model.specs.Core.{core_store};
    ghost use Rattle.m36_model.specs.Sight.{content};
    ghost use Rattle.m36_step.specs.MachineTurn.{MachineTurns, MachineWent};
    ghost use Rattle.m36_step.specs.MachineTurn.{machine_stays, machine_apart, machine_interrupted};

    ghost next = { λ before turn later. MachineTurns before turn later };

    ghost went = { λ before n answer later. MachineWent before n answer later };

    ghost regs = { λ m. m.state.regs };

    ghost content = { λ m seg word. content core_store m.state seg word };

    fn turn_into(&mut self, turn: &mut Turn) {
        self.turns.set(self.turns.get().wrapping_add(1));
        self.machine.turn_into(turn);
    }

    fn back(&mut self, n: u32) -> BackAnswer {
        self.machine.back(n)
    }

    fn regs(&self) -> &Regs {
        self.machine.regs()
    }

    fn content(&self, seg: u16, word: u32) -> Option<Word> {
        self.machine.content(seg, word)
    }

    ghost stays = { machine_stays };

    ghost apart = { machine_apart };

    ghost interrupted = { machine_interrupted };
}

impl Replay for Counted<'_> {
    ghost use Rattle.m36_step.specs.MachineTurn.{machine_turn, machine_after, machine_possible, machine_kept};

    ghost answer = { machine_turn };

    ghost after = { machine_after };

    fn copy(&self, alloc: Global) -> Result<Self, NoMemory> {
        Ok(Counted {
            machine: self.machine.copy(alloc)?,
            turns: self.turns,
        })
    }

    ghost turns = { λ before turn later h. h };

    ghost possible = { machine_possible };

    ghost kept = { machine_kept };
}
