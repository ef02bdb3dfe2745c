//! A machine that goes back.

ghost use Rattle.std.specs.Prelude.{◌≡◌, ◌-◌, ◌<◌, ◌^◌, MatchResult};
ghost use Rattle.m36_step.specs.Counting.{step_count_limit, step_count_after};

use crate::kept::{Kept, copy_nearest, drop_later, keep};
use crate::replaying::replay;
use m36_model::Regs;
use m36_step::{BackAnswer, Replay, Stepper, Turn};
use m36_word::Word;
use std::alloc::Global;
use std::marker::Model;

/// The mask of the first distance: a state is kept every 1,024 steps.
const FIRST_MASK: u64 = 1024 - 1;

/// A machine that can go back. Its model is its first state and the count of steps that were taken
/// from there and not taken back.
#[derive(Drop)]
pub struct Past<M: Replay> {
    alloc: Global,
    first: M,
    machine: M,
    taken: u64,
    kept: Vec<Kept<M>>,
    // A state is kept if its number has no bit of the mask.
    mask: u64,
}

impl<M: Replay> Model for Past<M> {
    ghost use Rattle.m36_back.specs.History.{History};
    ghost use Rattle.m36_back.specs.Kept.{PastInvariant};

    ghost Value = { History M };

    ghost view = { λ p. record { first = p.first; taken = p.taken } };

    ghost invariant = { λ p. PastInvariant M.after p.first p.machine p.taken p.kept.items };
}

impl<M: Replay + Drop> Past<M> {
    /// A machine that can go back to the current state of `m`. It keeps the allocator. If memory
    /// runs out, the error is the machine `m`.
    #[tactic(auto, using(crate::proofs::KeptLaws::new_history))]
    pub fn new(alloc: Global, m: M) -> Result<Past<M>, M>
        ensures { MatchResult result (λ past. past ≡ record { first = m; taken = 0 })
            (λ back. back ≡ m) }
    {
        match m.copy(alloc) {
            Err(_) => Err(m),
            Ok(first) => Ok(Past {
                alloc,
                first,
                machine: m,
                taken: 0,
                kept: Vec::new(alloc),
                mask: FIRST_MASK,
            }),
        }
    }

    /// The count of steps that were taken and not taken back.
    pub fn taken(&self) -> u64
        ensures { result ≡ self.now.taken }
    {
        self.taken
    }
}

// The count of steps after a turn: one more if the turn is a step.
fn count(taken: u64, turn: &Turn) -> u64
    requires { taken < step_count_limit }
    ensures { result ≡ step_count_after taken turn.now }
{
    match turn {
        Turn::Stepped(_) => taken + 1,
        _ => taken,
    }
}

impl<M: Replay + Drop> Stepper for Past<M> {
    ghost use Rattle.m36_back.specs.History.{current_state, PastTurns, MayGoBack};
    ghost use Rattle.m36_back.specs.PastLaws.{past_stays, past_apart, past_interrupted};

    ghost next = { λ before turn later. PastTurns M.answer M.after before turn later };

    ghost went = { λ before n answer later. MayGoBack before n answer later };

    ghost regs = { λ h. M.regs (current_state M.after h) };

    ghost content = { λ h seg word. M.content (current_state M.after h) seg word };

    /// A turn of the machine inside. Answers Full exactly if the count is 2^64 - 1, and then
    /// changes nothing.
    #[inline]
    fn turn_into(&mut self, turn: &mut Turn) {
        if self.taken == u64::MAX {
            *turn = Turn::Full;
            return;
        }
        self.machine.turn_into(turn);
        self.taken = count(self.taken, turn);
        if let Turn::Stepped(_) = turn {
            self.mask = keep(
                self.alloc,
                &mut self.kept,
                &self.machine,
                self.taken,
                self.mask,
            );
        }
    }

    /// Goes back by n steps. Answers Before exactly if fewer steps were taken. Nothing changes
    /// unless it answers Done.
    fn back(&mut self, n: u32) -> BackAnswer {
        let n = n as u64;
        if self.taken < n {
            return BackAnswer::Before(self.taken);
        }
        let target = self.taken - n;
        match copy_nearest(self.alloc, &self.first, &self.kept, target) {
            Err(_) => BackAnswer::NoMemory,
            Ok(Kept { at, state }) => {
                let mut machine = state;
                replay(&mut machine, target - at);
                self.machine = machine;
                self.taken = target;
                drop_later(&mut self.kept, target);
                BackAnswer::Done
            }
        }
    }

    fn regs(&self) -> &Regs {
        self.machine.regs()
    }

    fn content(&self, seg: u16, word: u32) -> Option<Word> {
        self.machine.content(seg, word)
    }

    ghost stays = { past_stays };

    ghost apart = { past_apart M.answer M.after M.kept };

    ghost interrupted = { past_interrupted M.answer M.after M.kept
        (λ state. M.interrupted state (M.after state) (M.after (M.after state)) (M.answer state)
        (M.answer (M.after state)) (M.possible state) (M.possible (M.after state))) };
}
