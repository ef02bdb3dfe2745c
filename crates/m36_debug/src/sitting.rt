//! What a session remembers between its lines.

ghost use Rattle.std.specs.Prelude.{◌≡◌, ◌≤◌, ◌<◌, ◌-◌, ◌^◌};
ghost use Rattle.m36_step.specs.Counting.{step_count_limit};
ghost use Rattle.m36_debug.specs.Session.{next_of};
ghost use Rattle.m36_debug.specs.SessionState.{initial_session_state, session_state_after};
ghost use Rattle.m36_debug.specs.SessionState.{session_state_before, session_state_with_break};
ghost use Rattle.m36_debug.specs.SessionState.{has_taken, has_room};

use crate::commands::{AfterTurn, Break, RunningCommand, after_turn, is_at_break};
use arrayvec::ArrayVec;
use m36_model::{End, Regs};
use m36_step::Turn;
use std::marker::Model;

/// The count of steps that were taken and not taken back, how the run has ended, if it has, and
/// the breaks of `go`.
#[derive(Drop)]
pub(crate) struct SessionState {
    taken: u64,
    ended: Option<End>,
    breaks: ArrayVec<Break, 16>,
}

impl Model for SessionState {
    ghost use Rattle.std.specs.Prelude.{◌<◌, ◌^◌};
    ghost use Rattle.m36_debug.specs.SessionState.{SessionStateFields};

    ghost Value = { SessionStateFields };

    ghost view = { λ s. record { taken = s.taken; ended = s.ended; breaks = s.breaks.items } };

    ghost invariant = { λ s. s.taken < 2 ^ 64 };
}

impl SessionState {
    /// The state at the start of a session.
    pub(crate) fn new() -> SessionState
        ensures { result ≡ initial_session_state }
    {
        SessionState {
            taken: 0,
            ended: None,
            breaks: ArrayVec::new(),
        }
    }

    /// The count of steps that were taken and not taken back.
    pub(crate) fn taken(&self) -> u64
        ensures { result ≡ self.now.taken }
    {
        self.taken
    }

    /// Whether at least n steps were taken.
    pub(crate) fn has_taken(&self, n: u32) -> bool
        ensures { result ≡ has_taken self.now n }
    {
        n as u64 <= self.taken
    }

    /// How the run has ended, if it has ended.
    pub(crate) fn ended(&self) -> Option<End>
        ensures { result ≡ self.now.ended }
    {
        self.ended
    }

    /// What a command does after a turn that left these registers, given the breaks of the session.
    #[inline(always)]
    pub(crate) fn decide_after_turn(
        &self,
        run: RunningCommand,
        regs: &Regs,
        turn: &Turn,
    ) -> AfterTurn
        ensures { result ≡ next_of regs.now self.now run turn.now }
    {
        after_turn(run, is_at_break(regs.ppr, self.breaks.as_slice()), turn)
    }

    /// Records a turn: a step adds one to the count, and an end of the run is kept.
    #[tactic(auto, unfolding(crate::specs::SessionState::session_state_after))]
    pub(crate) fn note(&mut self, turn: &Turn)
        requires { self.old.taken < step_count_limit }
        ensures { self.new ≡ session_state_after self.old turn.now }
    {
        match turn {
            Turn::Stepped(_) => self.taken += 1,
            Turn::Ended(end) => self.ended = Some(*end),
            Turn::Linked(_) | Turn::Console(_) | Turn::Full | Turn::NoMemory => {}
        }
    }

    /// Records that n steps were taken back.
    pub(crate) fn note_back(&mut self, n: u32)
        requires { n ≤ self.old.taken }
        ensures { self.new ≡ session_state_before self.old n }
    {
        self.taken -= n as u64;
        self.ended = None;
    }

    /// Whether there is room for one more break.
    pub(crate) fn has_room(&self) -> bool
        ensures { result ≡ has_room self.now }
    {
        self.breaks.len() < 16
    }

    /// Adds a break if there is room for it.
    pub(crate) fn add(&mut self, seg: u16, word: u32)
        ensures sitting { self.new ≡ session_state_with_break self.old seg word }
        ensures taken { self.new.taken ≡ self.old.taken }
    {
        if self.has_room() {
            self.breaks.push(Break { word, seg });
        }
    }
}
