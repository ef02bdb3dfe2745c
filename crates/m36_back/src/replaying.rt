//! Takes turns again.

ghost use Rattle.std.specs.Prelude.{ℕ, ◌≡◌, ◌+◌, ◌≤◌};
ghost use Rattle.m36_back.specs.History.{state_at};

use m36_step::{Replay, Turn};

/// A count as the argument of `hurry`, or the most that it can be.
fn at_once(left: u64) -> u32
    ensures { result ≤ left }
{
    if left < u32::MAX as u64 {
        left as u32
    } else {
        u32::MAX
    }
}

/// Takes `turns` turns of a machine: as many as possible at once, since nothing is recorded.
#[tactic(auto, unfolding(crate::specs::History::state_at), using(crate::proofs::Hurried::hurried))]
pub(crate) fn replay<M: Replay>(machine: &mut M, turns: u64)
    ensures { (first : M) (n : ℕ) → machine.old ≡ state_at M.after first n
        → machine.new ≡ state_at M.after first (n + turns) }
{
    let mut turn = Turn::Full;
    let mut left = turns;
    'turns: while left > 0 {
        left -= machine.hurry(at_once(left)) as u64;
        if left > 0 {
            machine.turn_into(&mut turn);
            left -= 1;
        }
    }
}
