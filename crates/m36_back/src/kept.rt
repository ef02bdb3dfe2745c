//! The states that are kept of a history, in the order of their numbers.

ghost use Rattle.std.specs.Prelude.{◌≡◌, ◌<◌, ◌≤◌, IfOk};
ghost use Rattle.m36_back.specs.History.{state_at};
ghost use Rattle.m36_back.specs.Kept.{AllKept};

use m36_step::Replay;
use m36_word::NoMemory;
use std::alloc::Global;

/// The maximum number of kept states, without the first state.
const MOST_KEPT: usize = 8;

/// A state that is kept, with its number in the history.
#[derive(Drop)]
pub struct Kept<M> {
    pub at: u64,
    pub state: M,
}

/// A copy of the last kept state whose number is at most `target`, or of the first state if there
/// is none. Fails only with `NoMemory`.
#[tactic(auto, unfolding(crate::specs::History::state_at))]
pub(crate) fn copy_nearest<M: Replay + Drop>(
    alloc: Global,
    first: &M,
    kept: &[Kept<M>],
    target: u64,
) -> Result<Kept<M>, NoMemory>
    ensures { IfOk result (λ k. (k.at ≤ target)
        × (AllKept M.after first.now kept.now → k.state ≡ state_at M.after first.now k.at)) }
{
    let mut i = kept.len();
    'kept: while i > 0 {
        i -= 1;
        if kept[i].at <= target {
            let state = kept[i].state.copy(alloc)?;
            return Ok(Kept {
                at: kept[i].at,
                state,
            });
        }
    }
    let state = first.copy(alloc)?;
    Ok(Kept { at: 0, state })
}

/// Drops the states whose numbers are greater than `target`.
#[tactic(auto, using(crate::proofs::KeptLaws::keeping))]
pub(crate) fn drop_later<M: Replay + Drop>(kept: &mut Vec<Kept<M>>, target: u64)
    ensures { (first : M) → AllKept M.after first kept.old.items
        → AllKept M.after first kept.new.items }
{
    let mut n = kept.len();
    'kept: while n > 0 {
        if kept[n - 1].at <= target {
            return;
        }
        n -= 1;
        kept.truncate(n);
    }
}

/// Drops the states whose numbers have any bit of `mask`. If the mask was just doubled, that is
/// every second one.
#[tactic(auto, using(crate::proofs::KeptLaws::keeping))]
fn drop_every_second<M: Replay + Drop>(kept: &mut Vec<Kept<M>>, mask: u64)
    ensures { (first : M) → AllKept M.after first kept.old.items
        → AllKept M.after first kept.new.items }
{
    kept.retain(|k| -> bool { k.at & mask == 0 });
}

// Keeps a copy of the state with number `taken`. If eight are kept already, doubles the distance
// first; then the state may no longer have to be kept.
#[cold]
#[inline(never)]
#[tactic(auto, using(crate::proofs::KeptLaws::keeping))]
fn keep_now<M: Replay + Drop>(
    alloc: Global,
    kept: &mut Vec<Kept<M>>,
    machine: &M,
    taken: u64,
    mask: u64,
) -> u64
    ensures { (first : M) → AllKept M.after first kept.old.items
        → machine.now ≡ state_at M.after first taken
        → AllKept M.after first kept.new.items }
{
    let mut mask = mask;
    if kept.len() >= MOST_KEPT {
        mask = mask.saturating_mul(2) | 1;
        drop_every_second(kept, mask);
        if taken & mask != 0 {
            return mask;
        }
    }
    match machine.copy(alloc) {
        Err(_) => {}
        Ok(state) => {
            let _ = kept.push(Kept { at: taken, state });
        }
    }
    mask
}

/// Keeps a copy of the state with number `taken` if the number has no bit of `mask`. The mask has
/// the bits below the distance of kept states, which is a power of 2. If eight are kept already,
/// doubles the distance first. Returns the new mask. If there is no memory for a copy, it is not
/// kept.
#[inline]
#[tactic(auto, using(crate::proofs::KeptLaws::keeping))]
pub(crate) fn keep<M: Replay + Drop>(
    alloc: Global,
    kept: &mut Vec<Kept<M>>,
    machine: &M,
    taken: u64,
    mask: u64,
) -> u64
    ensures { (first : M) → AllKept M.after first kept.old.items
        → machine.now ≡ state_at M.after first taken
        → AllKept M.after first kept.new.items }
{
    if taken & mask == 0 {
        keep_now(alloc, kept, machine, taken, mask)
    } else {
        mask
    }
}
