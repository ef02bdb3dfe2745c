//! Tally words: an address, a tally and an increment. The tags of indirect then tally count them.

ghost use Rattle.std.specs.Prelude.{◌≡◌, ◌<◌, ◌≤◌, ◌^◌};
ghost use Rattle.m36_model.specs.Tally.{tally, tally_word, tally_address, tally_delta};
ghost use Rattle.m36_model.specs.Tally.{counted_down, counted_up};

use m36_word::{Field, Word};
use std::marker::Model;

/// The low four bits of each tag that reads a tally word.
pub(crate) const SUBTRACT_DELTA: u8 = 0o4;

pub(crate) const INDIRECT_ONLY: u8 = 0o11;

pub(crate) const ADD_DELTA: u8 = 0o13;

pub(crate) const DECREMENT_INCREMENT: u8 = 0o14;

pub(crate) const INCREMENT_DECREMENT: u8 = 0o16;

/// The result of counting a tally word.
#[derive(Clone, Copy)]
pub(crate) struct Counted {
    /// The new value of the word.
    pub(crate) word: Word,
    /// The computed address; 18 bits.
    pub(crate) address: u32,
    /// Whether the tally is now 0.
    pub(crate) runs_out: bool,
}

impl Model for Counted {
    ghost use Rattle.std.specs.Prelude.{◌<◌, ◌^◌};
    ghost use Rattle.m36_model.specs.Tally as spec;

    ghost Value = { spec.Counted };

    ghost view = { λ c. record { address = c.address; word = c.word; runs_out = c.runs_out } };

    ghost invariant = { λ c. c.address < 2 ^ 18 };

    ghost inverse = { λ c. record { word = c.word; address = c.address; runs_out = c.runs_out } };
}

/// The address of a tally word; 18 bits.
pub(crate) fn address(w: Word) -> u32
    ensures value { result ≡ tally_address w }
    ensures bound { result < 2 ^ 18 }
{
    Field::<0, 18>::get(w) as u32
}

/// The increment of a tally word; 6 bits.
fn delta(w: Word) -> u32
    ensures value { result ≡ tally_delta w }
    ensures bound { result < 2 ^ 6 }
{
    Field::<30, 6>::get(w) as u32
}

/// A tally word with a new address and a new tally; the increment is unchanged.
fn new_tally_word(w: Word, address: u32, count: u32) -> Word
    requires address { address < 2 ^ 18 }
    requires count { count < 2 ^ 12 }
    ensures { result ≡ tally_word address count (tally_delta w) }
{
    Word::low(((address as u64) << 18) + ((count as u64) << 6) + delta(w) as u64)
}

/// Uses the address and then adds `step` to it; the tally decreases by 1, modulo 2^12.
fn counted_down(w: Word, step: u32) -> Counted
    requires { step < 2 ^ 6 }
    ensures { result ≡ counted_down w step }
{
    let address = address(w);
    let count = (Field::<18, 12>::get(w) as u32 + ((1 << 12) - 1)) % (1 << 12);
    Counted {
        word: new_tally_word(w, (address + step) % (1 << 18), count),
        address,
        runs_out: count == 0,
    }
}

/// Subtracts `step` from the address and then uses it; the tally increases by 1, modulo 2^12.
fn counted_up(w: Word, step: u32) -> Counted
    requires { step < 2 ^ 6 }
    ensures { result ≡ counted_up w step }
{
    let address = (address(w) + ((1 << 18) - step)) % (1 << 18);
    let count = (Field::<18, 12>::get(w) as u32 + 1) % (1 << 12);
    Counted {
        word: new_tally_word(w, address, count),
        address,
        runs_out: count == 0,
    }
}

/// Counts a tally word, by the low four bits of a tag that counts it.
#[tactic(auto, unfolding(m36_model::specs::Tally::tally))]
pub(crate) fn tally(td: u8, w: Word) -> Counted
    ensures { result ≡ tally td w }
{
    match td {
        INCREMENT_DECREMENT => counted_down(w, 1),
        ADD_DELTA => counted_down(w, delta(w)),
        DECREMENT_INCREMENT => counted_up(w, 1),
        _ => counted_up(w, delta(w)),
    }
}
