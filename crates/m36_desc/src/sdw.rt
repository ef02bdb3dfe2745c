//! The segment descriptor word.

ghost use Rattle.std.specs.Prelude.{◌≡◌};
ghost use Rattle.m36_desc.specs.Descriptors.{sdw_of, sdw_even, sdw_odd};
ghost use Rattle.m36_desc.specs.Widths.{IsSdw};

use m36_word::{Field, Pair, Word};
use std::marker::Model;

/// A segment descriptor word: where a segment is, who may use it, and how long it is.
#[derive(Clone, Copy, PartialEq, Eq)]
pub struct Sdw {
    /// Core address of the segment, or of its page table if it is paged; 24 bits.
    pub addr: u32,
    /// Number of the last block of 16 words that is within the bound; 14 bits.
    pub bound: u16,
    /// Call limiter: callers from other segments may enter a gate at words below this one; 14 bits.
    pub limit: u16,
    /// R1, the highest ring that may write; 3 bits.
    pub r1: u8,
    /// R2, the highest ring that may read and execute; 3 bits.
    pub r2: u8,
    /// R3, the highest ring that may call; 3 bits.
    pub r3: u8,
    /// Number of the directed fault that a reference gets if `f` is off; 2 bits.
    pub fc: u8,
    /// The segment is present: the other fields locate it.
    pub f: bool,
    pub readable: bool,
    pub executable: bool,
    pub writable: bool,
    pub privileged: bool,
    /// The segment is contiguous in core, without a page table.
    pub unpaged: bool,
    /// On: callers may enter at any word. Off: the segment is a gate.
    pub no_gate: bool,
    /// The manual's cache control bit, which nothing here uses.
    pub cached: bool,
}

impl Model for Sdw {
    ghost use Rattle.std.specs.Prelude.{◌<◌, ◌^◌};
    ghost use Rattle.m36_desc.specs.Fields.{SdwFields};

    ghost Value = { SdwFields };

    ghost view = { λ d. record { addr = d.addr; r1 = d.r1; r2 = d.r2; r3 = d.r3; f = d.f; fc = d.fc; bound = d.bound; readable = d.readable; executable = d.executable; writable = d.writable; privileged = d.privileged; unpaged = d.unpaged; no_gate = d.no_gate; cached = d.cached; limit = d.limit } };

    ghost invariant = { λ d. (d.addr < 2 ^ 24) × (d.bound < 2 ^ 14) × (d.limit < 2 ^ 14)
        × (d.r1 < 2 ^ 3) × (d.r2 < 2 ^ 3) × (d.r3 < 2 ^ 3) × (d.fc < 2 ^ 2) };

    ghost inverse = { λ d. record { addr = d.addr; r1 = d.r1; r2 = d.r2; r3 = d.r3; f = d.f; fc = d.fc; bound = d.bound; readable = d.readable; executable = d.executable; writable = d.writable; privileged = d.privileged; unpaged = d.unpaged; no_gate = d.no_gate; cached = d.cached; limit = d.limit } };
}

impl Sdw {
    /// Reads the fields of a pair of words.
    #[inline(always)]
    pub fn of_words(p: Pair) -> Sdw
        ensures { result ≡ sdw_of p.even p.odd }
    {
        Sdw {
            addr: Field::<0, 24>::get(p.even) as u32,
            bound: Field::<1, 14>::get(p.odd) as u16,
            limit: Field::<22, 14>::get(p.odd) as u16,
            r1: Field::<24, 3>::get(p.even) as u8,
            r2: Field::<27, 3>::get(p.even) as u8,
            r3: Field::<30, 3>::get(p.even) as u8,
            fc: Field::<34, 2>::get(p.even) as u8,
            f: Field::<33, 1>::get(p.even) == 1,
            readable: Field::<15, 1>::get(p.odd) == 1,
            executable: Field::<16, 1>::get(p.odd) == 1,
            writable: Field::<17, 1>::get(p.odd) == 1,
            privileged: Field::<18, 1>::get(p.odd) == 1,
            unpaged: Field::<19, 1>::get(p.odd) == 1,
            no_gate: Field::<20, 1>::get(p.odd) == 1,
            cached: Field::<21, 1>::get(p.odd) == 1,
        }
    }

    /// The pair of words with these fields. All other bits are zero.
    pub fn to_words(&self) -> Pair
        ensures even { result.even ≡ sdw_even self.now }
        ensures odd { result.odd ≡ sdw_odd self.now }
        ensures back { sdw_of result.even result.odd ≡ self.now }
    {
        Pair {
            even: self.even(),
            odd: self.odd(),
        }
    }

    // The even word: the address, the brackets, F and FC.
    fn even(&self) -> Word
        ensures value { result ≡ sdw_even self.now }
        ensures widths { IsSdw self.now }
    {
        let brackets = ((self.r1 as u64) << 9) + ((self.r2 as u64) << 6) + ((self.r3 as u64) << 3);
        Word::low(((self.addr as u64) << 12) + brackets + ((self.f as u64) << 2) + self.fc as u64)
    }

    // The odd word: the bound, the modes and the call limiter.
    fn odd(&self) -> Word
        ensures { result ≡ sdw_odd self.now }
    {
        let rights = ((self.readable as u64) << 20)
            + ((self.executable as u64) << 19)
            + ((self.writable as u64) << 18);
        let modes = ((self.privileged as u64) << 17)
            + ((self.unpaged as u64) << 16)
            + ((self.no_gate as u64) << 15);
        Word::low(
            ((self.bound as u64) << 21)
                + rights
                + modes
                + ((self.cached as u64) << 14)
                + self.limit as u64,
        )
    }
}
