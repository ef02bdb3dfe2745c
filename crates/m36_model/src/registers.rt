//! The registers of the processor.

ghost use Rattle.std.specs.Prelude.{◌≡◌, ◌<◌, ◌^◌};
ghost use Rattle.m36_model.specs.Registers.{RegsFields};

use crate::place::At;
use m36_desc::{Dbr, Ptr};
use m36_word::Word;
use std::marker::Model;

/// The procedure pointer register: the position of the instruction that is executed, and the ring
/// of execution.
#[derive(Clone, Copy, PartialEq, Eq)]
pub struct Ppr {
    /// The instruction counter, a word number; 18 bits.
    pub ic: u32,
    /// The procedure segment; 15 bits.
    pub psr: u16,
    /// The procedure ring; 3 bits.
    pub prr: u8,
}

impl Model for Ppr {
    ghost use Rattle.std.specs.Prelude.{◌<◌, ◌^◌};
    ghost use Rattle.m36_model.specs.Fields.{PprFields};

    ghost Value = { PprFields };

    ghost view = { λ p. record { psr = p.psr; prr = p.prr; ic = p.ic } };

    ghost invariant = { λ p. (p.ic < 2 ^ 18) × (p.psr < 2 ^ 15) × (p.prr < 2 ^ 3) };

    ghost inverse = { λ p. record { psr = p.psr; prr = p.prr; ic = p.ic } };
}

/// The indicators.
#[derive(Clone, Copy, PartialEq, Eq)]
pub struct Ind {
    pub zero: bool,
    pub negative: bool,
    pub carry: bool,
    pub overflow: bool,
    /// The overflow mask: while it is on, an overflow gives no fault.
    pub mask: bool,
    /// Tally runout.
    pub tally: bool,
}

/// All registers of the processor.
#[derive(Clone, Copy, PartialEq, Eq)]
pub struct Regs {
    /// The accumulator.
    pub a: Word,
    /// The quotient register.
    pub q: Word,
    /// The index registers X0 to X7; 18 bits each.
    pub x: [u32; 8],
    /// The pointer registers PR0 to PR7.
    pub pr: [Ptr; 8],
    pub dbr: Dbr,
    pub ppr: Ppr,
    pub ind: Ind,
}

impl Model for Regs {
    ghost use Rattle.std.specs.Prelude.{ℕ, ◌<◌, ◌^◌, slice_index};
    ghost use Rattle.m36_model.specs.Registers.{RegsFields};

    ghost Value = { RegsFields };

    ghost view = { λ r. record { a = r.a; q = r.q; x = r.x; pr = r.pr; ind = r.ind; ppr = r.ppr; dbr = r.dbr } };

    ghost invariant = { λ r. (k : ℕ) → slice_index r.x k < 2 ^ 18 };

    ghost inverse = { λ r. record { a = r.a; q = r.q; x = r.x; pr = r.pr; ind = r.ind; ppr = r.ppr; dbr = r.dbr } };
}

impl Regs {
    ghost use Rattle.m36_model.specs.Modification.{here, ptr};
    ghost use Rattle.m36_model.specs.Pointers.{with_pr};
    ghost use Rattle.m36_model.specs.Results.{X, with_value};

    /// The position of the instruction that is executed, in the ring of execution.
    #[inline(always)]
    pub fn here(&self) -> At
        ensures { result ≡ here self.now }
    {
        At {
            word: self.ppr.ic,
            seg: self.ppr.psr,
            ring: self.ppr.prr,
        }
    }

    /// Pointer register `n`.
    #[inline(always)]
    pub fn pointer(&self, n: u8) -> Ptr
        requires { n < 8 }
        ensures { result ≡ ptr self.now n }
    {
        self.pr[n as usize]
    }

    /// The registers with `pointer` in pointer register `n`.
    #[tactic(auto, unfolding(crate::specs::Pointers::with_pr))]
    pub fn with_pointer(&self, n: u8, pointer: Ptr) -> Regs
        requires { n < 8 }
        ensures { result ≡ with_pr n pointer self.now }
    {
        let mut after = *self;
        after.pr[n as usize] = pointer;
        after
    }

    /// The registers with `value`, of 18 bits, in index register `n`.
    #[tactic(auto, unfolding(crate::specs::Results::with_value))]
    pub fn with_index(&self, n: u8, value: u32) -> Regs
        requires reg { n < 8 }
        requires value { value < 2 ^ 18 }
        ensures { result ≡ with_value (X n) value self.now }
    {
        let mut after = *self;
        after.x[n as usize] = value;
        after
    }
}
