//! Why a bind file or its components cannot be bound.

use m36_word::NoMemory;
use thiserror::Error;

/// The code with which a bind file is refused, and the number of a line, counted from 1.
#[derive(Clone, Copy, Debug, PartialEq, Eq, Error)]
pub enum BindFault {
    /// The line has no form, is out of order, or lacks its line feed; or no line is an `object`
    /// line.
    #[error("B1 {0}")]
    B1(u32),
    /// The object of the line is not among those given to the binder.
    #[error("B2 {0}")]
    B2(u32),
    /// The line repeats the name of an earlier line of its kind, or two components define the name.
    #[error("B3 {0}")]
    B3(u32),
    /// A section or the bound object is too large, or a relocated part of a word does not fit. The
    /// number is 0.
    #[error("B4 {0}")]
    B4(u32),
    /// No component defines the retained name.
    #[error("B5 {0}")]
    B5(u32),
    /// Out of memory.
    #[error("no memory")]
    NoMemory,
}

impl From<NoMemory> for BindFault {
    ghost use Rattle.std.specs.Prelude.{◌≡◌};
    ghost use Rattle.m36_bindfile.specs.declared.fault.BindFault.TheVariants as fault;

    ghost from_gives = { λ _ given. given ≡ fault.NoMemory };

    // Out of memory is a fault of its own, which names no line.
    fn from(_cause: NoMemory) -> BindFault {
        BindFault::NoMemory
    }
}
