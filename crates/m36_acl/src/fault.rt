//! Why a text cannot be parsed as access lists.

use m36_word::NoMemory;
use thiserror::Error;

/// The first line of a text that has a code, counted from 1, with the least code of that line.
#[derive(Clone, Copy, Debug, PartialEq, Eq, Error)]
pub enum AclFault {
    /// The line is not of its form, or it is a `term` line above all `segment` lines, or the 17th
    /// `term` line of a segment.
    #[error("C1 {0}")]
    C1(u32),
    /// The segment was named by an earlier line, or the term occurs earlier in the list of the
    /// segment.
    #[error("C2 {0}")]
    C2(u32),
    /// Out of memory.
    #[error("no memory")]
    NoMemory,
}

impl From<NoMemory> for AclFault {
    ghost use Rattle.std.specs.Prelude.{◌≡◌};
    ghost use Rattle.m36_acl.specs.declared.fault.AclFault.TheVariants as fault;

    ghost from_gives = { λ _ given. given ≡ fault.NoMemory };

    // Out of memory is a fault of its own, which names no line.
    fn from(_cause: NoMemory) -> AclFault {
        AclFault::NoMemory
    }
}
