//! Why a catalog and its files cannot be booted.

use m36_word::NoMemory;
use thiserror::Error;

/// The first fault that applies, in this order: U1; then U4 and U2 of the gates, in the order of
/// the catalog; then U3 and U4 of the start.
#[derive(Clone, Copy, Debug, PartialEq, Eq, Error)]
pub enum BootFault {
    /// There are fewer than 24 pageable frames.
    #[error("U1")]
    U1,
    /// A gate, with its segment number, has no entry or more than 16,383.
    #[error("U2 {0}")]
    U2(u16),
    /// No segment has the name of the start, its object does not define the entry, it may not be
    /// executed in the ring of the start, or its linkage section would end past the linkage
    /// segment.
    #[error("U3")]
    U3,
    /// A gate or the segment of the start, with its segment number, is not an object.
    #[error("U4 {0}")]
    U4(u16),
    /// Out of memory.
    #[error("no memory")]
    NoMemory,
}

impl From<NoMemory> for BootFault {
    ghost use Rattle.std.specs.Prelude.{◌≡◌};
    ghost use Rattle.m36_boot.specs.declared.fault.BootFault.TheVariants as fault;

    ghost from_gives = { λ _ given. given ≡ fault.NoMemory };

    fn from(_cause: NoMemory) -> BootFault {
        BootFault::NoMemory
    }
}
