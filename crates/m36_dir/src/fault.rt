//! Why a boot text has no catalog.

use m36_word::NoMemory;
use thiserror::Error;

/// The first line of a boot text that has a code, counted from 1, with the least code of that line.
#[derive(Clone, Copy, Debug, PartialEq, Eq, Error)]
pub enum CatalogFault {
    /// The line does not have the form of any kind of line, or is out of order.
    #[error("D1 {0}")]
    D1(u32),
    /// A name occurs a second time in one directory.
    #[error("D2 {0}")]
    D2(u32),
    /// The directory of a `work` or `library` line is in no segment line of the text.
    #[error("D3 {0}")]
    D3(u32),
    /// The ring brackets are not in order, or a gate may not be executed or has R2 = R3, so that no
    /// outer ring may call it.
    #[error("D4 {0}")]
    D4(u32),
    /// A 513th segment, an eighth further name, or a 17th library.
    #[error("D5 {0}")]
    D5(u32),
    /// The text ends without a `start` line. The number is one more than that of the last line.
    #[error("D6 {0}")]
    D6(u32),
    /// Out of memory.
    #[error("no memory")]
    NoMemory,
}

impl From<NoMemory> for CatalogFault {
    ghost use Rattle.std.specs.Prelude.{◌≡◌};
    ghost use Rattle.m36_dir.specs.declared.fault.CatalogFault.TheVariants as fault;

    ghost from_gives = { λ _ given. given ≡ fault.NoMemory };

    // Out of memory is a fault of its own, which names no line.
    fn from(_cause: NoMemory) -> CatalogFault {
        CatalogFault::NoMemory
    }
}
