//! Why a rule has no value.

ghost use Rattle.std.specs.Prelude.{◌≡◌};
ghost use Rattle.m36_status.specs.Refusing.{status_of};
ghost use Rattle.m36_status.specs.declared.refusal.Refusal.TheVariants as refusal;

use crate::status::{Bad, Status};
use m36_word::NoMemory;

/// Why a rule has no value.
#[derive(Drop)]
pub enum Refusal {
    /// A file is refused.
    BadFile(Bad),
    /// Memory ran out.
    NoMemory,
}

impl From<NoMemory> for Refusal {
    ghost from_gives = { λ _ made. made ≡ refusal.NoMemory };

    // Out of memory is a refusal of its own, which names no file.
    fn from(_cause: NoMemory) -> Refusal {
        Refusal::NoMemory
    }
}

impl Refusal {
    /// The status with which the command ends. Then nothing is printed, and no file is written
    /// except those of `make`.
    pub fn status(self) -> Status
        ensures { result ≡ status_of self }
    {
        match self {
            Refusal::BadFile(bad) => Status::BadFile(bad),
            Refusal::NoMemory => Status::NoMemory,
        }
    }
}
