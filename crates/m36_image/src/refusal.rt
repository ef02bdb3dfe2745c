//! Why a bare image is refused.

ghost use Rattle.std.specs.Prelude.{◌≡◌};
ghost use Rattle.m36_image.specs.declared.refusal.ImageFault.TheVariants as fault;

use m36_word::NoMemory;

/// The codes of faulty lines.
#[derive(Clone, Copy, PartialEq, Eq, Debug)]
pub enum ImageCode {
    /// The line does not have its form, is missing, or has no line feed.
    I1,
    /// The number of frames is out of range.
    I2,
    /// The words are not above every earlier address, or not within core.
    I3,
}

/// The first line with a code, and its least code.
#[derive(Clone, Copy, PartialEq, Eq)]
pub struct Refusal {
    /// The number of the line, from 1. A missing line has the number that it would have.
    pub line: u32,
    pub code: ImageCode,
}

/// Why an image could not be read.
#[derive(Clone, Copy, PartialEq, Eq)]
pub enum ImageFault {
    Refused(Refusal),
    /// Out of memory for the core.
    NoMemory,
}

impl From<Refusal> for ImageFault {
    ghost from_gives = { λ refusal made. made ≡ fault.Refused refusal };

    fn from(refusal: Refusal) -> ImageFault {
        ImageFault::Refused(refusal)
    }
}

impl From<NoMemory> for ImageFault {
    ghost from_gives = { λ _ made. made ≡ fault.NoMemory };

    fn from(_cause: NoMemory) -> ImageFault {
        ImageFault::NoMemory
    }
}
