//! Answers to links.

ghost use Rattle.std.specs.Prelude.{◌≡◌};

use crate::laid::NewSection;
use m36_model::LinkCode;
use m36_word::{NoMemory, Pair};
use obj36::Link;
use std::marker::Model;

/// The answer to a link: the pair that replaces it, and what else has to be done. The model is its
/// fields.
#[derive(Drop)]
pub struct Snap {
    /// The section that has to be laid, if any.
    pub lay: Option<NewSection>,
    /// The link, as its object has it.
    pub link: Link,
    /// The pair that replaces the link.
    pub pair: Pair,
    /// The number of the link's target segment; 15 bits.
    pub target: u16,
    /// The ring of the link; 3 bits.
    pub ring: u8,
}

impl Model for Snap {
    ghost use Rattle.std.specs.Prelude.{◌<◌, ◌^◌};
    ghost use Rattle.m36_link.specs.Fields.{SnapFields};

    ghost Value = { SnapFields };

    ghost view = { λ s.
        record { pair = s.pair; ring = s.ring; target = s.target; link = s.link; lay = s.lay } };

    ghost invariant = { λ s. (s.target < 2 ^ 15) × (s.ring < 8) };
}

/// Why a link is not snapped.
#[derive(Debug, Drop)]
pub enum LinkFault {
    /// The code; with the link, except for L1.
    Refused(LinkCode, Option<Link>),
    /// Out of memory.
    NoMemory,
}

impl From<NoMemory> for LinkFault {
    ghost use Rattle.std.specs.Prelude.{◌≡◌};
    ghost use Rattle.m36_link.specs.declared.snap.LinkFault.TheVariants as fault;

    ghost from_gives = { λ _ given. given ≡ fault.NoMemory };

    fn from(_cause: NoMemory) -> LinkFault {
        LinkFault::NoMemory
    }
}
