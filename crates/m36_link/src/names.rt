//! Reference names.

use m36_text::Name;
use std::marker::Model;

/// A reference name in a ring. The model is its fields.
#[derive(PartialEq, Eq, Hash, Drop)]
pub(crate) struct RingName {
    pub(crate) name: Name,
    /// The ring; 3 bits.
    pub(crate) ring: u8,
}

impl Model for RingName {
    ghost use Rattle.m36_link.specs.Fields.{RingNameFields};

    ghost Value = { RingNameFields };

    ghost view = { λ n. record { ring = n.ring; name = n.name } };

    ghost inverse = { λ n. record { name = n.name; ring = n.ring } };
}
