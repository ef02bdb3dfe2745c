//! A law about all characters that are placed, as the contract of a function that does nothing.

ghost use Rattle.alm_parse.specs.Characters.{UnpackingYieldsText};

/// The quarters of the words of placed characters, nine bits each, are these characters in order.
pub fn packing_law()
    ensures { UnpackingYieldsText }
{}
