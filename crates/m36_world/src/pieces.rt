//! Pieces of output in an event.

use m36_outside::{Log, Text};
use std::marker::Model;

/// A list of pieces that takes no memory; the view is that list.
#[derive(Drop)]
pub struct Pieces {
    pieces: Log<Text>,
}

impl Model for Pieces {
    ghost use Rattle.std.specs.Prelude.{ℕ, List};

    ghost Value = { List (List ℕ) };

    ghost view = { λ p. p.pieces.entries };
}
