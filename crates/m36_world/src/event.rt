//! The events between a command and the outside world.

use crate::pieces::Pieces;
use m36_outside::{ReadAnswer, Text, WriteAnswer};

/// One event between a command and the outside. Only clauses see events: they take no memory.
#[derive(Drop)]
pub enum Event {
    /// A read of a file: its name and the answer.
    FileRead(Text, ReadAnswer),
    /// A write of a file: its name, its content and the answer.
    FileWrite(Text, Text, WriteAnswer),
    /// This piece of output was written as a whole.
    Output(Text),
    /// One call was to write these pieces, and failed: it wrote some of them and a prefix of the
    /// next.
    OutputFailed(Pieces),
    /// This piece of input was consumed. An empty piece is the end of the input.
    Input(Text),
    /// The input could not be read, and nothing was consumed.
    InputFailed,
}
