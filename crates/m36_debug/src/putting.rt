//! Adds lines to a block, each with its line feed as one piece.

ghost use Rattle.std.specs.Prelude.{◌≡◌, ◌<◌, [], ◌∷◌, length};
ghost use Rattle.m36_text.specs.Lines.{as_line};
ghost use Rattle.m36_debug.specs.Putting.{pending, PutsPieces};

use arrayvec::{ArrayString, ArrayVec};
use m36_outside::{Block, Put};
use m36_program::add_piece;
use m36_world::World;

/// Adds a text as a line. There must be room for the line feed.
pub(crate) fn put_text<W: World, const N: usize>(
    block: &mut Block,
    world: &mut W,
    mut text: ArrayString<N>,
) -> Put
    requires { length text.bytes < N }
    ensures { PutsPieces result (as_line text.entry.bytes ∷ [])
        (pending block.old (W.seen world.old))
        (pending block.new (W.seen world.new)) }
{
    text.push_str("\n");
    add_piece(block, text.as_str().as_bytes(), world)
}

/// As `put_text`, for a byte array.
pub(crate) fn put_characters<W: World, const N: usize>(
    block: &mut Block,
    world: &mut W,
    mut text: ArrayVec<u8, N>,
) -> Put
    requires { length text.items < N }
    ensures { PutsPieces result (as_line text.entry.items ∷ [])
        (pending block.old (W.seen world.old))
        (pending block.new (W.seen world.new)) }
{
    text.push(b'\n');
    add_piece(block, text.as_slice(), world)
}
