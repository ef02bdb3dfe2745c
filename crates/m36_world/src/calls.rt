//! The calls of a world, as they are logged.

use crate::event::Event;
use m36_outside::{Block, Entries, Piece, Put, ReadAnswer, WriteAnswer};

/// A read of a file.
#[derive(Drop)]
pub(crate) struct ReadCall<'a> {
    pub(crate) name: &'a [u8],
    pub(crate) answer: &'a ReadAnswer,
}

impl<'a> Entries<Event> for ReadCall<'a> {
    ghost use Rattle.std.specs.Prelude.{[], ◌∷◌};
    ghost use Rattle.m36_world.specs.declared.event.Event.TheVariants.{FileRead};

    ghost entries = { λ call. FileRead call.name.now call.answer.now ∷ [] };
}

/// A write of a file.
#[derive(Drop)]
pub(crate) struct WriteCall<'a> {
    pub(crate) name: &'a [u8],
    pub(crate) content: &'a [u8],
    pub(crate) answer: WriteAnswer,
}

impl<'a> Entries<Event> for WriteCall<'a> {
    ghost use Rattle.std.specs.Prelude.{[], ◌∷◌};
    ghost use Rattle.m36_world.specs.declared.event.Event.TheVariants.{FileWrite};

    ghost entries = { λ call. FileWrite call.name.now call.content.now call.answer ∷ [] };
}

/// A put of a piece of output.
#[derive(Drop)]
pub(crate) struct PutCall<'a> {
    pub(crate) piece: &'a [u8],
    pub(crate) answer: Put,
}

impl<'a> Entries<Event> for PutCall<'a> {
    ghost use Rattle.m36_world.specs.CallEvents.{put_events};

    ghost entries = { λ call. put_events call.answer call.piece.now };
}

/// A put of a block of pieces.
#[derive(Drop)]
pub(crate) struct BlockCall<'a> {
    pub(crate) block: &'a Block,
    pub(crate) answer: Put,
}

impl<'a> Entries<Event> for BlockCall<'a> {
    ghost use Rattle.m36_world.specs.CallEvents.{block_events};

    ghost entries = { λ call. block_events call.answer call.block.now };
}

/// A call for the next piece of input, with the buffer after the call.
#[derive(Drop)]
pub(crate) struct InputCall<'a> {
    pub(crate) into: &'a [u8],
    pub(crate) answer: Piece,
}

impl<'a> Entries<Event> for InputCall<'a> {
    ghost use Rattle.m36_world.specs.CallEvents.{input_events};

    ghost entries = { λ call. input_events call.answer call.into.now };
}
