//! Gathers pieces in a block, which is put when it is full and at the end.

ghost use Rattle.std.specs.Prelude.{◌≡◌, [], ◌∷◌, ◌++◌};
ghost use Rattle.m36_outside.specs.Put.{OnFailed};
ghost use Rattle.m36_world.specs.Answers.{PutBlockDid};
ghost use Rattle.m36_program.specs.Gathered.{Adds, Puts};

use m36_outside::{Block, Put};
use m36_world::World;

/// Puts all pieces of a block, and removes them from it, even if the output fails.
pub fn flush_block<W: World>(block: &mut Block, world: &mut W) -> Put
    ensures puts { PutBlockDid result block.old (W.seen world.old) (W.seen world.new) }
    ensures empty { block.new ≡ [] }
{
    let answer = world.put_block(block);
    block.clear();
    answer
}

/// Adds a piece to a block. If there is no room for it, puts the earlier pieces first. If the
/// output fails, the block is empty afterwards.
#[tactic(auto, using(crate::proofs::Gathered::gathering))]
pub fn add_piece<W: World>(block: &mut Block, piece: &[u8], world: &mut W) -> Put
    ensures adds { Adds result block.old block.new (piece.now ∷ [])
        (W.seen world.old) (W.seen world.new) }
    ensures lost { OnFailed result (block.new ≡ []) }
{
    if block.push(piece) {
        return Put::Done;
    }
    match flush_block(block, world) {
        Put::Done => add_to_empty(block, piece, world),
        Put::Failed => Put::Failed,
    }
}

// Adds a piece to an empty block. A piece that is too long for a block is put directly.
#[tactic(auto, using(crate::proofs::Gathered::gathering))]
fn add_to_empty<W: World>(block: &mut Block, piece: &[u8], world: &mut W) -> Put
    requires { block.old ≡ [] }
    ensures adds { Adds result block.old block.new (piece.now ∷ [])
        (W.seen world.old) (W.seen world.new) }
    ensures lost { OnFailed result (block.new ≡ []) }
{
    if block.push(piece) {
        Put::Done
    } else {
        world.put(piece)
    }
}

/// Adds the last piece, and puts the block. The block is empty afterwards, even if the output
/// fails.
#[tactic(auto, using(crate::proofs::Gathered::finishing))]
pub fn finish<W: World>(block: &mut Block, piece: &[u8], world: &mut W) -> Put
    ensures puts { Puts result (block.old ++ piece.now ∷ []) (W.seen world.old) (W.seen world.new) }
    ensures empty { block.new ≡ [] }
{
    match add_piece(block, piece, world) {
        Put::Done => flush_block(block, world),
        Put::Failed => Put::Failed,
    }
}
