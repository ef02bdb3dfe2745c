//! Each call of a world with all clauses that the trait of the object has for it: the contract of a
//! world implies those of a folder, an input and a sink.

ghost use Rattle.std.specs.Prelude.{[], ◌∷◌, ◌++◌, ◌≡◌, ◌≤◌, ◌<◌, ◌^◌, ◌⊎◌, IfSome, length};
ghost use Rattle.m36_outside.specs.Passing.{PieceGives, PutTakes, TakesLines, joined};
ghost use Rattle.m36_outside.specs.Piece.{PieceResult, PieceHasCause};
ghost use Rattle.m36_outside.specs.Put.{PutResult, PutHasCause};
ghost use Rattle.m36_outside.specs.ReadAnswer.{ReadResult, IsWithinLimit, ReadHasCause};
ghost use Rattle.m36_outside.specs.WriteAnswer.{WriteResult, WriteHasCause};

use m36_outside::{Block, Piece, Put, ReadAnswer, WriteAnswer};
use m36_world::World;
use std::alloc::Global;

/// The clauses of `Folder::read`.
pub fn read<W: World>(alloc: Global, name: &[u8], world: &mut W) -> ReadAnswer
    ensures told { let old = W.seen world.old in
        IfSome old.files (λ files. ReadResult result (files name.now)) }
    ensures limit { IsWithinLimit result }
    ensures files { (W.seen world.new).files ≡ (W.seen world.old).files }
    ensures asked { let old = W.seen world.old in
        (W.seen world.new).reads ≡ old.reads ++ (name.now, result) ∷ [] }
    ensures wrote { (W.seen world.new).writes ≡ (W.seen world.old).writes }
    ensures cause { let old = W.seen world.old in
        ReadHasCause result old.read_faults (W.seen world.new).read_faults }
    ensures count { (W.seen world.old).read_faults ≤ (W.seen world.new).read_faults }
    ensures count_bound { (W.seen world.new).read_faults < 2 ^ 64 }
    ensures other_count { (W.seen world.new).write_faults ≡ (W.seen world.old).write_faults }
{
    world.read(alloc, name)
}

/// The clauses of `Folder::write`.
pub fn write<W: World>(alloc: Global, name: &[u8], content: &[u8], world: &mut W) -> WriteAnswer
    ensures says { let old = W.seen world.old in
        WriteResult result old.files (W.seen world.new).files name.now content.now }
    ensures wrote { let old = W.seen world.old in
        (W.seen world.new).writes ≡ old.writes ++ (name.now, content.now, result) ∷ [] }
    ensures asked { (W.seen world.new).reads ≡ (W.seen world.old).reads }
    ensures cause { let old = W.seen world.old in
        WriteHasCause result old.write_faults (W.seen world.new).write_faults }
    ensures count { (W.seen world.old).write_faults ≤ (W.seen world.new).write_faults }
    ensures count_bound { (W.seen world.new).write_faults < 2 ^ 64 }
    ensures other_count { (W.seen world.new).read_faults ≡ (W.seen world.old).read_faults }
{
    world.write(alloc, name, content)
}

/// The clauses of `Sink::put`.
pub fn put<W: World>(piece: &[u8], world: &mut W) -> Put
    ensures says { let old = W.seen world.old in
        PutResult result old.written (W.seen world.new).written piece.now }
    ensures took { let old = W.seen world.old in let new = W.seen world.new in
        PutTakes result old.written new.written old.outputs new.outputs piece.now }
    ensures cause { let old = W.seen world.old in
        PutHasCause result old.output_faults (W.seen world.new).output_faults }
    ensures count { (W.seen world.old).output_faults ≤ (W.seen world.new).output_faults }
    ensures count_bound { (W.seen world.new).output_faults < 2 ^ 64 }
{
    world.put(piece)
}

/// The clauses of `Sink::put_block`.
pub fn put_block<W: World>(block: &Block, world: &mut W) -> Put
    ensures says { let old = W.seen world.old in
        PutResult result old.written (W.seen world.new).written (joined block.now) }
    ensures took { let old = W.seen world.old in
        TakesLines result old.outputs (W.seen world.new).outputs block.now }
    ensures cause { let old = W.seen world.old in
        PutHasCause result old.output_faults (W.seen world.new).output_faults }
    ensures count { (W.seen world.old).output_faults ≤ (W.seen world.new).output_faults }
    ensures count_bound { ((W.seen world.old).output_faults < 2 ^ 64) ⊎ (1 ≤ length block.now)
        → (W.seen world.new).output_faults < 2 ^ 64 }
{
    world.put_block(block)
}

/// The clauses of `Lines::next_piece`.
pub fn next_piece<W: World>(into: &mut [u8], world: &mut W) -> Piece
    requires room { 1 ≤ length into.old }
    ensures says { let old = W.seen world.old in
        PieceResult result old.left (W.seen world.new).left into.new }
    ensures gives { let old = W.seen world.old in
        PieceGives result old.inputs (W.seen world.new).inputs into.new }
    ensures cause { let old = W.seen world.old in
        PieceHasCause result old.input_faults (W.seen world.new).input_faults }
    ensures count { (W.seen world.old).input_faults ≤ (W.seen world.new).input_faults }
    ensures count_bound { (W.seen world.new).input_faults < 2 ^ 64 }
{
    world.next_piece(into)
}
