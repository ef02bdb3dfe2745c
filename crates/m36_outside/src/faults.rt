//! Counts of faults, which saturate at 2^64 - 1.

ghost use Rattle.std.specs.Prelude.{◌≡◌, ◌≤◌, ◌<◌, ◌^◌};
ghost use Rattle.m36_outside.specs.Counts.{raised, Rose};
ghost use Rattle.m36_outside.specs.Piece.{PieceHasCause};
ghost use Rattle.m36_outside.specs.Put.{PutHasCause};
ghost use Rattle.m36_outside.specs.ReadAnswer.{ReadHasCause};

use crate::folder::ReadAnswer;
use crate::lines::Piece;
use crate::sink::Put;

/// The count after one more fault. It saturates at 2^64 - 1.
pub fn raise(count: u64) -> u64
    ensures value { result ≡ raised count }
    ensures rose { Rose count result }
    ensures later { count ≤ result }
    ensures bound { result < 2 ^ 64 }
{
    count.saturating_add(1)
}

/// The count after a put with this answer.
pub fn count_after_put(count: u64, answer: Put) -> u64
    ensures cause { PutHasCause answer count result }
    ensures later { count ≤ result }
    ensures bound { result < 2 ^ 64 }
{
    match answer {
        Put::Done => count,
        Put::Failed => raise(count),
    }
}

/// The count after a call for a piece with this answer.
pub fn count_after_piece(count: u64, answer: Piece) -> u64
    ensures cause { PieceHasCause answer count result }
    ensures later { count ≤ result }
    ensures bound { result < 2 ^ 64 }
{
    match answer {
        Piece::Failed => raise(count),
        Piece::End | Piece::Got(_) => count,
    }
}

/// The count after a read with this answer.
#[tactic(auto, using(crate::proofs::Causes::read_without_fault))]
pub fn count_after_read(count: u64, answer: &ReadAnswer) -> u64
    ensures cause { ReadHasCause answer.now count result }
    ensures later { count ≤ result }
    ensures bound { result < 2 ^ 64 }
{
    match answer {
        ReadAnswer::Failed => raise(count),
        _ => count,
    }
}
