//! Bytes in memory that are consumed from the beginning on.

ghost use Rattle.std.specs.Prelude.{◌≡◌, ◌≤◌, ◌++◌, IfOk, length, take, drop};
ghost use Rattle.m36_outside.specs.Remaining.{piece_length};

use crate::text::Text;
use m36_word::NoMemory;
use std::alloc::Global;
use std::marker::Model;

/// Bytes of which some are already consumed; the view is the list of those that are left.
#[derive(Drop)]
pub struct Remaining {
    content: Text,
    taken: usize,
}

impl Model for Remaining {
    ghost use Rattle.std.specs.Prelude.{ℕ, List, ◌≤◌, drop, length};

    ghost Value = { List ℕ };

    ghost view = { λ u. drop u.taken u.content };

    ghost invariant = { λ u. u.taken ≤ length u.content };
}

impl Remaining {
    /// These bytes, with none consumed. Fails only with `NoMemory`.
    pub fn new(alloc: Global, bytes: &[u8]) -> Result<Remaining, NoMemory>
        ensures { IfOk result (λ unread. unread ≡ bytes.now) }
    {
        Ok(Remaining {
            content: Text::from_bytes(alloc, bytes)?,
            taken: 0,
        })
    }

    /// Moves the next bytes to the beginning of a buffer, as many as fit, and returns their
    /// number.
    #[tactic(auto, using(crate::proofs::Taken::taken))]
    pub fn take(&mut self, into: &mut [u8]) -> usize
        ensures count { result ≡ piece_length (length into.old) self.old }
        ensures moved { self.old ≡ take result into.new ++ self.new }
        ensures rest { self.new ≡ drop result self.old }
    {
        let count = copy_from(self.content.bytes(), self.taken, into);
        self.taken += count;
        count
    }
}

/// Copies the bytes of `from` from index `place` on to the beginning of `into`, as many as fit,
/// and returns their number.
fn copy_from(from: &[u8], place: usize, into: &mut [u8]) -> usize
    requires { place ≤ length from.now }
    ensures count { result ≡ piece_length (length into.old) (drop place from.now) }
    ensures same { take result into.new ≡ take result (drop place from.now) }
{
    let left = &from[place..];
    let count = into.len().min(left.len());
    into[..count].copy_from_slice(&left[..count]);
    count
}
