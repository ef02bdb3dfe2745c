//! An output in memory whose calls fail on request.

ghost use Rattle.std.specs.Prelude.{◌≡◌, ◌+◌, ◌≤◌, ◌<◌, ◌^◌, ◌++◌, ◌↔◌, ◌⊎◌, Some, IsTrue, IfOk};
ghost use Rattle.std.specs.Prelude.{length, vec_len, vec_capacity};
ghost use Rattle.m36_outside.specs.Passing.{PutTakes, TakesLines, joined};
ghost use Rattle.m36_outside.specs.Put.{PutResult, PutHasCause};

use crate::block::Block;
use crate::call_log::Log;
use crate::calls::Calls;
use crate::faults::raise;
use crate::sink::{Put, Sink};
use crate::text::Text;
use m36_word::NoMemory;
use std::alloc::Global;
use std::marker::Model;

/// Output in memory. What is written is known to contracts.
///
/// Puts are numbered from 1, and from 2^32 - 1 on each has that number. A put whose number was
/// listed fails and takes nothing. A piece that is longer than the room that is left fails too,
/// and its first bytes are taken, as many as fit. Each piece of a block is a put, up to the first
/// that fails.
#[derive(Drop)]
pub struct MemSink {
    bytes: Vec<u8>,
    puts: Calls,
    pieces: Log<Text>,
    room: usize,
    faults: u64,
}

impl Model for MemSink {
    ghost use Rattle.std.specs.Prelude.{◌≤◌, ◌<◌, ◌^◌, vec_len, vec_capacity};
    ghost use Rattle.m36_outside.specs.MemSink.{MemSinkFields};

    ghost Value = { MemSinkFields };

    ghost view = { λ s. record {
      bytes = s.bytes.items;
      pieces = s.pieces.entries;
      room = s.room;
      puts = s.puts;
      faults = s.faults;
    } };

    ghost invariant = { λ s. (vec_len s.bytes ≤ s.room) × (s.room ≤ vec_capacity s.bytes)
        × (s.faults < 2 ^ 64) };
}

impl MemSink {
    ghost use Rattle.m36_outside.specs.MemSink.{new_sink};

    /// An empty output with room for `room` bytes. `fail` has the numbers of the puts that fail.
    /// All memory is allocated here. Fails only with `NoMemory`.
    pub fn new(alloc: Global, room: usize, fail: &[u32]) -> Result<MemSink, NoMemory>
        ensures { IfOk result (λ sink. sink ≡ new_sink room fail.now) }
    {
        let bytes = Vec::with_capacity(alloc, room)?;
        match Calls::new(alloc, fail) {
            Ok(puts) => Ok(MemSink {
                bytes,
                puts,
                pieces: Log::new(),
                room,
                faults: 0,
            }),
            Err(cause) => {
                // Dropped by a call, so the drop is proved once for its type.
                drop(bytes);
                Err(cause)
            }
        }
    }

    /// All that is written.
    pub fn bytes(&self) -> &[u8]
        ensures { result.now ≡ self.now.bytes }
    {
        self.bytes.as_slice()
    }
}

impl Sink for MemSink {
    ghost use Rattle.m36_outside.specs.MemSink.{put_fails, after_put, block_fails, after_block};

    ghost written = { λ s. Some s.bytes };

    ghost taken = { λ s. s.pieces };

    ghost faults = { λ s. s.faults };

    fn put(&mut self, piece: &[u8]) -> Put
        ensures says { PutResult result (Some self.old.bytes) (Some self.new.bytes) piece.now }
        ensures took { PutTakes result
            (Some self.old.bytes) (Some self.new.bytes) self.old.pieces self.new.pieces piece.now }
        ensures cause { PutHasCause result self.old.faults self.new.faults }
        ensures count { self.old.faults ≤ self.new.faults }
        ensures count_bound { self.new.faults < 2 ^ 64 }

        ensures fails { (result ≡ Put.Failed) ↔ IsTrue (put_fails self.old piece.now) }
        ensures after { self.new ≡ after_put self.old piece.now }
    {
        if self.puts.next_fails() {
            self.pieces.note(&&piece[..0]);
            self.faults = raise(self.faults);
            return Put::Failed;
        }
        let left = self.room - self.bytes.len();
        if piece.len() > left {
            add_within(&mut self.bytes, &piece[..left]);
            self.pieces.note(&&piece[..left]);
            self.faults = raise(self.faults);
            return Put::Failed;
        }
        add_within(&mut self.bytes, piece);
        self.pieces.note(&piece);
        Put::Done
    }

    #[tactic(auto, using(crate::proofs::Blocks::putting, crate::proofs::MemoryBlocks::in_memory))]
    fn put_block(&mut self, block: &Block) -> Put
        ensures says { PutResult result (Some self.old.bytes) (Some self.new.bytes)
            (joined block.now) }
        ensures took { TakesLines result self.old.pieces self.new.pieces block.now }
        ensures cause { PutHasCause result self.old.faults self.new.faults }
        ensures count { self.old.faults ≤ self.new.faults }
        ensures count_bound { (self.old.faults < 2 ^ 64) ⊎ (1 ≤ length block.now)
            → self.new.faults < 2 ^ 64 }

        ensures fails { (result ≡ Put.Failed) ↔ IsTrue (block_fails self.old block.now) }
        ensures after { self.new ≡ after_block self.old block.now }
    {
        let mut place = 0;
        while place < block.len() {
            match self.put(block.piece(place)) {
                Put::Done => {}
                Put::Failed => return Put::Failed,
            }
            place += 1;
        }
        Put::Done
    }
}

/// Appends bytes to a list that has room for them.
fn add_within(bytes: &mut Vec<u8>, more: &[u8])
    requires { vec_len bytes.old + length more.now ≤ vec_capacity bytes.old }
    ensures items { bytes.new.items ≡ bytes.old.items ++ more.now }
    ensures len { vec_len bytes.new ≡ vec_len bytes.old + length more.now }
    ensures capacity { vec_capacity bytes.old ≤ vec_capacity bytes.new }
{
    bytes.extend_from_slice(more).unwrap();
}
