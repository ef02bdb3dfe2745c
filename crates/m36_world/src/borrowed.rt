//! A world that borrows its objects.

ghost use Rattle.std.specs.Prelude.{[], ◌∷◌, ◌≡◌};

use crate::calls::{BlockCall, InputCall, PutCall, ReadCall, WriteCall};
use crate::event::Event;
use crate::world::World;
use m36_outside::{Block, Folder, Lines, Log, Piece, Put, ReadAnswer, Sink, WriteAnswer};
use std::alloc::Global;

/// A folder, an input and an output of the caller, with the events since they were borrowed.
#[derive(Drop)]
pub struct Borrowed<'a, F, L, S> {
    folder: &'a mut F,
    input: &'a mut L,
    output: &'a mut S,
    events: Log<Event>,
}

impl<'a, F: Folder, L: Lines, S: Sink> Borrowed<'a, F, L, S> {
    /// Borrows these objects. The list of events is empty.
    pub fn new(folder: &'a mut F, input: &'a mut L, output: &'a mut S) -> Borrowed<'a, F, L, S>
        ensures folder { result.folder.now ≡ folder.old }
        ensures same_folder { result.folder.ghost_name ≡ folder.entry.ghost_name }
        ensures input { result.input.now ≡ input.old }
        ensures same_input { result.input.ghost_name ≡ input.entry.ghost_name }
        ensures output { result.output.now ≡ output.old }
        ensures same_output { result.output.ghost_name ≡ output.entry.ghost_name }
        ensures events { result.events.entries ≡ [] }
    {
        Borrowed {
            folder,
            input,
            output,
            events: Log::new(),
        }
    }
}

impl<'a, F: Folder, L: Lines, S: Sink> World for Borrowed<'a, F, L, S> {
    ghost seen = { λ w. record {
      events = w.events.entries;
      reads = F.asked w.folder.now;
      writes = F.wrote w.folder.now;
      outputs = S.taken w.output.now;
      inputs = L.given w.input.now;
      files = F.files w.folder.now;
      written = S.written w.output.now;
      left = L.left w.input.now;
      read_faults = F.read_faults w.folder.now;
      write_faults = F.write_faults w.folder.now;
      output_faults = S.faults w.output.now;
      input_faults = L.faults w.input.now;
      references = w.folder.ghost_name ∷ w.input.ghost_name ∷ w.output.ghost_name ∷ [];
    } };

    fn read(&mut self, alloc: Global, name: &[u8]) -> ReadAnswer {
        let answer = self.folder.read(alloc, name);
        self.events.note(&ReadCall {
            name,
            answer: &answer,
        });
        answer
    }

    fn write(&mut self, alloc: Global, name: &[u8], content: &[u8]) -> WriteAnswer {
        let answer = self.folder.write(alloc, name, content);
        self.events.note(&WriteCall {
            name,
            content,
            answer,
        });
        answer
    }

    fn put(&mut self, piece: &[u8]) -> Put {
        let answer = self.output.put(piece);
        self.events.note(&PutCall { piece, answer });
        answer
    }

    fn put_block(&mut self, block: &Block) -> Put {
        let answer = self.output.put_block(block);
        self.events.note(&BlockCall { block, answer });
        answer
    }

    fn next_piece(&mut self, into: &mut [u8]) -> Piece {
        let answer = self.input.next_piece(into);
        self.events.note(&InputCall { into, answer });
        answer
    }
}
