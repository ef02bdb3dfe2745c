//! A world that owns its objects.

ghost use Rattle.std.specs.Prelude.{[], ◌≡◌};

use crate::calls::{BlockCall, InputCall, PutCall, ReadCall, WriteCall};
use crate::event::Event;
use crate::world::World;
use m36_outside::{Block, Folder, Lines, Log, Piece, Put, ReadAnswer, Sink, WriteAnswer};
use std::alloc::Global;

/// A folder, an input and an output, with the events so far.
#[derive(Drop)]
pub struct Outside<F, L, S> {
    folder: F,
    input: L,
    output: S,
    events: Log<Event>,
}

impl<F: Folder, L: Lines, S: Sink> Outside<F, L, S> {
    /// Takes these objects. The list of events is empty.
    pub fn new(folder: F, input: L, output: S) -> Outside<F, L, S>
        ensures folder { result.folder ≡ folder }
        ensures input { result.input ≡ input }
        ensures output { result.output ≡ output }
        ensures events { result.events.entries ≡ [] }
    {
        Outside {
            folder,
            input,
            output,
            events: Log::new(),
        }
    }

    /// The output.
    pub fn output(&self) -> &S
        ensures { result.now ≡ self.now.output }
    {
        &self.output
    }
}

impl<F: Folder, L: Lines, S: Sink> World for Outside<F, L, S> {
    ghost seen = { λ w. record {
      events = w.events.entries;
      reads = F.asked w.folder;
      writes = F.wrote w.folder;
      outputs = S.taken w.output;
      inputs = L.given w.input;
      files = F.files w.folder;
      written = S.written w.output;
      left = L.left w.input;
      read_faults = F.read_faults w.folder;
      write_faults = F.write_faults w.folder;
      output_faults = S.faults w.output;
      input_faults = L.faults w.input;
      references = [];
    } };

    fn read(&mut self, alloc: Global, name: &[u8]) -> ReadAnswer {
        let answer = self.folder.read(alloc, name);
        self.events.note(&ReadCall {
            name,
            answer: &answer,
        });
        answer
    }

    fn write(&mut self, alloc: Global, name: &[u8], content: &[u8]) -> WriteAnswer {
        let answer = self.folder.write(alloc, name, content);
        self.events.note(&WriteCall {
            name,
            content,
            answer,
        });
        answer
    }

    fn put(&mut self, piece: &[u8]) -> Put {
        let answer = self.output.put(piece);
        self.events.note(&PutCall { piece, answer });
        answer
    }

    fn put_block(&mut self, block: &Block) -> Put {
        let answer = self.output.put_block(block);
        self.events.note(&BlockCall { block, answer });
        answer
    }

    fn next_piece(&mut self, into: &mut [u8]) -> Piece {
        let answer = self.input.next_piece(into);
        self.events.note(&InputCall { into, answer });
        answer
    }
}
