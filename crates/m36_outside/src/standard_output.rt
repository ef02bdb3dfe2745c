//! The standard output.

ghost use Rattle.std.specs.Prelude.{[], ◌≡◌, ◌≤◌, ◌<◌, ◌^◌, ◌⊎◌, Some, length};
ghost use Rattle.m36_outside.specs.Passing.{PutTakes, TakesLines, joined};
ghost use Rattle.m36_outside.specs.Put.{PutResult, PutHasCause};
ghost use Rattle.m36_outside.specs.System.{PutHasError};

use crate::block::{Block, TakenPart};
use crate::call_log::Log;
use crate::faults::count_after_put;
use crate::sink::{Put, Sink};
use crate::text::Text;
use crate::writing::write_and_log;
use std::io;
use std::io::ErrorKind;
use std::marker::Model;

/// The standard output. The pieces that it took are known to contracts, and by them what was
/// written since it was made; so are its count of faults and the errors of the system. Each put is
/// flushed before it returns.
#[derive(Drop)]
pub struct StdSink<R> {
    faults: u64,
    taken: Log<Text>,
    errors: Log<ErrorKind>,
    rt: R,
}

impl<R> Model for StdSink<R> {
    ghost use Rattle.std.specs.Prelude.{◌<◌, ◌^◌};
    ghost use Rattle.m36_outside.specs.SystemModels.{OutputModel};

    ghost Value = { OutputModel };

    ghost view = { λ s.
        record { faults = s.faults; taken = s.taken.entries; errors = s.errors.entries } };

    ghost invariant = { λ s. s.faults < 2 ^ 64 };
}

impl<R: Print + Drop> StdSink<R> {
    /// The standard output of this runtime.
    pub fn new(rt: R) -> StdSink<R>
        ensures { result ≡ record { faults = 0; taken = []; errors = [] } }
    {
        StdSink {
            faults: 0,
            taken: Log::new(),
            errors: Log::new(),
            rt,
        }
    }
}

impl<R: Print + Drop> Sink for StdSink<R> {
    ghost written = { λ s. Some (joined s.taken) };

    ghost taken = { λ s. s.taken };

    ghost faults = { λ s. s.faults };

    fn put(&mut self, piece: &[u8]) -> Put
        ensures says { PutResult result (Some (joined self.old.taken))
            (Some (joined self.new.taken))
            piece.now }
        ensures took { PutTakes result
            (Some (joined self.old.taken))
            (Some (joined self.new.taken)) self.old.taken self.new.taken piece.now }
        ensures cause { PutHasCause result self.old.faults self.new.faults }
        ensures count { self.old.faults ≤ self.new.faults }
        ensures count_bound { self.new.faults < 2 ^ 64 }

        ensures error { PutHasError result self.old.errors self.new.errors }
    {
        let mut taken = Log::new();
        let answer = write_and_log(
            &mut io::writer(&self.rt),
            piece,
            &mut taken,
            &mut self.errors,
        );
        self.taken.note(&taken);
        self.faults = count_after_put(self.faults, answer);
        answer
    }

    /// Puts the pieces in one system call, or in as many as the system needs.
    fn put_block(&mut self, block: &Block) -> Put
        ensures says { PutResult result
            (Some (joined self.old.taken)) (Some (joined self.new.taken)) (joined block.now) }
        ensures took { TakesLines result self.old.taken self.new.taken block.now }
        ensures cause { PutHasCause result self.old.faults self.new.faults }
        ensures count { self.old.faults ≤ self.new.faults }
        ensures count_bound { (self.old.faults < 2 ^ 64) ⊎ (1 ≤ length block.now)
            → self.new.faults < 2 ^ 64 }

        ensures error { PutHasError result self.old.errors self.new.errors }
    {
        if block.is_empty() {
            return Put::Done;
        }
        let mut taken = Log::new();
        let answer = write_and_log(
            &mut io::writer(&self.rt),
            block.bytes(),
            &mut taken,
            &mut self.errors,
        );
        self.taken.note(&TakenPart {
            block,
            taken: &taken,
        });
        self.faults = count_after_put(self.faults, answer);
        answer
    }
}
