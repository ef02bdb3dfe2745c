//! Reads the words and the object of a file.

ghost use Rattle.std.specs.Prelude.{◌≤◌, length, IfOk};
ghost use Rattle.obj36_parts.specs.ObjectSegment.{segment_limit};
ghost use Rattle.m36_program.specs.Performs.{Performs};
ghost use Rattle.m36_program.specs.Program.{May};
ghost use Rattle.m36_files.specs.FileReaders.{file_words, file_object};

use crate::deciding::refusal_as_status;
use m36_program::read_bytes;
use m36_status::{Status, object_in, words_in};
use m36_word::Words;
use m36_world::World;
use obj36::Object;
use std::alloc::Global;

/// Reads the words of a file, at most as many as a segment has. An error is the status of the
/// command.
pub fn read_words<W: World>(alloc: Global, name: &[u8], world: &mut W) -> Result<Words, Status>
    ensures performs { (may : May) → Performs {may = may} (file_words name.now) result
        (W.seen world.old) (W.seen world.new) }
    ensures few { IfOk result (λ words. length words ≤ segment_limit) }
{
    match read_bytes(alloc, name, world) {
        Ok(text) => {
            let given = words_in(alloc, name, text.bytes());
            // Dropped by a call, so that the drop is proved once for its type.
            drop(text);
            refusal_as_status(given)
        }
        Err(status) => Err(status),
    }
}

/// Reads the object of a file. An error is the status of the command.
pub fn read_object<W: World>(alloc: Global, name: &[u8], world: &mut W) -> Result<Object, Status>
    ensures { (may : May) → Performs {may = may} (file_object name.now) result
        (W.seen world.old) (W.seen world.new) }
{
    match read_words(alloc, name, world) {
        Ok(words) => {
            let given = object_in(alloc, name, words.slice());
            drop(words);
            refusal_as_status(given)
        }
        Err(status) => Err(status),
    }
}
