//! Writes to core. If something that is kept depends on the word, everything is emptied.

ghost use Rattle.std.specs.Prelude.{ℕ, ◌≡◌, ◌<◌, Bool, true, false, IsFalse, length, slice_set};
ghost use Rattle.m36_model.specs.Place.{marked_word, with_mark};
ghost use Rattle.m36_associative.specs.Right.{AreCoherent};
ghost use Rattle.m36_associative.specs.Watched.{is_watched};

use crate::memories::Memories;
use crate::watched_words::rewatch;
use m36_core::Core;
use m36_desc::Dbr;
use m36_word::Word;

/// Prepares for a write of a watched word: empties everything if something that is kept depends on
/// the word, and otherwise only the front.
#[cold]
#[inline(never)]
fn prepare_watched_write(core: &Core, dbr: &Dbr, memories: &mut Memories, a: u32)
    requires { AreCoherent core.now dbr.now memories.old }
    ensures { (v : ℕ) → AreCoherent (slice_set core.now a v) dbr.now memories.new }
{
    rewatch(core, *dbr, memories);
    if memories.words.has(a) {
        memories.forget();
        return;
    }
    if memories.tables.has(a) {
        memories.forget();
    }
}

/// Prepares for a write of the word at address `a`, so that what is kept stays right whatever value
/// is written.
#[inline(always)]
fn prepare_write(core: &Core, dbr: &Dbr, memories: &mut Memories, a: u32)
    requires { AreCoherent core.now dbr.now memories.old }
    ensures { (v : ℕ) → AreCoherent (slice_set core.now a v) dbr.now memories.new }
{
    if memories.words.has(a) {
        prepare_watched_write(core, dbr, memories, a);
        return;
    }
    if memories.tables.has(a) {
        prepare_watched_write(core, dbr, memories, a);
    }
}

/// Whether a kept descriptor was read from the word at address `a`.
fn is_of_kept_descriptor(core: &Core, dbr: &Dbr, memories: &mut Memories, a: u32) -> bool
    requires { AreCoherent core.now dbr.now memories.old }
    ensures none { IsFalse result → is_watched memories.new.words a ≡ false }
    ensures right { AreCoherent core.now dbr.now memories.new }
{
    if !memories.words.has(a) {
        return false;
    }
    rewatch(core, *dbr, memories);
    memories.words.has(a)
}

/// Prepares for a mark that changes the page table word at address `a`. If a kept descriptor was
/// read from it, everything is emptied, and otherwise the front.
fn prepare_mark(core: &Core, dbr: &Dbr, memories: &mut Memories, a: u32)
    requires { AreCoherent core.now dbr.now memories.old }
    ensures { (modified : Bool)
        → AreCoherent (with_mark core.now (record { address = a; modified = modified })) dbr.now
        memories.new }
{
    if is_of_kept_descriptor(core, dbr, memories, a) {
        memories.forget();
        return;
    }
    memories.clear_front();
}

/// Writes the word at address `a`.
#[inline(always)]
pub fn store(core: &mut Core, dbr: &Dbr, memories: &mut Memories, a: u32, w: Word)
    requires place { a < length core.old }
    requires right { AreCoherent core.old dbr.now memories.old }
    ensures core { core.new ≡ slice_set core.old a w }
    ensures right { AreCoherent core.new dbr.now memories.new }
{
    prepare_write(core, dbr, memories, a);
    core.poke(a, w);
}

/// A page table word with its used bit turned on.
#[tactic(auto, unfolding(m36_model::specs::Place::with_used))]
fn with_used(w: Word) -> Word
    ensures { result ≡ marked_word false w }
{
    let value = w.value();
    Word::low(value / 1024 * 1024 + 512 + value % 512)
}

/// A page table word with its used bit and its modified bit turned on.
#[tactic(auto, unfolding(m36_model::specs::Place::with_modified))]
fn with_modified(w: Word) -> Word
    ensures { result ≡ marked_word true w }
{
    let value = with_used(w).value();
    Word::low(value / 128 * 128 + 64 + value % 64)
}

/// A page table word with its used bit turned on and, if `modified` is on, its modified bit too.
pub(crate) fn with_mark(w: Word, modified: bool) -> Word
    ensures { result ≡ marked_word modified w }
{
    if modified {
        with_modified(w)
    } else {
        with_used(w)
    }
}

/// Marks the page table word at address `a` as used or, if `modified` is on, as used and modified.
#[tactic(auto, using(crate::proofs::Found::unchanged))]
pub fn mark(core: &mut Core, dbr: &Dbr, memories: &mut Memories, a: u32, modified: bool)
    requires place { a < length core.old }
    requires right { AreCoherent core.old dbr.now memories.old }
    ensures marked { core.new ≡ with_mark core.old (record { address = a; modified = modified }) }
    ensures len { length core.new ≡ length core.old }
    ensures right { AreCoherent core.new dbr.now memories.new }
{
    let word = core.peek(a);
    let marked = with_mark(word, modified);
    if marked == word {
        return;
    }
    prepare_mark(core, dbr, memories, a);
    core.poke(a, marked);
}
