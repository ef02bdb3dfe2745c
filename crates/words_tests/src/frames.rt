//! Core: its words are kept by frames of 1024.

use m36_core::Core;
use m36_word::{NoMemory, Word};
use std::alloc::Global;

/// Whether core has two frames, and each way to read word 1025 gives `word`.
fn shows(core: &Core, word: Word) -> bool {
    core.len() == 2048
        && core.peek(1025) == word
        && core.page(1)[1] == word
        && core.words()[1025] == word
        && core.page(0).len() == 1024
}

fn is_clear(core: &Core) -> bool {
    core.len() == 2048 && core.peek(2047) == Word::ZERO
}

fn write(core: &mut Core, word: Word) {
    if core.len() > 1025 {
        core.poke(1025, word);
    }
}

fn clear_by_page(core: &mut Core) {
    if core.len() > 1025 {
        core.page_mut(1)[1] = Word::ZERO;
    }
}

/// Whether a written word can be read and then cleared, and a copy made between still has it.
fn keeps(alloc: Global, core: &mut Core) -> Result<bool, NoMemory> {
    let ones = Word::low(0o777777777777);
    let is_new = is_clear(core);
    write(core, ones);
    let is_written = shows(core, ones);
    let before = core.copy(alloc)?;
    clear_by_page(core);
    let is_kept = shows(core, Word::ZERO) && shows(&before, ones);
    // Dropped by a call, so that the drop is proved once for its type; also below.
    drop(before);
    Ok(is_new && is_written && is_kept)
}

#[test]
fn keeps_words_in_frames(rt: HostRuntime) -> Result<(), NoMemory> {
    let mut core = Core::new(rt.alloc(), 2)?;
    let told = keeps(rt.alloc(), &mut core);
    drop(core);
    assert!(rt; told?);
    Ok(())
}
