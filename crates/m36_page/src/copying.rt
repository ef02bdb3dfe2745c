//! Copies one page between core and the kept words.

ghost use Rattle.std.specs.Prelude.{◌≡◌, ◌+◌, ◌*◌, ◌≤◌, length};
ghost use Rattle.m36_page.specs.Copied.{IsCopied};

use m36_core::{Core, frame_law};
use m36_word::Word;

// The number of words of a page.
const PAGE: usize = 1024;

/// Copies the words of a frame to `words`, from index `from` on.
pub(crate) fn copy_out(core: &Core, frame: u32, words: &mut [Word], from: usize)
    requires frame { 1024 * frame + 1024 ≤ length core.now }
    requires room { from + 1024 ≤ length words.old }
    ensures { IsCopied core.now (1024 * frame) words.old from words.new }
{
    let page = core.page(frame);
    for i in 0..PAGE {
        words[from + i] = page[i];
    }
}

// Copies a page of `words`, from index `from` on, into a frame.
fn copy_whole(core: &mut Core, frame: u32, words: &[Word], from: usize)
    requires frame { 1024 * frame + 1024 ≤ length core.old }
    requires room { from + 1024 ≤ length words.now }
    ensures { IsCopied words.now from core.old (1024 * frame) core.new }
{
    frame_law();
    let page = core.page_mut(frame);
    for i in 0..PAGE {
        page[i] = words[from + i];
    }
}

// As `copy_whole`, for a page that may be incomplete: missing words are zeros.
fn copy_part(core: &mut Core, frame: u32, words: &[Word], from: usize)
    requires { 1024 * frame + 1024 ≤ length core.old }
    ensures { IsCopied words.now from core.old (1024 * frame) core.new }
{
    frame_law();
    let page = core.page_mut(frame);
    let count = PAGE.min(words.len().saturating_sub(from));
    for i in 0..count {
        page[i] = words[from + i];
    }
    for k in count..PAGE {
        page[k] = Word::ZERO;
    }
}

/// Copies a page of `words`, from index `from` on, into a frame. Missing words are zeros.
pub(crate) fn copy_in(core: &mut Core, frame: u32, words: &[Word], from: usize)
    requires { 1024 * frame + 1024 ≤ length core.old }
    ensures { IsCopied words.now from core.old (1024 * frame) core.new }
{
    if words.len().saturating_sub(from) >= PAGE {
        copy_whole(core, frame, words, from);
    } else {
        copy_part(core, frame, words, from);
    }
}
