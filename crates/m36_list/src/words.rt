//! The words of the text, with their disassembly.

ghost use Rattle.std.specs.Prelude.{◌++◌, ◌≡◌, ◌^◌, ◌<◌, ◌≤◌, length, OnOk};
ghost use Rattle.m36_list.specs.Print.{word_line, word_lines};
ghost use Rattle.obj36_parts.specs.ObjectSegment.{segment_limit};

use crate::disassembly::disassemble;
use crate::fields::{put_field, put_last, put_number};
use m36_outside::Text;
use m36_text::octal;
use m36_word::{NoMemory, Word};

/// Adds the line of a word at an offset.
#[tactic(auto, unfolding(crate::specs::Print::word_line), using(crate::proofs::LineFields::lines))]
fn put_word(text: &mut Text, at: u64, word: Word) -> Result<(), NoMemory>
    requires { at < 2 ^ 18 }
    ensures { OnOk result (text.new ≡ text.old ++ word_line at word) }
{
    put_number(text, at)?;
    put_field(text, octal(word.value(), 12).as_str().as_bytes())?;
    put_last(text, disassemble(word).as_str().as_bytes())
}

/// Adds the lines of all words of a text section.
pub fn put_words(text: &mut Text, words: &[Word]) -> Result<(), NoMemory>
    requires { length words.now ≤ segment_limit }
    ensures { OnOk result (text.new ≡ text.old ++ word_lines 0 words.now) }
{
    for (at, word) in words.iter().enumerate() {
        put_word(text, at as u64, *word)?;
    }
    Ok(())
}
