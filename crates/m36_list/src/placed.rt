//! Words that lines of a source place.

ghost use Rattle.std.specs.Prelude.{◌+◌, ◌++◌, ◌≡◌, ◌^◌, ◌<◌, ◌≤◌, length, OnOk};
ghost use Rattle.m36_list.specs.Listing.{placed_line, placed_lines};
ghost use Rattle.obj36_parts.specs.ObjectSegment.{segment_limit};

use crate::fields::{put_field, put_last, put_number};
use m36_outside::Text;
use m36_text::{decimal, octal};
use m36_word::{NoMemory, Word};

/// Adds the line of a word that a line of the source places.
#[tactic(auto, unfolding(crate::specs::Listing::placed_line), using(crate::proofs::LineFields::lines))]
fn add_placed_word(
    text: &mut Text,
    section: &[u8],
    line: u32,
    at: u64,
    word: Word,
) -> Result<(), NoMemory>
    requires { at < 2 ^ 18 }
    ensures { OnOk result (text.new ≡ text.old ++ placed_line section.now line at word) }
{
    put_field(text, section)?;
    put_number(text, at)?;
    put_field(text, octal(word.value(), 12).as_str().as_bytes())?;
    put_last(text, decimal(line as u64).as_str().as_bytes())
}

/// Adds the lines of words that one line of the source places. The first one is at the offset
/// `first`.
pub fn put_all_placed(
    text: &mut Text,
    section: &[u8],
    line: u32,
    first: u64,
    words: &[Word],
) -> Result<(), NoMemory>
    requires { first + length words.now ≤ segment_limit }
    ensures { OnOk result (text.new ≡ text.old ++ placed_lines section.now line first words.now) }
{
    for (i, word) in words.iter().enumerate() {
        add_placed_word(text, section, line, first + i as u64, *word)?;
    }
    Ok(())
}
