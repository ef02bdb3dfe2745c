//! The listing of a source.

ghost use Rattle.std.specs.Prelude.{[], ◌+◌, ◌++◌, ◌≡◌, ◌≤◌, length, IfOk, OnOk};
ghost use Rattle.obj36_parts.specs.ObjectSegment.{inner_statics, head_words, segment_limit};
ghost use Rattle.m36_list.specs.Counts.{AreCountsOf};
ghost use Rattle.alm_lines.specs.Spots.{start};
ghost use Rattle.m36_list.specs.Listing.{size_in, section_words, listing_of};

use crate::counts::{Counts, counts_of_object};
use crate::placed::put_all_placed;
use crate::printing::put_print;
use alm_asm::links::same_section;
use alm_asm::spot::{LocationCounter, next_line_spot, size_of};
use alm_parse::{Line36, Lines36};
use m36_outside::Text;
use m36_word::{NoMemory, Word};
use obj36::{Object, Section};
use obj36_parts::sections::HEAD_WORDS;
use obj36_read::reading::{first_words, words_after};
use std::alloc::Global;

// The number of words that a line places in a section.
#[tactic(auto, unfolding(crate::specs::Listing::size_in))]
fn size_in(
    alloc: Global,
    section: Section,
    text: &[u8],
    spot: LocationCounter,
    line: &Line36,
) -> Result<u64, NoMemory>
    ensures { IfOk result (λ size. size ≡ size_in section text.now spot line.now) }
{
    if !same_section(spot.section, section) {
        return Ok(0);
    }
    size_of(alloc, line.deed, line.args.items(), spot.place())
}

/// Adds a line for each word that the lines of a source place in a section. The first word is at
/// the offset `first`.
#[tactic(auto, using(alm_lines::proofs::Rooms::rooms))]
fn put_section_words(
    alloc: Global,
    out: &mut Text,
    name: &[u8],
    section: Section,
    source: &Lines36,
    first: u64,
    words: &[Word],
) -> Result<(), NoMemory>
    requires { first + length words.now ≤ segment_limit }
    ensures { OnOk result
        (out.new
        ≡ out.old
        ++ section_words name.now section source.now.text first words.now start source.now.lines) }
{
    let text = source.text();
    let mut spot = LocationCounter::start();
    let mut at = first;
    let mut left = words;
    for line in source.lines() {
        let size = size_in(alloc, section, text, spot, line)?;
        let here = first_words(left, size);
        put_all_placed(out, name, line.line, at, here)?;
        at += here.len() as u64;
        left = words_after(left, size);
        spot = next_line_spot(alloc, text, spot, line)?;
    }
    Ok(())
}

// The static words of the linkage section.
#[tactic(auto, using(crate::proofs::SectionPlaces::links_behind))]
fn inner_static_words(count: Counts, o: &Object) -> &[Word]
    requires { AreCountsOf count o.now }
    ensures value { result.now ≡ inner_statics o.now }
    ensures fits { head_words + length result.now ≤ segment_limit }
{
    let _count = count.linkage;
    o.parts().inner_statics()
}

// Adds the listing of a source, and of the object that it assembles to, to an empty text.
#[tactic(auto, unfolding(crate::specs::Listing::listing_of))]
fn put_listing(
    alloc: Global,
    text: &mut Text,
    name: &[u8],
    lines: &Lines36,
    o: &Object,
) -> Result<(), NoMemory>
    requires { text.old ≡ [] }
    ensures { OnOk result (text.new ≡ listing_of name.now lines.now o.now) }
{
    let count = counts_of_object(alloc, o)?;
    let words = o.section(Section::Text);
    let inner = inner_static_words(count, o);
    let outer = o.section(Section::Static);
    put_section_words(alloc, text, b"text", Section::Text, lines, 0, words)?;
    put_section_words(
        alloc,
        text,
        b"link",
        Section::Linkage,
        lines,
        HEAD_WORDS,
        inner,
    )?;
    put_section_words(alloc, text, b"static", Section::Static, lines, 0, outer)?;
    put_print(text, name, count, o)
}

/// The listing of a source and of the object that it assembles to, with a name: a line for each
/// word that a line of the source places, in order of section and offset, and then the print of the
/// object. Fails only with `NoMemory`.
pub fn listing(alloc: Global, name: &[u8], lines: &Lines36, o: &Object) -> Result<Text, NoMemory>
    ensures { IfOk result (λ text. text ≡ listing_of name.now lines.now o.now) }
{
    let mut text = Text::new(alloc);
    match put_listing(alloc, &mut text, name, lines, o) {
        Ok(()) => Ok(text),
        Err(fault) => {
            // Dropped explicitly, so that the drop is proved once for its type.
            drop(text);
            Err(fault)
        }
    }
}
