//! Relocates parts of words: halves, and bits 3 to 17.

ghost use Rattle.std.specs.Prelude.{◌≡◌, ◌+◌, ◌-◌, ◌*◌, ◌/◌, ◌%◌, ◌^◌, ◌<◌, slice_index};
ghost use Rattle.obj36_parts.specs.Halves.{bits_3_to_17};
ghost use Rattle.m36_relocate.specs.Words.{with_offset, relocated_negative, biased_offset};
ghost use Rattle.m36_relocate.specs.Words.{relocated_word, part_fits, is_relocation_in, start_of};
ghost use Rattle.m36_relocate.specs.Words.{word_index_of, with_word_relocated};
ghost use Rattle.m36_relocate.specs.Words.{with_relocation_applied, relocated_words, one_fits};
ghost use Rattle.m36_relocate.specs.Words.{all_fit};

use crate::layout::{Bases, Relocation, Shape, relocated_number};
use m36_word::Word;
use obj36_parts::halves::{OFFSET_LIMIT, left_of, right_of, word_of_halves};
use obj36_parts::sections::{HEAD_WORDS, is_text_section};
use obj36_parts::{Reloc, Section};

// Bits 3 to 17 of a word.
#[tactic(auto, unfolding(obj36_parts::specs::Halves::bits_3_to_17))]
fn bits_3_to_17(w: Word) -> u64
    ensures value { result ≡ bits_3_to_17 w }
    ensures bound { result < 2 ^ 15 }
{
    left_of(w) % (1 << 15)
}

// A word with other bits 3 to 17.
#[tactic(auto, unfolding(crate::specs::Words::with_offset))]
fn with_offset(w: Word, v: u64) -> Word
    ensures { result ≡ with_offset w v }
{
    word_of_halves(
        left_of(w) / (1 << 15) * (1 << 15) + v % (1 << 15),
        right_of(w),
    )
}

// The relocated value of a negative number in bits 3 to 17, plus 2^15; `v` is its 15 bits. It
// counts back from where the component begins. In the linkage and symbol sections it does not
// change.
fn relocated_negative(b: &Bases, target: Section, v: u64) -> u64
    requires { v < 2 ^ 15 }
    ensures value { result ≡ relocated_negative b.now target v }
    ensures bound { result < 2 ^ 61 }
{
    match target {
        Section::Text => b.text + v,
        Section::Static => b.statics + v,
        _ => v,
    }
}

// The relocated number of bits 3 to 17, plus 2^15 so that it is not negative.
#[tactic(auto, unfolding(crate::specs::Words::biased_offset))]
fn biased_offset(m: &Relocation, target: Section, v: u64) -> u64
    requires { v < 2 ^ 15 }
    ensures { result ≡ biased_offset m.now target v }
{
    if v < OFFSET_LIMIT {
        (1 << 15) + relocated_number(m, target, v)
    } else {
        relocated_negative(&m.bases, target, v)
    }
}

// The word with the part of a relocation relocated.
#[tactic(auto, unfolding(crate::specs::Words::relocated_word))]
fn relocated_word(m: &Relocation, r: &Reloc, w: Word) -> Word
    ensures { result ≡ relocated_word m.now r.now w }
{
    if r.part == 0 {
        return word_of_halves(relocated_number(m, r.target, left_of(w)), right_of(w));
    }
    if r.part == 1 {
        return word_of_halves(left_of(w), relocated_number(m, r.target, right_of(w)));
    }
    with_offset(w, biased_offset(m, r.target, bits_3_to_17(w)))
}

// Whether the relocated part fits: bits 3 to 17 must be from -2^14 to 2^14 - 1.
#[tactic(auto, unfolding(crate::specs::Words::part_fits))]
fn part_fits(m: &Relocation, r: &Reloc, w: Word) -> bool
    ensures { result ≡ part_fits m.now r.now w }
{
    if r.part == 0 {
        return true;
    }
    if r.part == 1 {
        return true;
    }
    biased_offset(m, r.target, bits_3_to_17(w)) < (1 << 15) + OFFSET_LIMIT
}

/// Whether a relocation is of a static word, or of the text, as `statics` says.
pub fn is_relocation_in(statics: bool, r: &Reloc) -> bool
    ensures { result ≡ is_relocation_in statics r.now }
{
    if statics {
        !is_text_section(r.section)
    } else {
        is_text_section(r.section)
    }
}

// The offset from which relocations count the static words, or the words of the text, as `statics`
// says.
fn start_of(statics: bool, s: &Shape) -> usize
    ensures value { result ≡ start_of statics s.now }
{
    if statics {
        if s.newer { 0 } else { HEAD_WORDS as usize }
    } else {
        0
    }
}

// The index of the word that a relocation is about, among the static words or the words of the
// text, as `statics` says.
fn word_index_of(m: &Relocation, statics: bool, r: &Reloc) -> usize
    ensures { result ≡ word_index_of m.now.shape statics r.now }
{
    (r.offset as usize).saturating_sub(start_of(statics, &m.shape))
}

// Relocates word i, if there is one.
fn relocate_word_at(words: &mut [Word], m: &Relocation, r: &Reloc, i: usize)
    ensures { words.new ≡ with_word_relocated m.now r.now i words.old }
{
    if i < words.len() {
        let w = words[i];
        words[i] = relocated_word(m, r, w);
    }
}

// Relocates the word of a relocation, if it is one of these words.
#[tactic(auto, unfolding(crate::specs::Words::with_relocation_applied))]
fn apply_relocation(words: &mut [Word], m: &Relocation, statics: bool, r: &Reloc)
    ensures { words.new ≡ with_relocation_applied m.now statics r.now words.old }
{
    if is_relocation_in(statics, r) {
        relocate_word_at(words, m, r, word_index_of(m, statics, r));
    }
}

/// Relocates the parts of these words that have relocations, in order. The words are the static
/// words, or the text, as `statics` says.
#[tactic(auto, unfolding(crate::specs::Words::relocated_words))]
pub fn relocate_words(words: &mut [Word], m: &Relocation, statics: bool, relocations: &[Reloc])
    ensures { words.new ≡ relocated_words m.now statics relocations.now words.old }
{
    let mut rest = relocations;
    while let [r, others @ ..] = rest {
        apply_relocation(words, m, statics, r);
        rest = others;
    }
}

// The word at an index, and 0 past the end.
fn word_at(words: &[Word], i: usize) -> Word
    ensures { result ≡ slice_index words.now i }
{
    if i < words.len() {
        words[i]
    } else {
        Word::ZERO
    }
}

// Whether the part of a relocation fits; true if it is not of these words.
#[tactic(auto, unfolding(crate::specs::Words::one_fits))]
fn one_fits(m: &Relocation, statics: bool, words: &[Word], r: &Reloc) -> bool
    ensures { result ≡ one_fits m.now statics words.now r.now }
{
    if is_relocation_in(statics, r) {
        part_fits(m, r, word_at(words, word_index_of(m, statics, r)))
    } else {
        true
    }
}

/// Whether each part of these words fits after relocation. The words are the static words, or the
/// text, as `statics` says.
#[tactic(auto, unfolding(crate::specs::Words::all_fit))]
pub fn all_fit(m: &Relocation, statics: bool, words: &[Word], relocations: &[Reloc]) -> bool
    ensures { result ≡ all_fit m.now statics words.now relocations.now }
{
    let mut rest = relocations;
    while let [r, others @ ..] = rest {
        if !one_fits(m, statics, words, r) {
            return false;
        }
        rest = others;
    }
    true
}
