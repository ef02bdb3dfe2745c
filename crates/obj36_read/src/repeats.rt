//! Names that two definitions have, in a list of words.

ghost use Rattle.std.specs.Prelude.{ℕ, [], ◌≡◌, ◌+◌, ◌/◌, ◌%◌, ◌^◌, ◌<◌, min, length};
ghost use Rattle.std.specs.Prelude.{Option, Some, None, IfSome, IfOk, OnOk};
ghost use Rattle.std.specs.Option.{option_map};
ghost use Rattle.obj36_read.specs.Reading.{quarter_at};
ghost use Rattle.obj36_read.specs.TableFaults.{earlier, index_if_bad, definition_count};
ghost use Rattle.obj36_read.specs.TableFaults.{first_definition, same_name, first_repeat};
ghost use Rattle.obj36_read.specs.Spelled.{words_but_last, leading_quarters_value, last_word_value};
ghost use Rattle.obj36_read.specs.Repeated.{least_earlier_place};

use crate::reading::{first_words, quarter_from, word_at, words_after};
use crate::tables::{
    count_of_definitions, earlier_of, first_definition_offset, is_name_within,
    next_definition_offset, offset_of_name,
};
use indexmap::IndexMap;
use m36_text::HashSeed;
use m36_word::{NoMemory, Word};
use std::alloc::Global;

/// The words of a name. Two names that lie within the section are equal exactly if these are.
#[derive(Clone, Copy, PartialEq, Eq, Hash)]
struct Spelling<'a> {
    /// Its words but the last.
    whole: &'a [Word],
    /// The number of its characters.
    length: u64,
    /// The characters of its last word, and of a name shorter than four also its length, as one
    /// number.
    last: u64,
}

// The first `count` + 1 parts of nine bits of a word, as one number.
#[tactic(auto, unfolding(crate::specs::Spelled::leading_quarters_value))]
fn leading_quarters(word: Word, count: u64) -> u64
    requires { count < 4 }
    ensures { result ≡ leading_quarters_value word count }
{
    let value = word.value();
    match count {
        0 => value / (1 << 27),
        1 => value / (1 << 18),
        2 => value / (1 << 9),
        _ => value,
    }
}

// The words of a name but the last.
#[tactic(auto, unfolding(crate::specs::Spelled::words_but_last))]
fn words_before_last(d: &[Word], at: u64) -> &[Word]
    requires at { at < 2 ^ 18 }
    ensures { result.now ≡ words_but_last d.now at }
{
    first_words(words_after(d, at), quarter_from(d, at, 0) / 4)
}

// The nine-bit parts of the last word of a name that belong to the name, as one number.
#[tactic(auto, unfolding(crate::specs::Spelled::last_word_value))]
fn value_of_last_word(d: &[Word], at: u64) -> u64
    requires at { at < 2 ^ 18 }
    ensures { result ≡ last_word_value d.now at }
{
    let length = quarter_from(d, at, 0);
    leading_quarters(word_at(d, at + length / 4), length % 4)
}

// The name at an offset, by the words and numbers in which equal names agree.
fn spelling_at(d: &[Word], at: u64) -> Spelling<'_>
    requires at { at < 2 ^ 18 }
    ensures whole { result.whole.now ≡ words_but_last d.now at }
    ensures length { result.length ≡ quarter_at d.now at 0 }
    ensures last { result.last ≡ last_word_value d.now at }
{
    Spelling {
        whole: words_before_last(d, at),
        length: quarter_from(d, at, 0),
        last: value_of_last_word(d, at),
    }
}

// The lesser of `place` and `other`. None if there is no other.
fn lesser(place: u64, other: Option<u64>) -> Option<u64>
    requires { place < 2 ^ 18 }
    ensures value { result ≡ option_map (min place) other }
    ensures bound { IfSome result (λ p. p < 2 ^ 20) }
{
    match other {
        None => None,
        Some(p) => Some(place.min(p)),
    }
}

// Records the place of a name. If the name occurred before, returns the least place of it so far.
// Ignores a name that is not within the section.
fn add_place<'a>(
    d: &'a [Word],
    places: &mut IndexMap<Spelling<'a>, u64, HashSeed>,
    place: u64,
) -> Result<Option<u64>, NoMemory>
    requires { place < 2 ^ 18 }
    ensures value { IfOk result (λ here. here ≡ least_earlier_place d.now places.old.entries
        place) }
    ensures bound { IfOk result (λ here. IfSome here (λ p. p < 2 ^ 20)) }
    ensures more { OnOk result ((at : ℕ) → least_earlier_place d.now places.new.entries at
        ≡ earlier (least_earlier_place d.now places.old.entries at)
        (index_if_bad (same_name d.now place at) (min place at))) }
{
    if !is_name_within(d, place) {
        return Ok(None);
    }
    let spelled = spelling_at(d, place);
    let here = lesser(place, places.get(&spelled).copied());
    places.insert(spelled, here.unwrap_or(place))?;
    Ok(here)
}

// The least place of a name that two definitions have. The map of places is empty at first.
fn find_repeats<'a>(
    d: &'a [Word],
    places: &mut IndexMap<Spelling<'a>, u64, HashSeed>,
) -> Result<Option<u64>, NoMemory>
    requires { places.old.entries ≡ [] }
    ensures value { IfOk result (λ place.
        place ≡ first_repeat d.now (definition_count d.now) (first_definition d.now)) }
    ensures bound { IfOk result (λ place. IfSome place (λ p. p < 2 ^ 20)) }
{
    let mut found = None;
    let mut at = first_definition_offset(d);
    for _ in 0..count_of_definitions(d) {
        let here = add_place(d, places, offset_of_name(d, at))?;
        found = earlier_of(found, here);
        at = next_definition_offset(d, at);
    }
    Ok(found)
}

// The least place of a name that two definitions have, as an index in the definition section.
pub(crate) fn fault_of_repeats(alloc: Global, d: &[Word]) -> Result<Option<u64>, NoMemory>
    ensures value { IfOk result (λ place.
        place ≡ first_repeat d.now (definition_count d.now) (first_definition d.now)) }
    ensures bound { IfOk result (λ place. IfSome place (λ p. p < 2 ^ 20)) }
{
    let seed = HashSeed::of_words(alloc, d)?;
    let mut places = IndexMap::with_hasher(alloc, seed);
    let found = find_repeats(d, &mut places);
    // Dropped explicitly, so that the drop is proved once for its type.
    drop(places);
    found
}
