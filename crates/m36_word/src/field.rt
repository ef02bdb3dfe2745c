//! Fields of a word, with their positions as constants.

ghost use Rattle.std.specs.Prelude.{◌≡◌, ◌+◌, ◌-◌, ◌≤◌, ◌^◌, ◌<◌};
ghost use Rattle.m36_word.specs.Field.{field, with_field, GetsWhatWasPut, KeepsOtherBits};
ghost use Rattle.m36_word.specs.Field.{ReplacesFirstPut};

use crate::word::Word;

/// The field of LEN bits that begins at bit FIRST, where bit 0 is the most significant of 36.
pub struct Field<const FIRST: u32, const LEN: u32>;

impl<const FIRST: u32, const LEN: u32> Field<FIRST, LEN> {
    /// The field's value, below 2^LEN. The field has to lie within the word.
    pub fn get(w: Word) -> u64
        requires some { 1 ≤ LEN }
        requires inside { FIRST + LEN ≤ 36 }
        ensures value { result ≡ field w FIRST LEN }
        ensures bound { result < 2 ^ LEN }
    {
        (w.value() >> (36 - FIRST - LEN)) % (1 << LEN)
    }

    /// The word with this field set to a number below 2^LEN. Every other bit is kept.
    pub fn put(w: Word, v: u64) -> Word
        requires some { 1 ≤ LEN }
        requires inside { FIRST + LEN ≤ 36 }
        requires fits { v < 2 ^ LEN }
        ensures { result ≡ with_field w FIRST LEN v }
    {
        let value = w.value();
        let above = value >> (36 - FIRST);
        let below = value % (1 << (36 - FIRST - LEN));
        Word::low((((above << LEN) + v) << (36 - FIRST - LEN)) + below)
    }
}

/// The three laws of fields: a get returns what was put, a put keeps every other bit, and a second
/// put replaces the first.
pub fn field_laws()
    ensures get { GetsWhatWasPut }
    ensures others { KeepsOtherBits }
    ensures again { ReplacesFirstPut }
{}
