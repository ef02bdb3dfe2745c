//! Octal digits of words and addresses, as arrays of characters.
//!
//! The code computes each digit separately and has no loop, since a line has about fifty digits
//! and is made for every step.

ghost use Rattle.std.specs.Prelude.{◌≡◌, ◌+◌, ◌≤◌, ◌<◌, ◌%◌, ◌^◌, ◌++◌, length, IsAscii};
ghost use Rattle.m36_text.specs.Digits.{octal_text, word_text, digit_character};
ghost use Rattle.m36_trace.specs.TraceLine.{segment_word_text};

use arrayvec::ArrayString;
use m36_word::Word;
use std::str;

/// The character of the last octal digit.
#[inline]
pub fn last_digit(v: u64) -> u8
    ensures { result ≡ digit_character (v % 8) }
{
    b'0' + (v % 8) as u8
}

/// A ring, in one digit.
#[tactic(auto, unfolding(m36_text::specs::Digits::octal_text, m36_text::specs::Digits::digits))]
pub fn ring_digit(ring: u8) -> [u8; 1]
    requires { ring < 2 ^ 3 }
    ensures { result ≡ octal_text 1 ring }
{
    [b'0' + ring]
}

/// A word, in twelve digits.
#[tactic(auto, unfolding(m36_text::specs::Digits::octal_text, m36_text::specs::Digits::digits))]
pub fn word_digits(word: Word) -> [u8; 12]
    ensures { result ≡ word_text word }
{
    let v = word.value();
    [
        last_digit(v >> 33),
        last_digit(v >> 30),
        last_digit(v >> 27),
        last_digit(v >> 24),
        last_digit(v >> 21),
        last_digit(v >> 18),
        last_digit(v >> 15),
        last_digit(v >> 12),
        last_digit(v >> 9),
        last_digit(v >> 6),
        last_digit(v >> 3),
        last_digit(v),
    ]
}

/// A segment number in five digits, a bar, and a word number in six.
#[tactic(auto, unfolding(m36_text::specs::Digits::octal_text, m36_text::specs::Digits::digits))]
pub fn place_digits(seg: u16, word: u32) -> [u8; 12]
    ensures { result ≡ segment_word_text seg word }
{
    let s = seg as u64;
    let w = word as u64;
    [
        last_digit(s >> 12),
        last_digit(s >> 9),
        last_digit(s >> 6),
        last_digit(s >> 3),
        last_digit(s),
        b'|',
        last_digit(w >> 15),
        last_digit(w >> 12),
        last_digit(w >> 9),
        last_digit(w >> 6),
        last_digit(w >> 3),
        last_digit(w),
    ]
}

/// Appends characters to a line that has room for them.
pub fn put_characters<const CAP: usize, const N: usize>(
    line: &mut ArrayString<CAP>,
    characters: &[u8; N],
)
    requires ascii { IsAscii characters.now }
    requires room { length line.old.bytes + N ≤ CAP }
    ensures text { line.new.bytes ≡ line.old.bytes ++ characters.now }
    ensures len { length line.new.bytes ≡ length line.old.bytes + N }
{
    line.push_str(unsafe { str::from_utf8_unchecked(characters) });
}
