//! The parts of a trace line that are kept from one step to the next, each with the value that it
//! spells. A value that has not changed is not spelled again.

ghost use Rattle.std.specs.Prelude.{◌≡◌, ◌+◌, ◌-◌, ◌≤◌, ◌<◌, ◌^◌, ◌++◌, length, take, get_or};
ghost use Rattle.std.specs.Bool.{OnTrue, OnFalse};
ghost use Rattle.m36_text.specs.Digits.{decimal_text, word_text};
ghost use Rattle.m36_trace.specs.Spaced.{with_space, ring_segment_text};

use crate::digits::last_digit;
use crate::triples::put_word;
use m36_text::decimal;
use m36_word::Word;

/// The least number that has too many digits for its part.
const TOO_LONG: u64 = 1_000_000_000_000_000;

/// The number of a step in decimal, and a space.
#[derive(Drop)]
pub struct NumberPart {
    pub bytes: [u8; 16],
    /// The index of the last digit.
    pub last: usize,
    /// The number plus 1.
    pub next: u64,
    ghost short: { last < 15 },
    ghost some: { 0 < next },
    ghost small: { next ≤ 10 ^ 15 },
    ghost spelled: { take (last + 2) bytes ≡ with_space (decimal_text (next - 1)) },
}

impl NumberPart {
    /// The number 0.
    #[tactic(auto, unfolding(m36_text::specs::Digits::decimal_text))]
    pub fn new() -> NumberPart {
        NumberPart {
            bytes: *b"0               ",
            last: 0,
            next: 1,
        }
    }

    /// Spells a number, and returns whether it has at most 15 digits. Mostly it is the number of
    /// the next step, which differs only in its last digit.
    #[inline(always)]
    pub fn set(&mut self, n: u64) -> bool
        ensures { OnTrue result (self.new.next ≡ n + 1) }
    {
        if n == self.next && self.bytes[self.last] < b'9' {
            self.increment_last_digit();
            return true;
        }
        self.set_other_number(n)
    }

    // Spells a number that is not the next one, or that differs in more than the last digit.
    #[inline(never)]
    fn set_other_number(&mut self, n: u64) -> bool
        ensures { OnTrue result (self.new.next ≡ n + 1) }
    {
        if n >= TOO_LONG {
            return false;
        }
        if n == self.next && self.spell_next() {
            return true;
        }
        self.spell(n);
        true
    }

    // Spells the next number, if it has as many digits.
    fn spell_next(&mut self) -> bool
        requires { self.old.next < TOO_LONG }
        ensures going { OnTrue result (self.new.next ≡ self.old.next + 1) }
        ensures same { OnFalse result (self.new.next ≡ self.old.next) }
    {
        let mut bytes = self.bytes;
        if !increment_digits(&mut bytes, self.last, self.next - 1) {
            return false;
        }
        self.bytes = bytes;
        self.next += 1;
        true
    }

    // Spells the next number, which differs only in the last digit.
    #[inline(always)]
    fn increment_last_digit(&mut self)
        requires { get_or self.old.bytes self.old.last 0 < 57 }
        ensures { self.new.next ≡ self.old.next + 1 }
    {
        self.bytes[self.last] += 1;
        self.next += 1;
    }

    // Spells any number of at most 15 digits.
    #[inline(never)]
    #[tactic(auto, using(crate::proofs::Numbers::decimal_short, crate::proofs::Numbers::decimal_some))]
    fn spell(&mut self, n: u64)
        requires { n < TOO_LONG }
        ensures { self.new.next ≡ n + 1 }
    {
        let text = decimal(n);
        self.last = put_digits(&mut self.bytes, text.as_str().as_bytes());
        self.next = n + 1;
    }
}

// Replaces the digits of a number, with the last at index `last`, by those of the next number, if
// it has as many.
fn increment_digits(bytes: &mut [u8; 16], last: usize, _n: u64) -> bool
    requires last { last < 15 }
    requires spelled { take (last + 2) bytes.old ≡ with_space (decimal_text _n) }
    ensures { OnTrue result (take (last + 2) bytes.new ≡ with_space (decimal_text (_n + 1))) }
{
    let mut place = last;
    'nines: while place > 0 && bytes[place] == b'9' {
        bytes[place] = b'0';
        place -= 1;
    }
    if bytes[place] >= b'9' {
        return false;
    }
    bytes[place] += 1;
    true
}

// Writes digits and a space, and returns the index of the last digit.
fn put_digits(bytes: &mut [u8; 16], digits: &[u8]) -> usize
    requires some { 0 < length digits.now }
    requires short { length digits.now ≤ 15 }
    ensures last { result + 1 ≡ length digits.now }
    ensures text { take (result + 2) bytes.new ≡ with_space digits.now }
{
    let count = digits.len();
    bytes[..count].copy_from_slice(digits);
    bytes[count] = b' ';
    count - 1
}

/// A ring and a segment number with a character between them, and the bar before the word number.
#[derive(Drop)]
pub struct RingSegmentPart<const MARK: u8> {
    pub bytes: [u8; 8],
    pub seg: u16,
    pub ring: u8,
    ghost spelled: { bytes ≡ ring_segment_text ring MARK seg },
}

impl<const MARK: u8> RingSegmentPart<MARK> {
    /// Ring 0 and segment 0.
    pub fn new() -> RingSegmentPart<MARK> {
        RingSegmentPart {
            bytes: ring_segment_bytes::<MARK>(0, 0),
            seg: 0,
            ring: 0,
        }
    }

    /// Spells a ring and a segment number, which mostly have not changed.
    #[inline(always)]
    pub fn set(&mut self, seg: u16, ring: u8)
        requires { ring < 2 ^ 3 }
        ensures seg { self.new.seg ≡ seg }
        ensures ring { self.new.ring ≡ ring }
    {
        if seg != self.seg || ring != self.ring {
            self.spell(seg, ring);
        }
    }

    // Spells a ring and a segment number again.
    #[inline(never)]
    fn spell(&mut self, seg: u16, ring: u8)
        requires { ring < 2 ^ 3 }
        ensures seg { self.new.seg ≡ seg }
        ensures ring { self.new.ring ≡ ring }
    {
        self.bytes = ring_segment_bytes::<MARK>(seg, ring);
        self.seg = seg;
        self.ring = ring;
    }
}

// The text of a ring and a segment number: the ring, the character, five octal digits, a bar.
#[tactic(auto, unfolding(m36_text::specs::Digits::octal_text, m36_text::specs::Digits::digits))]
fn ring_segment_bytes<const MARK: u8>(seg: u16, ring: u8) -> [u8; 8]
    requires { ring < 2 ^ 3 }
    ensures { result ≡ ring_segment_text ring MARK seg }
{
    let s = seg as u64;
    [
        b'0' + ring,
        MARK,
        last_digit(s >> 12),
        last_digit(s >> 9),
        last_digit(s >> 6),
        last_digit(s >> 3),
        last_digit(s),
        b'|',
    ]
}

/// A word in twelve digits, and a space.
#[derive(Drop)]
pub struct WordPart {
    pub bytes: [u8; 16],
    pub of: Word,
    ghost spelled: { take 13 bytes ≡ with_space (word_text of) },
}

impl WordPart {
    /// The word 0.
    #[tactic(auto, unfolding(m36_text::specs::Digits::octal_text, m36_text::specs::Digits::digits))]
    pub fn new() -> WordPart
        ensures { result.of ≡ 0 }
    {
        WordPart {
            bytes: *b"000000000000    ",
            of: Word::ZERO,
        }
    }

    /// Spells a word.
    #[inline(always)]
    pub fn set(&mut self, word: Word)
        ensures { self.new.of ≡ word }
    {
        if self.of != word {
            put_word(&mut self.bytes, 0, word);
            self.of = word;
        }
    }
}
