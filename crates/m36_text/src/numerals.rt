//! Numbers written as texts.

ghost use Rattle.std.specs.Prelude.{◌≡◌, ◌+◌, ◌-◌, ◌^◌, ◌<◌, ◌≤◌, length, drop, IsAscii};
ghost use Rattle.m36_text.specs.Digits.{octal_text, decimal_text};

use arrayvec::ArrayString;
use std::str;

/// The most octal digits that a number of 64 bits can need.
const OCTAL_PLACES: usize = 22;

/// The most decimal digits that a number of 64 bits can need.
const DECIMAL_PLACES: usize = 20;

/// A number in octal, with leading zeros up to `places` digits. `places` is at most 22 and must be
/// enough for the number.
pub fn octal(v: u64, places: u32) -> ArrayString<22>
    requires places { places ≤ 22 }
    requires fits { v < 8 ^ places }
    ensures text { result.bytes ≡ octal_text places v }
    ensures len { length result.bytes ≡ places }
    ensures ascii { IsAscii result.bytes }
{
    let bytes = octal_bytes(v, places);
    text_of(&bytes[OCTAL_PLACES - places as usize..])
}

/// A number in decimal, without leading zeros.
pub fn decimal(v: u64) -> ArrayString<20>
    ensures text { result.bytes ≡ decimal_text v }
    ensures len { length result.bytes ≤ 20 }
    ensures ascii { IsAscii result.bytes }
{
    let mut bytes = [b'0'; DECIMAL_PLACES];
    let start = put_decimal(v, &mut bytes);
    text_of(&bytes[start..])
}

// The number in octal, at the end of a buffer: its digits are the last `places` bytes, and zeros
// precede them. The number has to fit in `places` digits, or its high digits are left out.
#[tactic(auto, using(crate::proofs::DigitLaws::length_octal, crate::proofs::DigitLaws::octal_ascii))]
fn octal_bytes(v: u64, places: u32) -> [u8; 22]
    requires { places ≤ 22 }
    ensures text { drop (22 - places) result ≡ octal_text places v }
    ensures len { length (octal_text places v) ≡ places }
    ensures ascii { IsAscii (octal_text places v) }
{
    let mut bytes = [b'0'; OCTAL_PLACES];
    let mut left = v;
    for place in 0..places {
        bytes[OCTAL_PLACES - 1 - place as usize] = b'0' + (left % 8) as u8;
        left /= 8;
    }
    bytes
}

// Writes the digits at the end of the buffer and returns the index of the first one.
#[tactic(auto, using(crate::proofs::DigitLaws::decimal_ascii))]
fn put_decimal(v: u64, bytes: &mut [u8; 20]) -> usize
    ensures within { result ≤ 20 }
    ensures text { drop result bytes.new ≡ decimal_text v }
    ensures ascii { IsAscii (decimal_text v) }
{
    let mut start = DECIMAL_PLACES - 1;
    bytes[start] = b'0' + (v % 10) as u8;
    let mut left = v / 10;
    while left > 0 {
        start -= 1;
        bytes[start] = b'0' + (left % 10) as u8;
        left /= 10;
    }
    start
}

// A text of these bytes, which have to be ASCII and at most N.
fn text_of<const N: usize>(bytes: &[u8]) -> ArrayString<N>
    requires fits { length bytes.now ≤ N }
    requires ascii { IsAscii bytes.now }
    ensures { result.bytes ≡ bytes.now }
{
    let mut text = ArrayString::new();
    text.push_str(unsafe { str::from_utf8_unchecked(bytes) });
    text
}
