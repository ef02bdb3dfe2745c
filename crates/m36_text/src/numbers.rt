//! Numbers in lines that are parsed. The result is None if the text does not have the form.

ghost use Rattle.std.specs.Prelude.{◌≡◌, ◌^◌, ◌<◌, ◌≤◌, IfSome};
ghost use Rattle.m36_text.specs.Numbers.{octal_in, decimal_in, short_decimal_in};
ghost use Rattle.m36_text.specs.Numbers.{has_no_leading_zero, plain_decimal_in};

use crate::reading::{read_decimal, read_octal};

/// The number written in exactly `places` octal digits.
#[tactic(auto, unfolding(crate::specs::Numbers::octal_in), using(crate::proofs::ReadingLaws::octal_fits))]
pub fn octal_in(text: &[u8], places: u32) -> Option<u64>
    requires { places ≤ 21 }
    ensures value { result ≡ octal_in places text.now }
    ensures bound { IfSome result (λ v. v < 8 ^ places) }
{
    if text.len() != places as usize {
        return None;
    }
    read_octal(text, 8u64.pow(places) - 1).ok()
}

/// The number written in decimal digits, if it is from `least` to `most`. Leading zeros are
/// allowed.
#[tactic(auto, unfolding(crate::specs::Numbers::decimal_in))]
pub fn decimal_in(text: &[u8], least: u64, most: u64) -> Option<u64>
    ensures value { result ≡ decimal_in least most text.now }
    ensures least { IfSome result (λ v. least ≤ v) }
    ensures most { IfSome result (λ v. v ≤ most) }
{
    match read_decimal(text, most) {
        Ok(value) if least <= value => Some(value),
        _ => None,
    }
}

/// The number written in at most `digits` decimal digits, if it is from `least` to `most`. Leading
/// zeros are allowed.
#[tactic(auto, unfolding(crate::specs::Numbers::short_decimal_in))]
pub fn short_decimal_in(text: &[u8], digits: usize, least: u64, most: u64) -> Option<u64>
    ensures value { result ≡ short_decimal_in digits least most text.now }
    ensures least { IfSome result (λ v. least ≤ v) }
    ensures most { IfSome result (λ v. v ≤ most) }
{
    if text.len() > digits {
        return None;
    }
    decimal_in(text, least, most)
}

/// Whether a text has no redundant leading zero: it is one character, or it does not begin with
/// `0`.
pub fn has_no_leading_zero(text: &[u8]) -> bool
    ensures { result ≡ has_no_leading_zero text.now }
{
    match text {
        [first, _, ..] => *first != b'0',
        [_] => true,
        [] => true,
    }
}

/// The number written in decimal digits, if it is from `least` to `most`. No leading zero is
/// allowed, except in the number 0 itself.
#[tactic(auto, unfolding(crate::specs::Numbers::plain_decimal_in))]
pub fn plain_decimal_in(text: &[u8], least: u64, most: u64) -> Option<u64>
    ensures value { result ≡ plain_decimal_in least most text.now }
    ensures least { IfSome result (λ v. least ≤ v) }
    ensures most { IfSome result (λ v. v ≤ most) }
{
    if has_no_leading_zero(text) {
        decimal_in(text, least, most)
    } else {
        None
    }
}
