//! Parsing of numbers.

ghost use Rattle.std.specs.Prelude.{◌≡◌, ◌+◌, ◌-◌, ◌^◌, ◌<◌, ◌≤◌, length, min, None, IfOk, IfErr};
ghost use Rattle.std.specs.Prelude.{IfSome};
ghost use Rattle.m36_text.specs.Digits.{is_digit};
ghost use Rattle.m36_text.specs.Reading.{first_non_digit, number_of, number_read, IndexIsWithin};
ghost use Rattle.m36_text.specs.Reading.{ReadsOctal, ReadsDecimal, OctalTextHasPlaces};
ghost use Rattle.m36_text.specs.Reading.{DecimalTextHasNoLeadingZero};

/// Why a text could not be parsed as a number.
#[derive(Clone, Copy, PartialEq, Eq)]
pub enum NumberFault {
    /// The text is empty or has a byte that is not a digit. Has the index of the first such byte,
    /// counted from 0, or 0 for an empty text.
    T1(usize),
    /// All bytes are digits, but the number is over the limit.
    T2,
}

/// Whether a byte is a digit of a base of at most ten.
pub fn is_digit(base: u8, byte: u8) -> bool
    requires { base ≤ 10 }
    ensures { result ≡ is_digit base byte }
{
    b'0' <= byte && byte < b'0' + base
}

/// The number written in octal digits, at most `max`. Leading zeros are allowed.
pub fn read_octal(t: &[u8], max: u64) -> Result<u64, NumberFault>
    ensures value { result ≡ number_read 8 t.now max }
    ensures bound { IfOk result (λ v. v ≤ max) }
    ensures place { IfErr result (IndexIsWithin (length t.now)) }
{
    read_number(8, t, max)
}

/// The number written in decimal digits, at most `max`. Leading zeros are allowed.
pub fn read_decimal(t: &[u8], max: u64) -> Result<u64, NumberFault>
    ensures value { result ≡ number_read 10 t.now max }
    ensures bound { IfOk result (λ v. v ≤ max) }
    ensures place { IfErr result (IndexIsWithin (length t.now)) }
{
    read_number(10, t, max)
}

// The number written in digits of a base of at most ten, if it is at most `max`. Leading zeros are
// allowed.
#[tactic(auto, unfolding(crate::specs::Reading::number_read))]
fn read_number(base: u8, t: &[u8], max: u64) -> Result<u64, NumberFault>
    requires { (1 ≤ base) × (base ≤ 10) }
    ensures value { result ≡ number_read base t.now max }
    ensures bound { IfOk result (λ v. v ≤ max) }
    ensures place { IfErr result (IndexIsWithin (length t.now)) }
{
    if t.is_empty() {
        return Err(NumberFault::T1(0));
    }
    if let Some(place) = find_non_digit(base, t) {
        return Err(NumberFault::T1(place));
    }
    let over = max as u128 + 1;
    let value = capped_value(base, t, over);
    if value < over {
        Ok(value as u64)
    } else {
        Err(NumberFault::T2)
    }
}

// The index of the first byte that is not a digit. A loop takes less time to prove than a call of
// `position`.
fn find_non_digit(base: u8, t: &[u8]) -> Option<usize>
    requires { (1 ≤ base) × (base ≤ 10) }
    ensures value { result ≡ first_non_digit base t.now }
    ensures within { IfSome result (λ place. place < length t.now) }
{
    for place in 0..t.len() {
        if !is_digit(base, t[place]) {
            return Some(place);
        }
    }
    None
}

// The number that the digits represent, or `cap` if it is `cap` or more.
fn capped_value(base: u8, t: &[u8], cap: u128) -> u128
    requires base { (1 ≤ base) × (base ≤ 10) }
    requires cap { cap ≤ 2 ^ 64 }
    requires digits { first_non_digit base t.now ≡ None }
    ensures { result ≡ min (number_of base t.now) cap }
{
    let mut value = 0;
    for byte in t {
        value = (value * base as u128 + (*byte - b'0') as u128).min(cap);
    }
    value
}

/// The laws of numerals. The decimal text of a number is parsed as that number, and so is its octal
/// text if it has enough places. An octal text with `places` places has that number of digits. The
/// decimal text of a number other than zero does not begin with a zero.
#[tactic(auto, using(crate::proofs::NumeralLaws::reads_octal, crate::proofs::NumeralLaws::reads_decimal, crate::proofs::DigitLaws::length_octal, crate::proofs::NumeralLaws::has_no_leading_zero))]
pub fn numeral_laws()
    ensures octal { ReadsOctal }
    ensures decimal { ReadsDecimal }
    ensures places { OctalTextHasPlaces }
    ensures leading { DecimalTextHasNoLeadingZero }
{}
