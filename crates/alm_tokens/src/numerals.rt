//! Numbers that a word can hold.

ghost use Rattle.std.specs.Prelude.{◌≡◌, ◌≤◌, ◌^◌, ◌<◌, IfOk};
ghost use Rattle.alm_tokens.specs.Numerals.{is_negative, without_sign, greatest_word};
ghost use Rattle.alm_tokens.specs.Numerals.{number_magnitude, has_form_of, is_number, signed_word};
ghost use Rattle.alm_tokens.specs.Numerals.{number_word};
ghost use Rattle.alm_tokens.specs.Tokens.{is_over_number_limit, number_or_zero};

use crate::bytes::is_sign;
use crate::span::first_byte;
use crate::tokens::{has_digits, is_over_number_limit, parse_expression_number};
use m36_text::{NumberFault, has_no_leading_zero, read_decimal, read_octal};
use m36_word::Word;

/// The form and range of a number.
#[derive(Clone, Copy)]
pub enum Numeral {
    /// Decimal without redundant leading zeros, with an optional sign; from -2^35 to 2^36 - 1.
    Decimal,
    /// Octal, without a sign; below 2^36.
    Octal,
    /// Decimal without redundant leading zeros or a sign; up to 262143.
    Small,
}

/// The greatest number of a word, 2^36 - 1.
const GREATEST_WORD: u64 = 0o777777777777;

// Whether a number begins with a minus.
fn is_negative(bytes: &[u8]) -> bool
    ensures { result ≡ is_negative bytes.now }
{
    first_byte(bytes) == b'-'
}

// A number without its sign.
fn without_sign(bytes: &[u8]) -> &[u8]
    ensures { result.now ≡ without_sign bytes.now }
{
    match bytes {
        [first, rest @ ..] if is_sign(*first) => rest,
        _ => bytes,
    }
}

/// Parses a number of this notation and returns its magnitude, or the fault of the text.
pub fn number_magnitude(numeral: Numeral, bytes: &[u8]) -> Result<u64, NumberFault>
    ensures value { result ≡ number_magnitude numeral bytes.now }
    ensures bound { IfOk result (λ v. v ≤ greatest_word) }
{
    match numeral {
        Numeral::Decimal => {
            if is_negative(bytes) {
                read_decimal(without_sign(bytes), 0o400000000000)
            } else {
                read_decimal(without_sign(bytes), GREATEST_WORD)
            }
        }
        Numeral::Octal => read_octal(bytes, GREATEST_WORD),
        Numeral::Small => parse_expression_number(bytes),
    }
}

/// Whether a text has the form of this kind of number, within its range or not.
pub fn has_form_of(numeral: Numeral, bytes: &[u8]) -> bool
    ensures { result ≡ has_form_of numeral bytes.now }
{
    if !has_digits(number_magnitude(numeral, bytes)) {
        return false;
    }
    match numeral {
        Numeral::Octal => true,
        Numeral::Decimal => has_no_leading_zero(without_sign(bytes)),
        Numeral::Small => has_no_leading_zero(bytes),
    }
}

/// Whether a text has the form of a number in an expression, within the range or not.
#[tactic(auto, unfolding(crate::specs::Numerals::is_number))]
pub fn is_number(bytes: &[u8]) -> bool
    ensures { result ≡ is_number bytes.now }
{
    has_form_of(Numeral::Small, bytes)
}

/// Whether a text is a number out of the range of its kind.
pub fn is_number_out_of_range(numeral: Numeral, bytes: &[u8]) -> bool
    ensures { result ≡ is_over_number_limit (number_magnitude numeral bytes.now) }
{
    is_over_number_limit(number_magnitude(numeral, bytes))
}

// The word of a number; a negative one is in two's complement.
fn signed_word(negative: bool, magnitude: u64) -> Word
    requires { magnitude ≤ greatest_word }
    ensures { result ≡ signed_word negative magnitude }
{
    if negative {
        Word::low((1 << 36) - magnitude)
    } else {
        Word::low(magnitude)
    }
}

// The number that parsing a text as a number yields; 0 if it yields none.
fn number_or_zero(read: Result<u64, NumberFault>) -> u64
    requires { IfOk read (λ v. v ≤ greatest_word) }
    ensures value { result ≡ number_or_zero read }
    ensures bound { result ≤ greatest_word }
{
    match read {
        Ok(value) => value,
        Err(_) => 0,
    }
}

/// The word of a number; a negative number is in two's complement. A text that is not such a number
/// counts as 0.
pub fn number_word(numeral: Numeral, bytes: &[u8]) -> Word
    ensures { result ≡ number_word numeral bytes.now }
{
    let magnitude = number_or_zero(number_magnitude(numeral, bytes));
    match numeral {
        Numeral::Decimal => signed_word(is_negative(bytes), magnitude),
        Numeral::Octal | Numeral::Small => signed_word(false, magnitude),
    }
}
