//! Symbols and numbers.

ghost use Rattle.std.specs.Prelude.{◌≡◌, ◌≤◌, IfOk};
ghost use Rattle.alm_tokens.specs.Tokens.{is_symbol, has_digits, is_over_number_limit};
ghost use Rattle.alm_tokens.specs.Tokens.{parsed_expression_number, greatest_number};

use crate::bytes::begins_symbol;
use crate::span::first_byte;
use m36_text::{NumberFault, is_name, read_decimal};

/// The greatest number in an expression.
const MOST: u64 = 262_143;

/// Whether a text is a symbol: 1 to 32 letters, digits, `_` and `.`, the first of which is a letter
/// or `_`.
#[tactic(auto, unfolding(crate::specs::Tokens::is_symbol))]
pub fn is_symbol(bytes: &[u8]) -> bool
    ensures { result ≡ is_symbol bytes.now }
{
    is_name(bytes) && begins_symbol(first_byte(bytes))
}

/// Whether a text has only digits, given the result of parsing it as a number.
pub fn has_digits(read: Result<u64, NumberFault>) -> bool
    ensures { result ≡ has_digits read }
{
    match read {
        Ok(_) | Err(NumberFault::T2) => true,
        Err(NumberFault::T1(_)) => false,
    }
}

/// Whether a text is a number over the limit, given the result of parsing it as a number.
pub fn is_over_number_limit(read: Result<u64, NumberFault>) -> bool
    ensures { result ≡ is_over_number_limit read }
{
    match read {
        Err(NumberFault::T2) => true,
        Ok(_) | Err(NumberFault::T1(_)) => false,
    }
}

/// Parses a decimal number of an expression: at most 262143.
pub fn parse_expression_number(bytes: &[u8]) -> Result<u64, NumberFault>
    ensures value { result ≡ parsed_expression_number bytes.now }
    ensures bound { IfOk result (λ v. v ≤ greatest_number) }
{
    read_decimal(bytes, MOST)
}
