//! A law about all numbers of words, as the contract of a function that does nothing.

ghost use Rattle.alm_tokens.specs.Numerals.{NegativesAreTwosComplement};

/// The word of a negative number from -2^35 on is this number in two's complement.
pub fn numeral_law()
    ensures { NegativesAreTwosComplement }
{}
