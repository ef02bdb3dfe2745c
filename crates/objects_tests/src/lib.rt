//! Tests of object segments: their parts, their encoding as words, and words that are refused.
//! Expected words were worked out by hand.
#![tactic(auto)]

#[cfg(test)]
mod objects;
#[cfg(test)]
mod parts;
#[cfg(test)]
mod reading;
