//! Tests of sources, from tokens to bound objects, and of generated folders. Expected values were
//! worked out by hand.
#![tactic(auto)]

#[cfg(test)]
mod assembling;
#[cfg(test)]
mod binding;
#[cfg(test)]
mod generating;
#[cfg(test)]
mod listing;
#[cfg(test)]
mod parsing;
#[cfg(test)]
mod tokens;
