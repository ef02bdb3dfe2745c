//! Tests of the lowest crates: words, core, texts, descriptors, instructions, and descriptor and
//! page tables. Expected values were worked out by hand.
#![tactic(auto)]

#[cfg(test)]
mod descriptors;
#[cfg(test)]
mod frames;
#[cfg(test)]
mod instructions;
#[cfg(test)]
mod tables;
#[cfg(test)]
mod text;
#[cfg(test)]
mod word;
