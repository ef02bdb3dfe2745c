//! Tests of commands with wrong boot texts, and with each call of the folder, the input and the
//! output failing in turn. Files, input and output are in memory.
#![tactic(auto)]

#[cfg(test)]
mod boot_texts;
#[cfg(test)]
mod faults;
#[cfg(test)]
mod input;
#[cfg(test)]
mod rows;
