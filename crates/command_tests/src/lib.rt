//! Tests of commands over files, input and output in memory. Expected values were worked out by
//! hand, except where a module says otherwise.
#![tactic(auto)]

#[cfg(test)]
mod calls;
#[cfg(test)]
mod folders;
#[cfg(test)]
mod help;
#[cfg(test)]
mod lists;
#[cfg(test)]
mod makes;
#[cfg(test)]
mod memory;
#[cfg(test)]
mod reports;
#[cfg(test)]
mod sessions;
#[cfg(test)]
mod word_lists;
