//! Tests of the outside: folders, input and output in memory and those of the operating system; a
//! caller that knows only their traits; and worlds, which combine the three in one object.
#![tactic(auto)]

#[cfg(test)]
mod answers;
#[cfg(test)]
mod caller;
#[cfg(test)]
mod clauses;
#[cfg(test)]
mod memory;
#[cfg(test)]
mod system;
#[cfg(test)]
mod world;
