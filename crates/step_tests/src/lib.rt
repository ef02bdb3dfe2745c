//! Tests of the step: references, address formation, whole steps, and trace lines. Expected values
//! were worked out by hand.
#![tactic(auto)]

#[cfg(test)]
mod addresses;
#[cfg(test)]
mod hurry;
#[cfg(test)]
mod lines;
#[cfg(test)]
mod machine;
#[cfg(test)]
mod references;
#[cfg(test)]
mod setting;
