//! Tests of the audit, of the joint audit, of bare images, and of several processes on one core.
//! Expected values were worked out by hand.
#![tactic(auto)]

#[cfg(test)]
mod audit;
#[cfg(test)]
mod images;
#[cfg(test)]
mod joint_audit;
#[cfg(test)]
mod processes;
