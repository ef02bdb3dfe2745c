//! Tests of arithmetic and of the effects of data, pointer and control instructions. Expected
//! values were worked out by hand.
#![tactic(auto)]

#[cfg(test)]
mod arithmetic;
#[cfg(test)]
mod data;
#[cfg(test)]
mod pointers;
#[cfg(test)]
mod transfers;
