//! Tests of catalogs, which are read from boot texts, and of access lists. Expected values were
//! worked out by hand.
#![tactic(auto)]

#[cfg(test)]
mod access_lists;
#[cfg(test)]
mod catalogs;
