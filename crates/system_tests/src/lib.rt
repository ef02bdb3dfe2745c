//! Tests of the booted system and its parts (images, links, pages, turns), of going back, and of
//! sessions over images. Expected values were worked out by hand.
#![tactic(auto)]

#[cfg(test)]
mod booting;
#[cfg(test)]
mod going_back;
#[cfg(test)]
mod links;
#[cfg(test)]
mod pages;
#[cfg(test)]
mod running;
#[cfg(test)]
mod sessions;
#[cfg(test)]
mod turns;
