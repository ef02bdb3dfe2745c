//! The binder: makes one object of several.
//!
//! The texts of the components follow one another, and so do their static words and their links.
//! Each part of a word that has a relocation is relocated to the new place of its target. A link to
//! a component becomes a link to a place of the bound object. The definitions of the bound object
//! are those of the retained names.
//!
//! `bind` returns the object that the definitions make of the components of a bind file, for
//! objects of either version. If the file is refused, it returns the first refusal: B1 over the
//! whole file, then the first line with B2, B3 or B5, and then B4. It fails with `NoMemory` if
//! memory runs out.
//!
//! Relocated parts of words, links to places, and definitions refer in the bound object to the
//! words to which they referred in their components, if there are such words there. An offset below
//! zero counts back from where the words of its component begin, or from the head of the linkage
//! section as before. All else is unchanged, and nothing is added but zero words before components
//! that would begin at an odd word (`Meaning`; `m36_relocate` has the places of words and the new
//! values of their parts). Binding takes time that grows with the words of the components.
//!
//! Source: bind files and objects are this project's own. What binding does follows the binder of
//! Multics, as the Multics Programmers' Manual describes it.
#![tactic(auto)]

mod binding;
mod bound;
mod fitting;
mod given;
mod kept;
mod links;
mod placed;

pub use binding::bind;
pub use m36_bindfile::{BindFault, component_names_of};
