//! Tables that are made before the words of lines.

use alm_lines::count::Count;
use alm_lines::symbols::Symbols;
use obj36::Links;

/// The symbols and links of a source, the offset of the first link in the linkage section, and
/// whether the static words have a section of their own.
#[derive(Drop)]
pub struct Tables {
    pub symbols: Symbols,
    pub links: Links,
    pub first_link: Count,
    pub uses_outer: bool,
}
