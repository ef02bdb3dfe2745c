//! Checks whether relocated parts of words and sections fit.

ghost use Rattle.std.specs.Prelude.{◌≡◌, ◌&&◌};
ghost use Rattle.obj36_parts.specs.ObjectSegment.{definition_section, section_fits, sections_fit};
ghost use Rattle.m36_bind.specs.Bound.{component_fits, components_fit};

use crate::placed::{PlacedComponent, relocation_of};
use m36_relocate::layout::Shape;
use m36_relocate::words::all_fit;
use m36_word::Word;
use obj36::Object;
use obj36_parts::Section;
use obj36_parts::sections::SECTION_LIMIT;

// Whether the relocated parts of the text and the static words of a component fit.
fn component_fits(frame: &Shape, p: &PlacedComponent<'_>) -> bool
    ensures { result ≡ component_fits frame.now p.now }
{
    let m = relocation_of(frame, p);
    let parts = p.parts;
    let relocations = parts.relocations.items();
    all_fit(&m, false, parts.text.slice(), relocations)
        && all_fit(&m, true, parts.statics.slice(), relocations)
}

// Whether the relocated parts of all components fit.
#[tactic(auto, unfolding(crate::specs::Bound::components_fit))]
pub(crate) fn components_fit(frame: &Shape, all: &[PlacedComponent<'_>]) -> bool
    ensures { result ≡ components_fit frame.now all.now }
{
    let mut rest = all;
    while let [p, others @ ..] = rest {
        if !component_fits(frame, p) {
            return false;
        }
        rest = others;
    }
    true
}

// Whether a section has at most 2^18 - 4,096 words.
fn section_fits(words: &[Word]) -> bool
    ensures { result ≡ section_fits words.now }
{
    words.len() as u64 <= SECTION_LIMIT
}

// Whether the definition section is within the limit.
fn definition_section_fits(object: &Object) -> bool
    ensures { result ≡ section_fits (definition_section object.now) }
{
    object.definition_length() as u64 <= SECTION_LIMIT
}

// Whether each section is within the limit.
#[tactic(auto, unfolding(obj36_parts::specs::ObjectSegment::sections_fit))]
pub(crate) fn sections_fit(object: &Object) -> bool
    ensures { result ≡ sections_fit object.now }
{
    section_fits(object.section(Section::Text))
        && definition_section_fits(object)
        && section_fits(object.section(Section::Linkage))
        && section_fits(object.section(Section::Static))
        && section_fits(object.section(Section::Symbol))
}
