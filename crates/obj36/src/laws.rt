//! Laws of the format.

ghost use Rattle.obj36_parts.specs.ObjectSegment.{WordsDetermineParts};
ghost use Rattle.obj36_parts.specs.Sizes.{LinkageEndsAfterLinks};

/// Different parts are encoded by different lists of words. And the linkage section of an object
/// with a static section is as long as its head and its links, so it ends where the static section
/// is placed.
#[tactic(auto, using(crate::proofs::ReadingBack::values_apart, obj36_parts::proofs::LengthLaws::statics_past_links))]
pub fn object_laws()
    ensures apart { WordsDetermineParts }
    ensures statics { LinkageEndsAfterLinks }
{}
