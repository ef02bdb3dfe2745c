//! Laws about the texts of all words and about all tags, as the contracts of functions that do
//! nothing.

ghost use Rattle.m36_list.specs.Assembled.{PlacesItself, AssemblesToItself};
ghost use Rattle.m36_list.specs.Tags.{TagsSelectModifications, RegisterNamesSelect};

/// Assembling the text of any word yields that word, by the definitions in the contracts of the
/// parser and the assembler. As a line anywhere in a source the text is parsed, and the line places
/// that word and no other, whatever the symbols and links of the source are. Alone as a source,
/// with its line feed, it is not refused, and its object has that word as its text and nothing
/// else.
#[tactic(auto, using(crate::proofs::BackAgain::places, crate::proofs::WholeSource::assembles))]
pub fn disassembly_laws()
    ensures placed { PlacesItself }
    ensures object { AssemblesToItself }
{}

/// The tag that the assembler encodes for a modifier selects, in the machine, the modification of
/// that name: by a register, with `*` after it or before it, by `*` alone, or by a tally. And the
/// name of a register selects that register.
pub fn tag_laws()
    ensures tags { TagsSelectModifications }
    ensures registers { RegisterNamesSelect }
{}
