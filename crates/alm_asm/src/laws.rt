//! Laws about the object of lines.

ghost use Rattle.alm_asm.specs.Laws.{PlacesCount, SizesCount, WordsFollow, SymbolsStay};
ghost use Rattle.alm_asm.specs.Laws.{OffsetsAreRead, RelocatedPartsHoldValues, OnlyTooLong};

/// The place of a line in its section is the number of words that the lines above it place there,
/// and its size is the number of words that it places. The words of lines follow those of the lines
/// above them. The sum of a symbol is that of its first definition. The machine reads the offset
/// after a pointer register as the number that was written. The part of a word that has a
/// relocation holds the value of its expression. If no line of a source that was parsed is refused,
/// the whole is refused exactly if it has more than 2^18 words.
pub fn assembly_laws()
    ensures places { PlacesCount }
    ensures sizes { SizesCount }
    ensures words { WordsFollow }
    ensures symbols { SymbolsStay }
    ensures offsets { OffsetsAreRead }
    ensures parts { RelocatedPartsHoldValues }
    ensures length { OnlyTooLong }
{}
