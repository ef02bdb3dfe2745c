//! Theorems about all descriptors, stated as the contracts of functions with empty bodies.

ghost use Rattle.m36_desc.specs.RoundTrips.{SdwRoundTrip, PtwRoundTrip, DbrRoundTrip, PtrRoundTrip};
ghost use Rattle.m36_desc.specs.RoundTrips.{ItsRoundTrip, ItpRoundTrip, EvenTags, PackedRoundTrip};
ghost use Rattle.m36_desc.specs.Widths.{SdwFits, PtwFits, DbrFits, PtrFits, ItsFits, ItpFits};
ghost use Rattle.m36_desc.specs.Widths.{PackedFits, SdwWords, PtwWords, DbrWords, PtrWords};
ghost use Rattle.m36_desc.specs.Widths.{ItsWords, ItpWords};

/// A record of any type of this crate whose fields are within their widths is written to words and
/// read back unchanged. So is a packed pointer to bit 0 of a word, for a segment number below 2^12
/// - 1. The even word of an ITS or ITP pair has the tag of its kind.
pub fn descriptor_laws()
    ensures sdw { SdwRoundTrip }
    ensures ptw { PtwRoundTrip }
    ensures dbr { DbrRoundTrip }
    ensures ptr { PtrRoundTrip }
    ensures its { ItsRoundTrip }
    ensures itp { ItpRoundTrip }
    ensures tags { EvenTags }
    ensures packed { PackedRoundTrip }
{}

/// Each field that is read from words is below 2 to the power of its width, whatever the words are.
#[tactic(auto, using(crate::proofs::WidthLaws::widths))]
pub fn field_widths()
    ensures sdw { SdwFits }
    ensures ptw { PtwFits }
    ensures dbr { DbrFits }
    ensures ptr { PtrFits }
    ensures its { ItsFits }
    ensures itp { ItpFits }
    ensures packed { PackedFits }
{}

/// The words of a record whose fields are within their widths are below 2^36.
#[tactic(auto, using(crate::proofs::WidthLaws::widths))]
pub fn word_widths()
    ensures sdw { SdwWords }
    ensures ptw { PtwWords }
    ensures dbr { DbrWords }
    ensures ptr { PtrWords }
    ensures its { ItsWords }
    ensures itp { ItpWords }
{}
