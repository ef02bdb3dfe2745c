//! Laws of links, of the search and of laying.

ghost use Rattle.m36_link.specs.Laws.{UnsnappedLinksFault, LinksFound, NumbersAgree, MayBeAccepted};
ghost use Rattle.m36_link.specs.Laws.{MayBeAcceptedFrom, KeepsConsistent, KeepsConsistentFrom};
ghost use Rattle.m36_link.specs.Laws.{PairsAreRead};

/// Laws of links.
///
/// - `known_after`, `accepted_from`: an answer may be accepted.
/// - `made`, `made_from`: accepting an answer keeps `IsConsistent`: each name is that of a catalog
///   segment; each laid section is the whole section of an object of the catalog, begins at an
///   even word and is within its linkage segment.
/// - `pairs`: an address that reaches the place of the link reads the pair there as an ITS pair.
/// - `fault`: a link that is not snapped ends an address with fault tag 2, the fault of link
///   services.
/// - `links`: the link that is found at a word is the one that the object has there.
/// - `numbers`: the number of a segment of the catalog leads back to its index.
#[tactic(auto, using(crate::proofs::Made::laws, crate::proofs::LinkTags::links_fault, crate::proofs::LinkPlaces::links_found, crate::proofs::PairPlaces::pairs_stand))]
pub fn link_laws()
    ensures fault { UnsnappedLinksFault }
    ensures links { LinksFound }
    ensures numbers { NumbersAgree }
    ensures accepted { MayBeAccepted }
    ensures accepted_from { MayBeAcceptedFrom }
    ensures made { KeepsConsistent }
    ensures made_from { KeepsConsistentFrom }
    ensures pairs { PairsAreRead }
{}
