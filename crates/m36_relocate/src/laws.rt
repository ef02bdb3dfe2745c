//! Laws about the layout, and about tables of definitions.

ghost use Rattle.m36_relocate.specs.Layout.{FirstLinkAgrees, LinksAreRelocated};
ghost use Rattle.m36_relocate.specs.Words.{StaticStartAgrees};
ghost use Rattle.m36_relocate.specs.Exports.{EntriesAreFirst};

/// The first link of an object has the same offset by its shape as by its parts. The offset from
/// which relocations count static words is that of the first static word by the layout. The link of
/// a component is relocated to the link that replaces it in the bound object.
#[tactic(auto, using(crate::proofs::LinkPlaces::first_link_stands, crate::proofs::LinkPlaces::links_move, crate::proofs::StaticPlaces::statics_begin))]
pub fn layout_law()
    ensures links { FirstLinkAgrees }
    ensures moved { LinksAreRelocated }
    ensures statics { StaticStartAgrees }
{}

/// For each name, the table of an object's definitions has the first definition of that name whose
/// class is not symbol.
pub fn export_law()
    ensures { EntriesAreFirst }
{}
