//! Laws that hold for all access lists.

ghost use Rattle.m36_acl.specs.AccessLists.{ListsOnce};
ghost use Rattle.m36_acl.specs.AccessText.{ModesRoundTrip};
ghost use Rattle.m36_acl.specs.Policy.{FirstMatchDecides};

/// The first term in the list of a segment that matches a user decides: its rights are those of the
/// user. If no term matches, or the segment has no list, the user has no right. A mode that is
/// printed is parsed as that mode. In access lists that were parsed, each segment occurs once, and
/// the list of each has at most 16 terms, each once.
pub fn policy_laws()
    ensures first { FirstMatchDecides }
    ensures modes { ModesRoundTrip }
    ensures once { ListsOnce }
{}
