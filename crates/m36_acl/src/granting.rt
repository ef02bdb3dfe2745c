//! The rights that access lists give a user to the segments of a catalog.

ghost use Rattle.std.specs.Prelude.{◌≡◌, ◌<◌, length};
ghost use Rattle.m36_dir.specs.IsCatalog.{IsSegment};
ghost use Rattle.m36_acl.specs.Granted.{first_name_of, is_list_for, is_in_catalog, first_unknown};
ghost use Rattle.m36_acl.specs.Granted.{decision_on, GrantsOne, granted_catalog};

use crate::acl::Acl;
use crate::policy::Decision;
use crate::segment::AclSegment;
use crate::user::User;
use m36_dir::{Catalog, Segment};

/// The first name of a segment, which is that of its line in the boot text.
pub(crate) fn first_name_of(segment: &Segment) -> &[u8]
    ensures { result.now ≡ first_name_of segment.now }
{
    match segment.names.items().first() {
        Some(name) => name.bytes(),
        None => &[],
    }
}

// Whether a `segment` line names this segment of a catalog.
fn is_list_for(catalog: &Catalog, given: &AclSegment, segment: &Segment) -> bool
    requires { IsSegment (length catalog.now.directories) segment.now }
    ensures { result ≡ is_list_for catalog.now given.now segment.now }
{
    catalog.directory(segment.dir) == given.dir.bytes()
        && first_name_of(segment) == given.name.bytes()
}

// Whether a `segment` line names any segment of a catalog.
#[tactic(auto, using(crate::proofs::Rights::known_here, crate::proofs::Rights::known_later, crate::proofs::Rights::known_never))]
fn is_in_catalog(catalog: &Catalog, given: &AclSegment) -> bool
    ensures { result ≡ is_in_catalog catalog.now given.now }
{
    for i in 0..catalog.count() {
        if is_list_for(catalog, given, catalog.segment(i)) {
            return true;
        }
    }
    false
}

/// The number of the first `segment` line that names no segment of a catalog.
#[tactic(auto, unfolding(crate::specs::Granted::first_unknown))]
pub(crate) fn first_unknown(lists: &[AclSegment], catalog: &Catalog) -> Option<u32>
    ensures { result ≡ first_unknown catalog.now lists.now }
{
    let given = lists.iter().find(|given| !is_in_catalog(catalog, given))?;
    Some(given.line)
}

/// What a user may do with a segment of a catalog.
#[tactic(auto, unfolding(crate::specs::Granted::decision_on))]
pub(crate) fn decision_on(
    lists: &Acl,
    catalog: &Catalog,
    segment: &Segment,
    user: &User,
) -> Decision
    requires { IsSegment (length catalog.now.directories) segment.now }
    ensures { result ≡ decision_on lists.now user.now catalog.now.directories segment.now }
{
    lists.mode_for(catalog.directory(segment.dir), first_name_of(segment), user)
}

// Gives segment `i` of a catalog the rights of a user.
fn grant_one(lists: &Acl, catalog: &mut Catalog, i: usize, user: &User)
    requires { i < length catalog.old.segments }
    ensures { GrantsOne lists.now user.now catalog.old catalog.new i }
{
    let decision = decision_on(lists, catalog, catalog.segment(i), user);
    catalog.set_rights(i, decision.readable, decision.executable, decision.writable);
}

/// Gives each segment of a catalog the rights of a user.
#[tactic(auto, using(crate::proofs::Rights::grant_more, crate::proofs::Rights::grant_done, crate::proofs::Rights::grant_count))]
pub(crate) fn grant_all(lists: &Acl, catalog: &mut Catalog, user: &User)
    ensures { catalog.new ≡ granted_catalog lists.now user.now catalog.old }
{
    let count = catalog.count();
    for i in 0..count {
        grant_one(lists, catalog, i, user);
    }
}
