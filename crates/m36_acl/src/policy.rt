//! What a user may do with a segment.

ghost use Rattle.std.specs.Prelude.{◌≡◌, ◌<◌, length, find, position, Some, IfSome};
ghost use Rattle.std.specs.Option.{option_copied};
ghost use Rattle.m36_dir.specs.BootOrder.{entry};
ghost use Rattle.m36_acl.specs.Users.{matches};
ghost use Rattle.m36_acl.specs.AccessLists.{is_list_of};
ghost use Rattle.m36_acl.specs.Policy.{terms_of, no_rights, decision_of_term, first_match_decision};

use crate::matching::matches;
use crate::segment::{AclSegment, Term};
use crate::user::User;

/// What a user may do with a segment, and the term that decides it, by its index in the list of the
/// segment, counted from 0. If no term matches, there is no term and no right.
#[derive(Clone, Copy, PartialEq, Eq)]
pub struct Decision {
    pub term: Option<usize>,
    pub readable: bool,
    pub executable: bool,
    pub writable: bool,
}

// Whether a `segment` line has this directory and this name.
fn is_list_of(segment: &AclSegment, dir: &[u8], name: &[u8]) -> bool
    ensures { result ≡ is_list_of (entry dir.now name.now) segment.now }
{
    segment.dir.bytes() == dir && segment.name.bytes() == name
}

// The `segment` line with this directory and this name.
fn line_of<'a>(segments: &'a [AclSegment], dir: &[u8], name: &[u8]) -> Option<&'a AclSegment>
    ensures { option_copied result ≡ find (is_list_of (entry dir.now name.now)) segments.now }
{
    segments
        .iter()
        .find(|segment| is_list_of(segment, dir, name))
}

/// The access list of a segment. Empty if no `segment` line names it.
#[tactic(auto, unfolding(crate::specs::Policy::terms_of))]
pub(crate) fn terms_in<'a>(segments: &'a [AclSegment], dir: &[u8], name: &[u8]) -> &'a [Term]
    ensures { result.now ≡ terms_of segments.now dir.now name.now }
{
    match line_of(segments, dir, name) {
        Some(segment) => segment.terms(),
        None => &[],
    }
}

// The decision if no term matches: no right and no term.
fn no_rights() -> Decision
    ensures { result ≡ no_rights }
{
    Decision {
        term: None,
        readable: false,
        executable: false,
        writable: false,
    }
}

// The decision by a term: its rights, and its index in the list.
fn decision_of_term(place: usize, term: &Term) -> Decision
    ensures { result ≡ decision_of_term place (Some term.now) }
{
    Decision {
        term: Some(place),
        readable: term.readable(),
        executable: term.executable(),
        writable: term.writable(),
    }
}

/// The index of the first term that matches the user, counted from 0.
pub(crate) fn first_match(terms: &[Term], user: &User) -> Option<usize>
    ensures value { result ≡ position (λ term. matches term.text user.now) terms.now }
    ensures within { IfSome result (λ place. place < length terms.now) }
{
    terms
        .iter()
        .position(|term| matches(term.bytes(), user.bytes()))
}

/// The rights by the first term that matches the user.
#[tactic(auto, unfolding(crate::specs::Policy::first_match_decision))]
pub(crate) fn first_match_decision(terms: &[Term], user: &User) -> Decision
    ensures { result ≡ first_match_decision terms.now user.now }
{
    match first_match(terms, user) {
        Some(place) => decision_of_term(place, &terms[place]),
        None => no_rights(),
    }
}
