//! The components of users and terms, and which term matches which user.

ghost use Rattle.std.specs.Prelude.{◌≡◌, ◌+◌, ◌*◌, ◌≤◌, ◌&&◌, ◌||◌, true, length, ◌∷◌, [], Some};
ghost use Rattle.std.specs.Prelude.{None, MatchOption, IfSome};
ghost use Rattle.std.specs.List.{list_all};
ghost use Rattle.m36_acl.specs.Users.{parts_of, components_of, is_component_character};
ghost use Rattle.m36_acl.specs.Users.{is_component, is_tag_character, is_tag, is_wildcard};
ghost use Rattle.m36_acl.specs.Users.{are_of_user, is_user, may_be_component, may_be_tag};
ghost use Rattle.m36_acl.specs.Users.{are_of_term, is_term, admits, matches, component_limit};
ghost use Rattle.m36_acl.specs.Users.{user_limit};

use m36_text::{is_digit, is_letter, place_of};

// The maximal number of characters of a person or a project.
const LONGEST_COMPONENT: usize = 32;

// The text before the first point, and the text after it.
#[tactic(auto, using(m36_text::proofs::Splitting::splitting))]
fn first_part(text: &[u8]) -> (&[u8], Option<&[u8]>)
    ensures parts { MatchOption result.1 (parts_of text.now ≡ result.0.now ∷ [])
        (λ rest. parts_of text.now ≡ result.0.now ∷ parts_of rest.now) }
    ensures lengths { MatchOption result.1 (length text.now ≡ length result.0.now)
        (λ rest. length text.now ≡ length result.0.now + 1 + length rest.now) }
{
    match place_of(text, b'.') {
        Some(point) => (&text[..point], Some(&text[point + 1..])),
        None => (text, None),
    }
}

// Person, project and tag. None if the text does not have exactly three parts.
#[tactic(auto, unfolding(crate::specs::Users::components_of), using(crate::proofs::Parts::four_parts))]
fn components_of(text: &[u8]) -> Option<(&[u8], &[u8], &[u8])>
    ensures parts { MatchOption result (components_of text.now ≡ None)
        (λ c. components_of text.now
        ≡ Some (record { person = c.0.now; project = c.1.now; tag = c.2.now })) }
    ensures lengths { IfSome result
        (λ c. length text.now ≡ length c.0.now + length c.1.now + length c.2.now + 2) }
{
    let (person, rest) = first_part(text);
    let (project, rest) = first_part(rest?);
    let (tag, rest) = first_part(rest?);
    match rest {
        None => Some((person, project, tag)),
        Some(_) => None,
    }
}

// Whether a byte can be in a person or a project: a letter, a digit or `_`.
fn is_component_character(c: u8) -> bool
    ensures { result ≡ is_component_character c }
{
    is_letter(c) || is_digit(10, c) || c == b'_'
}

// Whether all bytes can be in a person or a project.
fn has_component_characters(text: &[u8]) -> bool
    ensures { result ≡ list_all is_component_character text.now }
{
    text.iter().all(|c| is_component_character(*c))
}

// Whether a text can be a person or a project: 1 to 32 letters, digits and `_`.
fn is_component(text: &[u8]) -> bool
    ensures value { result ≡ is_component text.now }
    ensures fits { result ≡ true → length text.now ≤ component_limit }
{
    if text.is_empty() || text.len() > LONGEST_COMPONENT {
        return false;
    }
    has_component_characters(text)
}

// Whether a byte can be a tag: a lower-case letter.
fn is_tag_character(c: u8) -> bool
    ensures { result ≡ is_tag_character c }
{
    matches!(c, b'a'..=b'z')
}

// Whether all bytes are lower-case letters.
fn has_tag_characters(text: &[u8]) -> bool
    ensures { result ≡ list_all is_tag_character text.now }
{
    text.iter().all(|c| is_tag_character(*c))
}

// Whether a text can be a tag: one lower-case letter.
fn is_tag(text: &[u8]) -> bool
    ensures value { result ≡ is_tag text.now }
    ensures fits { result ≡ true → length text.now ≤ 1 }
{
    if text.is_empty() || text.len() > 1 {
        return false;
    }
    has_tag_characters(text)
}

// Whether a component of a term is `*`, which matches anything.
fn is_wildcard(text: &[u8]) -> bool
    ensures value { result ≡ is_wildcard text.now }
    ensures fits { result ≡ true → length text.now ≤ 1 }
{
    text == b"*".as_slice()
}

// Whether a person, a project and a tag have the form of those of a user.
fn have_form_of_user(person: &[u8], project: &[u8], tag: &[u8]) -> bool
    ensures value { result
        ≡ are_of_user (record { person = person.now; project = project.now; tag = tag.now }) }
    ensures fits { result ≡ true
        → length person.now + length project.now + length tag.now ≤ 2 * component_limit + 1 }
{
    if !is_component(person) {
        return false;
    }
    if !is_component(project) {
        return false;
    }
    is_tag(tag)
}

/// Whether a text is of the form of a user.
#[tactic(auto, unfolding(crate::specs::Users::is_user))]
pub(crate) fn is_user(text: &[u8]) -> bool
    ensures value { result ≡ is_user text.now }
    ensures fits { result ≡ true → length text.now ≤ user_limit }
{
    match components_of(text) {
        Some((person, project, tag)) => have_form_of_user(person, project, tag),
        None => false,
    }
}

// Whether a text can be the person or the project of a term.
fn is_wildcard_or_component(text: &[u8]) -> bool
    ensures value { result ≡ may_be_component text.now }
    ensures fits { result ≡ true → length text.now ≤ component_limit }
{
    if is_wildcard(text) {
        return true;
    }
    is_component(text)
}

// Whether a text can be the tag of a term.
fn is_wildcard_or_tag(text: &[u8]) -> bool
    ensures value { result ≡ may_be_tag text.now }
    ensures fits { result ≡ true → length text.now ≤ 1 }
{
    if is_wildcard(text) {
        return true;
    }
    is_tag(text)
}

// Whether a person, a project and a tag have the form of those of a term, where each may be `*`.
fn have_form_of_term(person: &[u8], project: &[u8], tag: &[u8]) -> bool
    ensures value { result
        ≡ are_of_term (record { person = person.now; project = project.now; tag = tag.now }) }
    ensures fits { result ≡ true
        → length person.now + length project.now + length tag.now ≤ 2 * component_limit + 1 }
{
    if !is_wildcard_or_component(person) {
        return false;
    }
    if !is_wildcard_or_component(project) {
        return false;
    }
    is_wildcard_or_tag(tag)
}

/// Whether a text is of the form of a term.
#[tactic(auto, unfolding(crate::specs::Users::is_term))]
pub(crate) fn is_term(text: &[u8]) -> bool
    ensures value { result ≡ is_term text.now }
    ensures fits { result ≡ true → length text.now ≤ user_limit }
{
    match components_of(text) {
        Some((person, project, tag)) => have_form_of_term(person, project, tag),
        None => false,
    }
}

// Whether a component of a term matches that of a user (`given`).
fn admits(component: &[u8], given: &[u8]) -> bool
    ensures { result ≡ admits component.now given.now }
{
    is_wildcard(component) || given == component
}

/// Whether a term matches a user.
#[tactic(auto, unfolding(crate::specs::Users::matches))]
pub(crate) fn matches(term: &[u8], user: &[u8]) -> bool
    ensures { result ≡ matches term.now user.now }
{
    let Some(asked) = components_of(term) else {
        return false;
    };
    let Some(given) = components_of(user) else {
        return false;
    };
    admits(asked.0, given.0) && admits(asked.1, given.1) && admits(asked.2, given.2)
}
