//! Lines about the rights of a user.

ghost use Rattle.std.specs.Prelude.{◌≡◌, ◌++◌, ◌∷◌, [], length, IfOk, OnOk};
ghost use Rattle.m36_dir.specs.Catalog.{directory_in};
ghost use Rattle.m36_dir.specs.IsCatalog.{IsSegment};
ghost use Rattle.m36_acl.specs.Granted.{first_name_of};
ghost use Rattle.m36_acl.specs.AccessText.{mode_text, deciding_term_in, deciding_term};
ghost use Rattle.m36_acl.specs.AccessText.{with_space_and_word, access_line, denied_line};
ghost use Rattle.m36_acl.specs.AccessText.{access_text, denied_lines};

use crate::acl::Acl;
use crate::denied::DeniedLines;
use crate::granting::{decision_on, first_name_of};
use crate::policy::first_match;
use crate::segment::Term;
use crate::user::User;
use m36_dir::{Catalog, Segment};
use m36_outside::Text;
use m36_word::NoMemory;
use std::alloc::Global;

// The letters of the rights to read, execute and write, or `null` if there are none.
fn mode_text(readable: bool, executable: bool, writable: bool) -> &'static str
    ensures { result.now ≡ mode_text readable executable writable }
{
    match (readable, executable, writable) {
        (false, false, false) => "null",
        (true, false, false) => "r",
        (false, true, false) => "e",
        (true, true, false) => "re",
        (false, false, true) => "w",
        (true, false, true) => "rw",
        (false, true, true) => "ew",
        (true, true, true) => "rew",
    }
}

// The first term of a list that matches a user, which decides; `none` if none matches.
#[tactic(auto, unfolding(crate::specs::AccessText::deciding_term_in, crate::specs::Policy::first_match_decision))]
fn deciding_term_in<'a>(terms: &'a [Term], user: &User) -> &'a [u8]
    ensures { result.now ≡ deciding_term_in terms.now user.now }
{
    match first_match(terms, user) {
        Some(place) => terms[place].bytes(),
        None => b"none".as_slice(),
    }
}

// The directory of a segment of a catalog.
fn directory_of<'a>(catalog: &'a Catalog, segment: &Segment) -> &'a [u8]
    requires { IsSegment (length catalog.now.directories) segment.now }
    ensures { result.now ≡ directory_in catalog.now.directories segment.now }
{
    catalog.directory(segment.dir)
}

// The term that decides what a user may do with a segment of a catalog, or `none`.
fn deciding_term<'a>(lists: &'a Acl, catalog: &Catalog, segment: &Segment, user: &User) -> &'a [u8]
    requires { IsSegment (length catalog.now.directories) segment.now }
    ensures { result.now ≡ deciding_term lists.now user.now catalog.now.directories segment.now }
{
    deciding_term_in(
        lists.terms(directory_of(catalog, segment), first_name_of(segment)),
        user,
    )
}

// Adds a space and a word.
fn append_word(line: &mut Text, word: &[u8]) -> Result<(), NoMemory>
    ensures { OnOk result (line.new ≡ with_space_and_word line.old word.now) }
{
    line.append(b" ")?;
    line.append(word)?;
    Ok(())
}

// The line `DIR NAME MODE TERM` of a segment, with its line feed.
#[tactic(auto, unfolding(crate::specs::AccessText::access_line))]
fn access_line(
    alloc: Global,
    lists: &Acl,
    catalog: &Catalog,
    segment: &Segment,
    user: &User,
) -> Result<Text, NoMemory>
    requires { IsSegment (length catalog.now.directories) segment.now }
    ensures { IfOk result
        (λ line. line ≡ access_line lists.now user.now catalog.now.directories segment.now) }
{
    let decision = decision_on(lists, catalog, segment, user);
    let mode = mode_text(decision.readable, decision.executable, decision.writable);
    let mut line = Text::from_bytes(alloc, directory_of(catalog, segment))?;
    append_word(&mut line, first_name_of(segment))?;
    append_word(&mut line, mode.as_bytes())?;
    append_word(&mut line, deciding_term(lists, catalog, segment, user))?;
    line.append(b"\n")?;
    Ok(line)
}

// The line `denied DIR NAME TERM` of a segment, with its line feed.
#[tactic(auto, unfolding(crate::specs::AccessText::denied_line))]
fn denied_line(
    alloc: Global,
    lists: &Acl,
    catalog: &Catalog,
    segment: &Segment,
    user: &User,
) -> Result<Text, NoMemory>
    requires { IsSegment (length catalog.now.directories) segment.now }
    ensures { IfOk result
        (λ line. line ≡ denied_line lists.now user.now catalog.now.directories segment.now) }
{
    let mut line = Text::from_bytes(alloc, b"denied")?;
    append_word(&mut line, directory_of(catalog, segment))?;
    append_word(&mut line, first_name_of(segment))?;
    append_word(&mut line, deciding_term(lists, catalog, segment, user))?;
    line.append(b"\n")?;
    Ok(line)
}

/// What a user may do with each segment of a catalog, one line each.
#[tactic(auto, using(crate::proofs::AccessLoops::texts))]
pub(crate) fn access_text(
    alloc: Global,
    lists: &Acl,
    catalog: &Catalog,
    user: &User,
) -> Result<Text, NoMemory>
    ensures { IfOk result (λ text. text ≡ access_text lists.now user.now catalog.now) }
{
    let mut text = Text::new(alloc);
    for i in 0..catalog.count() {
        let line = access_line(alloc, lists, catalog, catalog.segment(i), user)?;
        text.append(line.bytes())?;
    }
    Ok(text)
}

/// For each segment of a catalog, the line that is printed if a run ends because the user lacks a
/// right to it.
#[tactic(auto, using(crate::proofs::AccessLoops::lines))]
pub(crate) fn denied_lines(
    alloc: Global,
    lists: &Acl,
    catalog: &Catalog,
    user: &User,
) -> Result<DeniedLines, NoMemory>
    ensures { IfOk result (λ lines. lines ≡ denied_lines lists.now user.now catalog.now) }
{
    let mut told = DeniedLines::new(alloc);
    for i in 0..catalog.count() {
        told.push(denied_line(alloc, lists, catalog, catalog.segment(i), user)?)?;
    }
    Ok(told)
}
