//! Access lists: texts that are read or refused, users, and what users may do.

use m36_acl::{Acl, AclFault, AclSegment, Term, User};
use m36_outside::Text;
use m36_word::NoMemory;
use std::alloc::Global;
use std::test::Fail;

// Four segments: one with two terms, two with one term, and one without terms.
const LISTS: &str = "segment >udd>demo main
term Jones.Demo.* null
term *.Demo.* re
segment >sss con_
term *.*.* re
segment >t dat
term *.*.* r
segment >t none
";

fn read(alloc: Global, text: &[u8]) -> Result<Acl, AclFault> {
    if text.len() >= 4294967296 {
        return Err(AclFault::NoMemory);
    }
    Acl::read(alloc, text)
}

// The fault of a text, if it is refused.
fn told(alloc: Global, text: &[u8]) -> Option<AclFault> {
    read(alloc, text).err()
}

/// A text, and its fault if it is refused.
const TEXTS: &[(&str, Option<AclFault>)] = &[
    ("", None),
    (LISTS, None),
    ("segment >a b\nterm A.B.c rew\nterm A.B.* null\n", None),
    ("segment >a b", Some(AclFault::C1(1))),
    ("segment >a b\nterm A.B.c r", Some(AclFault::C1(2))),
    ("segment >a  b\n", Some(AclFault::C1(1))),
    ("segment >a .b\n", Some(AclFault::C1(1))),
    ("segment >a b c\n", Some(AclFault::C1(1))),
    ("segment\n", Some(AclFault::C1(1))),
    ("\n", Some(AclFault::C1(1))),
    ("term A.B.c r\n", Some(AclFault::C1(1))),
    ("segment >a b\nterm A.B.c wr\n", Some(AclFault::C1(2))),
    ("segment >a b\nterm A.B.c rp\n", Some(AclFault::C1(2))),
    ("segment >a b\nterm A.B.c \n", Some(AclFault::C1(2))),
    ("segment >a b\nterm A.B r\n", Some(AclFault::C1(2))),
    ("segment >a b\nterm A.B.C r\n", Some(AclFault::C1(2))),
    ("segment >a b\nterm A.B.c.d r\n", Some(AclFault::C1(2))),
    ("segment >a b\nterm A.*B.c r\n", Some(AclFault::C1(2))),
    ("segment >a b\nsegment >a b\n", Some(AclFault::C2(2))),
    (
        "segment >a b\nsegment >b b\nsegment >a b\n",
        Some(AclFault::C2(3)),
    ),
    (
        "segment >a b\nterm *.B.c r\nterm *.B.c w\n",
        Some(AclFault::C2(3)),
    ),
    (
        "segment >a b\nterm *.B.c r\nsegment >a c\nterm *.B.c w\n",
        None,
    ),
];

#[test]
fn texts_with_their_codes(rt: HostRuntime) {
    for (text, code) in TEXTS {
        assert!(rt; told(rt.alloc(), text.as_bytes()) == *code, "{text}");
    }
}

// A text with one segment and a term for each tag.
fn with_tags(alloc: Global, tags: &[u8]) -> Result<Text, NoMemory> {
    let mut text = Text::from_bytes(alloc, b"segment >a b\n")?;
    for tag in tags {
        text.append(b"term *.*.")?;
        text.push(*tag)?;
        text.append(b" r\n")?;
    }
    Ok(text)
}

/// The tags of a segment's terms, and the fault of the text if it is refused.
const TAGS: &[(&str, Option<AclFault>)] = &[
    ("abcdefghijklmnop", None),
    ("abcdefghijklmnopq", Some(AclFault::C1(18))),
    ("abcdefghijklmnopa", Some(AclFault::C1(18))),
];

#[test]
fn sixteen_terms_at_most(rt: HostRuntime) -> Result<(), NoMemory> {
    for (tags, code) in TAGS {
        let text = with_tags(rt.alloc(), tags.as_bytes())?;
        assert!(rt; told(rt.alloc(), text.bytes()) == *code, "{tags}");
    }
    Ok(())
}

/// A text, and whether it is a user.
const USERS: &[(&str, bool)] = &[
    ("Smith.Demo.a", true),
    ("A.B.c", true),
    ("_.0.z", true),
    ("abcdefghijklmnopqrstuvwxyz012345.B.c", true),
    ("abcdefghijklmnopqrstuvwxyz0123456.B.c", false),
    ("A.B.C", false),
    ("A..c", false),
    ("A.B.cc", false),
    ("*.B.c", false),
    ("A.B", false),
    ("A.B.c.d", false),
    ("A.B.", false),
    ("", false),
];

#[test]
fn users_by_their_form(rt: HostRuntime) {
    for (text, is_user) in USERS {
        assert!(rt; User::read(text.as_bytes()).is_some() == *is_user, "{text}");
    }
}

/// Whether a user may read, execute and write, and the index of the term that decides.
type Granted = (bool, bool, bool, Option<usize>);

/// The directory and name of a segment, a user, and what the user may do.
const MODES: &[(&str, &str, &str, Granted)] = &[
    (
        ">udd>demo",
        "main",
        "Smith.Demo.a",
        (true, true, false, Some(1)),
    ),
    (
        ">udd>demo",
        "main",
        "Jones.Demo.a",
        (false, false, false, Some(0)),
    ),
    (
        ">udd>demo",
        "main",
        "Ann.Other.a",
        (false, false, false, None),
    ),
    (">sss", "con_", "Jones.Demo.a", (true, true, false, Some(0))),
    (">t", "dat", "A.B.c", (true, false, false, Some(0))),
    (">t", "none", "A.B.c", (false, false, false, None)),
    (">t", "main", "Smith.Demo.a", (false, false, false, None)),
];

fn mode_for(lists: &Acl, dir: &str, name: &str, user: &str) -> Option<Granted> {
    let user = User::read(user.as_bytes())?;
    let decision = lists.mode_for(dir.as_bytes(), name.as_bytes(), &user);
    Some((
        decision.readable,
        decision.executable,
        decision.writable,
        decision.term,
    ))
}

#[test]
fn modes_of_users(rt: HostRuntime) -> Result<(), Fail> {
    let lists = read(rt.alloc(), LISTS.as_bytes())?;
    for (dir, name, user, mode) in MODES {
        assert!(rt;
            mode_for(&lists, dir, name, user) == Some(*mode),
            "{name} {user}"
        );
    }
    Ok(())
}

/// The line numbers of the segments of `LISTS`.
const LINES: &[u32] = &[1, 4, 6, 8];

/// The access names of the terms of `main`.
const TERMS: &[&str] = &["Jones.Demo.*", "*.Demo.*"];

fn have_lines(segments: &[AclSegment], lines: &[u32]) -> bool {
    for (segment, line) in segments.iter().zip(lines) {
        if segment.line != *line {
            return false;
        }
    }
    segments.len() == lines.len()
}

fn have_users(terms: &[Term], texts: &[&str]) -> bool {
    for (term, text) in terms.iter().zip(texts) {
        if term.bytes() != text.as_bytes() {
            return false;
        }
    }
    terms.len() == texts.len()
}

#[test]
fn lists_as_they_are_written(rt: HostRuntime) -> Result<(), Fail> {
    let lists = read(rt.alloc(), LISTS.as_bytes())?;
    assert!(rt; have_lines(lists.segments(), LINES));
    assert!(rt; have_users(lists.terms(b">udd>demo", b"main"), TERMS));
    assert!(rt; lists.terms(b">udd>demo", b"con_").is_empty());
    Ok(())
}
