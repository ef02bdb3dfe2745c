//! Segments with access lists, and the terms of these.

ghost use Rattle.std.specs.Prelude.{◌≡◌, ◌≤◌, length, IfOk, OnOk};
ghost use Rattle.m36_dir.specs.BootOrder.{entry};
ghost use Rattle.m36_acl.specs.AccessLine.{term_with};
ghost use Rattle.m36_acl.specs.AccessLists.{new_segment, with_term};
ghost use Rattle.m36_acl.specs.Users.{user_limit};

use crate::user::copied_in_place;
use arrayvec::ArrayVec;
use m36_dir::Mode;
use m36_outside::Text;
use m36_text::Name;
use m36_word::NoMemory;
use std::alloc::Global;
use std::marker::Model;

/// A term of an access list: which users it matches, and what they may do. Its model is the record
/// of its fields.
#[derive(Drop)]
pub struct Term {
    text: ArrayVec<u8, 67>,
    mode: Mode,
}

impl Model for Term {
    ghost use Rattle.m36_acl.specs.Fields.{TermFields};

    ghost Value = { TermFields };

    ghost view = { λ t. record { text = t.text.items; readable = t.mode.readable; executable = t.mode.executable; writable = t.mode.writable } };
}

impl Term {
    // A term of this text and this mode. Whether the mode is privileged is ignored.
    pub(crate) fn new(text: &[u8], mode: Mode) -> Term
        requires { length text.now ≤ user_limit }
        ensures { result ≡ term_with text.now mode }
    {
        Term {
            text: copied_in_place(text),
            mode,
        }
    }

    /// The text of the term, without its mode: at most 67 bytes.
    pub fn bytes(&self) -> &[u8]
        ensures value { result.now ≡ self.now.text }
        ensures fits { length self.now.text ≤ user_limit }
    {
        self.text.as_slice()
    }

    /// Whether the term gives the right to read.
    pub fn readable(&self) -> bool
        ensures { result ≡ self.now.readable }
    {
        self.mode.readable
    }

    /// Whether the term gives the right to execute.
    pub fn executable(&self) -> bool
        ensures { result ≡ self.now.executable }
    {
        self.mode.executable
    }

    /// Whether the term gives the right to write.
    pub fn writable(&self) -> bool
        ensures { result ≡ self.now.writable }
    {
        self.mode.writable
    }
}

/// A `segment` line and the terms of the lines after it. Its model is the record of its fields.
#[derive(Drop)]
pub struct AclSegment {
    /// The directory of the segment.
    pub dir: Text,
    terms: Vec<Term>,
    /// The name of the segment in its directory.
    pub name: Name,
    /// The number of the line, counted from 1.
    pub line: u32,
}

impl Model for AclSegment {
    ghost use Rattle.m36_acl.specs.Fields.{AclSegmentFields};

    ghost Value = { AclSegmentFields };

    ghost view = { λ s. record { line = s.line; dir = s.dir; name = s.name; terms = s.terms.items } };
}

impl AclSegment {
    // A segment without terms.
    pub(crate) fn new(
        alloc: Global,
        line: u32,
        dir: &[u8],
        name: Name,
    ) -> Result<AclSegment, NoMemory>
        ensures { IfOk result (λ segment. segment ≡ new_segment line (entry dir.now name)) }
    {
        Ok(AclSegment {
            dir: Text::from_bytes(alloc, dir)?,
            terms: Vec::new(alloc),
            name,
            line,
        })
    }

    // Adds a term at the end of the list.
    pub(crate) fn push(&mut self, term: Term) -> Result<(), NoMemory>
        ensures ok { OnOk result (self.new ≡ with_term self.old term) }
        ensures dir { self.new.dir ≡ self.old.dir }
        ensures name { self.new.name ≡ self.old.name }
    {
        self.terms.push(term)?;
        Ok(())
    }

    /// The terms in the order of their lines.
    pub fn terms(&self) -> &[Term]
        ensures { result.now ≡ self.now.terms }
    {
        self.terms.as_slice()
    }
}
