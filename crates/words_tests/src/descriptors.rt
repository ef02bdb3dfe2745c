//! Descriptors and pointers decoded and encoded, and the access checks of a descriptor.

use m36_desc::*;
use m36_word::{Pair, Word};

fn pair(even: u64, odd: u64) -> Pair {
    Pair {
        even: Word::low(even),
        odd: Word::low(odd),
    }
}

#[test]
fn segment_descriptor(rt: HostRuntime) {
    let words = pair(0o000100004444, 0o000775300000);
    let s = Sdw::of_words(words);
    let expected = Sdw {
        addr: 0o10000,
        bound: 0o77,
        limit: 0,
        r1: 4,
        r2: 4,
        r3: 4,
        fc: 0,
        f: true,
        readable: true,
        executable: false,
        writable: true,
        privileged: false,
        unpaged: true,
        no_gate: true,
        cached: false,
    };
    assert!(rt; s == expected);
    assert!(rt; s.to_words() == words);
}

/// The bits of a page table word, and whether its page was used and modified.
const PAGES: &[(u64, bool, bool)] = &[
    (0o000020000004, false, false),
    (0o000020001004, true, false),
    (0o000020001104, true, true),
];

/// Whether the bits encode a page in frame 1 with these two marks, and decode to it.
fn is_page(bits: u64, used: bool, modified: bool) -> bool {
    let word = Word::low(bits);
    let page = Ptw {
        addr: 0o20,
        fc: 0,
        used,
        modified,
        f: true,
    };
    Ptw::of_words(word) == page && page.to_words() == word
}

#[test]
fn page_table_words(rt: HostRuntime) {
    for (bits, used, modified) in PAGES {
        assert!(rt; is_page(*bits, *used, *modified), "{bits:o}");
    }
}

#[test]
fn descriptor_base(rt: HostRuntime) {
    let words = pair(0o000001000000, 0o001770200001);
    let base = Dbr {
        addr: 0o100,
        bnd: 127,
        stack: 1,
        unpaged: true,
    };
    assert!(rt; Dbr::of_words(words) == base && base.to_words() == words);
}

#[test]
fn pairs(rt: HostRuntime) {
    let words = pair(0o000101400043, 0o000012005020);
    let link = Its {
        word: 0o12,
        seg: 0o101,
        ring: 4,
        bit: 5,
        tag: 0o20,
    };
    assert!(rt; Its::of_words(words) == link && link.to_words() == words);

    let words = pair(0o600000000041, 0o000024000020);
    let through = Itp {
        word: 0o24,
        pr: 6,
        bit: 0,
        tag: 0o20,
    };
    assert!(rt; Itp::of_words(words) == through && through.to_words() == words);
}

#[test]
fn pointers(rt: HostRuntime) {
    let register = Ptr {
        word: 0o12,
        seg: 0o101,
        ring: 4,
        bit: 5,
    };
    let found = Ptr::of_words(pair(0o000101400043, 0o000012005020));
    let words = pair(0o000101400043, 0o000012005000);
    assert!(rt; found == register && register.to_words() == words);
}

#[test]
fn laws() {
    descriptor_laws();
    field_widths();
    word_widths();
}

/// A kind of reference, with the ring in which it is made.
#[derive(Clone, Copy)]
enum Asked {
    Fetch(u8),
    /// The ring, and whether the segment is the one that executes.
    Read(u8, bool),
    Write(u8),
    /// The ring of the pointer and the ring of execution.
    Transfer(u8, u8),
    /// The ring of the pointer, the ring of execution, and the word called.
    Call(u8, u8, u32),
}

/// Brackets, the call limiter if the segment is a gate, a reference, and the expected result: the
/// ring in which execution or the reference goes on, or the access violation. Each segment may be
/// executed, but not read or written.
type Reference = ((u8, u8, u8), Option<u16>, Asked, Result<u8, Acv>);

const REFERENCES: &[Reference] = &[
    ((1, 4, 4), None, Asked::Fetch(4), Ok(4)),
    ((1, 0, 4), None, Asked::Fetch(0), Err(Acv(0))),
    ((1, 4, 4), None, Asked::Fetch(0), Err(Acv(1))),
    ((1, 4, 4), None, Asked::Read(4, true), Ok(4)),
    ((1, 4, 4), None, Asked::Read(5, true), Err(Acv(3))),
    ((1, 4, 4), None, Asked::Read(4, false), Err(Acv(4))),
    ((1, 4, 4), None, Asked::Write(2), Err(Acv(5))),
    ((1, 4, 4), None, Asked::Write(1), Err(Acv(6))),
    ((1, 4, 4), None, Asked::Transfer(4, 4), Ok(4)),
    ((1, 4, 4), None, Asked::Transfer(4, 3), Err(Acv(12))),
    ((0, 0, 5), Some(2), Asked::Call(4, 4, 1), Ok(0)),
    ((0, 0, 5), Some(2), Asked::Call(4, 4, 2), Err(Acv(7))),
    ((0, 0, 5), Some(2), Asked::Call(6, 6, 1), Err(Acv(8))),
    ((2, 3, 3), None, Asked::Call(1, 1, 0), Err(Acv(9))),
    ((2, 3, 3), None, Asked::Call(3, 1, 0), Err(Acv(10))),
    ((2, 3, 3), None, Asked::Call(3, 3, 0), Ok(3)),
];

fn segment(brackets: (u8, u8, u8), gate: Option<u16>) -> Sdw {
    let mut s = Sdw::of_words(pair(0, 0));
    s.r1 = brackets.0 % 8;
    s.r2 = brackets.1 % 8;
    s.r3 = brackets.2 % 8;
    s.executable = true;
    s.no_gate = gate.is_none();
    s.limit = gate.unwrap_or(0) % (1 << 14);
    s
}

/// `ring` for a reference that is granted.
fn in_ring(ring: u8, granted: Result<(), Acv>) -> Result<u8, Acv> {
    match granted {
        Ok(()) => Ok(ring),
        Err(violation) => Err(violation),
    }
}

fn answer(s: &Sdw, asked: Asked) -> Result<u8, Acv> {
    match asked {
        Asked::Fetch(ring) => in_ring(ring, may_fetch(s, ring)),
        Asked::Read(ring, same) => in_ring(ring, may_read(s, ring, same)),
        Asked::Write(ring) => in_ring(ring, may_write(s, ring)),
        Asked::Transfer(ring, prr) => in_ring(ring, may_transfer(s, ring, prr)),
        Asked::Call(ring, prr, word) => call_ring(s, ring, prr, false, word),
    }
}

#[test]
fn references(rt: HostRuntime) {
    for (n, (brackets, gate, asked, expected)) in REFERENCES.iter().enumerate() {
        let s = segment(*brackets, *gate);
        assert!(rt; answer(&s, *asked) == *expected, "reference {n}");
    }
}
