//! The lines of links, of the console, and of the end of a run.

use arrayvec::ArrayVec;
use m36_model::{At, End, Fault, LinkCode, Stop};
use m36_step::{ConsoleNote, LinkNote};
use m36_turns::{console_line, link_line, run_end_line};
use m36_word::{Pair, Word};

const PLACE: At = At {
    word: 0o2010,
    seg: 0o24,
    ring: 4,
};

/// The name of a link, the code with which it is refused, and its line.
const REFUSED: &[(&[u8], LinkCode, &[u8])] = &[
    (b"?", LinkCode::L1, b"link 4 00024|002010 ? L1"),
    (b"d$", LinkCode::L5(1), b"link 4 00024|002010 d$ L5"),
    (
        b"*static$cnt",
        LinkCode::L6(262138, 8),
        b"link 4 00024|002010 *static$cnt L6",
    ),
];

// The note of a link with this name and this answer; `None` if the name is too long.
fn link(name: &[u8], answer: Result<Pair, LinkCode>) -> Option<LinkNote> {
    let mut text = ArrayVec::new();
    text.try_extend_from_slice(name).ok()?;
    Some(LinkNote {
        name: text,
        answer,
        at: PLACE,
        ring: 4,
    })
}

fn has_line(name: &[u8], answer: Result<Pair, LinkCode>, line: &[u8]) -> bool {
    match link(name, answer) {
        Some(note) => link_line(&note).as_slice() == line,
        None => false,
    }
}

#[test]
fn links_have_their_lines(rt: HostRuntime) {
    let pair = Pair {
        even: Word::low(0o000101400043),
        odd: Word::low(0),
    };
    let line = b"link 4 00024|002010 con_$write 000101400043 000000000000";
    assert!(rt; has_line(b"con_$write", Ok(pair), line));
    for (name, code, line) in REFUSED {
        assert!(rt; has_line(name, Err(*code), line), "{name:?}");
    }
}

const WRITTEN: &[u8] = b" hello~\\\n\x7f\xff";

const CONSOLE: &[u8] = b"console  hello~\\134\\012\\177\\377";

fn console(bytes: &[u8]) -> Option<ConsoleNote> {
    let mut text = ArrayVec::new();
    text.try_extend_from_slice(bytes).ok()?;
    Some(ConsoleNote { bytes: text })
}

#[test]
fn console_has_its_line(rt: HostRuntime) {
    match console(WRITTEN) {
        Some(note) => assert!(rt; console_line(&note).as_slice() == CONSOLE),
        None => assert!(rt; false),
    }
}

#[test]
fn runs_end_with_their_lines(rt: HostRuntime) {
    let fault = Fault {
        number: 20,
        acv: 3,
        at: PLACE,
    };
    for (end, turns, line) in [
        (End::Fault(fault), 7, "end fault 20.3 7"),
        (End::Stop(Stop::Tag), 7, "end stop tag 7"),
        (End::Link(LinkCode::L2), 13, "end link L2 13"),
        (End::Console, 0, "end console 0"),
    ] {
        assert!(rt; run_end_line(end, turns).as_str() == line, "{line}");
    }
}
