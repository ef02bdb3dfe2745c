//! Tokens: modifiers, and the pieces between separators.

use alm_tokens::modifiers::tag_of;
use alm_tokens::pieces::pieces_of;
use alm_tokens::{Separator, Span, TextPiece};
use m36_word::NoMemory;
use std::alloc::Global;

/// The text of a modifier, and its tag.
const MODIFIERS: &[(&[u8], Option<u8>)] = &[
    (b"n", Some(0)),
    (b"7", Some(0o17)),
    (b"x7*", Some(0o37)),
    (b"*n", Some(0o60)),
    (b"id", Some(0o56)),
    (b"x8", None),
    (b"", None),
];

#[test]
fn modifiers(rt: HostRuntime) {
    for (text, tag) in MODIFIERS {
        assert!(rt; tag_of(text) == *tag, "{text:?}");
    }
}

// How many pieces a text has between separators. A text of over 4000 bytes answers 0.
fn count(alloc: Global, parter: Separator, text: &[u8]) -> Result<usize, NoMemory> {
    if text.len() > 4000 {
        return Ok(0);
    }
    let span = Span {
        from: 0,
        to: text.len() as u32,
    };
    let pieces = pieces_of(alloc, parter, text, TextPiece { span, minus: false })?;
    Ok(pieces.items().len())
}

/// The separator, a text, and the number of its pieces.
const PIECES: &[(Separator, &[u8], usize)] = &[
    (Separator::Comma, b"a,b", 2),
    (Separator::Comma, b"", 1),
    (Separator::Sign, b"a+5-x", 3),
    (Separator::Sign, b"a,b", 1),
];

#[test]
fn pieces(rt: HostRuntime) -> Result<(), NoMemory> {
    for (parter, text, expected) in PIECES {
        assert!(rt; count(rt.alloc(), *parter, text)? == *expected, "{text:?}");
    }
    Ok(())
}
