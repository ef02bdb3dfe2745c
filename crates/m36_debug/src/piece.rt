//! Splits pieces of input into lines.

ghost use Rattle.std.specs.Prelude.{◌≡◌, ◌≤◌, ◌<◌, ◌++◌, MatchOption, IfSome, length};
ghost use Rattle.m36_text.specs.Lines.{as_line};
ghost use Rattle.m36_debug.specs.LinesTaken.{IsUnbroken};

use m36_text::place_of;

/// A text up to its first line feed, and the text after it; None if there is no line feed.
#[tactic(auto, using(crate::proofs::LinesLaws::cutting))]
pub(crate) fn cut_line(text: &[u8]) -> Option<(&[u8], &[u8])>
    ensures parts { MatchOption result (IsUnbroken text.now)
        (λ parts. (text.now ≡ as_line parts.0.now ++ parts.1.now) × IsUnbroken parts.0.now) }
    ensures shorter { IfSome result (λ parts. length parts.1.now < length text.now) }
{
    match place_of(text, b'\n') {
        Some(end) => Some((&text[..end], &text[end + 1..])),
        None => None,
    }
}
