//! The lines of a text, and the words of a line.

ghost use Rattle.std.specs.Prelude.{◌≡◌, ◌==◌, [], ◌∷◌, Option, None, Some, MatchOption, IfSome};
ghost use Rattle.std.specs.Prelude.{length, ◌<◌};
ghost use Rattle.std.specs.List.{position, slice_split};
ghost use Rattle.m36_text.specs.Lines.{lines_of, open_lines_of, unended_line, words_of, HasMore};

/// The index of the first occurrence of a byte in a text, counted from 0.
pub fn place_of(text: &[u8], byte: u8) -> Option<usize>
    ensures place { result ≡ position (λ b. b == byte) text.now }
    ensures within { IfSome result (λ i. i < length text.now) }
{
    // A loop takes less time to prove than a call of `position`.
    for place in 0..text.len() {
        let here = text[place];
        if here == byte {
            return Some(place);
        }
    }
    None
}

// The text before the first occurrence of a byte, and the text after it. None if the byte does not
// occur.
#[tactic(auto, using(crate::proofs::Splitting::splitting))]
fn split_first(text: &[u8], byte: u8) -> Option<(&[u8], &[u8])>
    ensures parts { MatchOption result (slice_split (λ b. b == byte) text.now ≡ text.now ∷ [])
        (λ parts. slice_split (λ b. b == byte) text.now
        ≡ parts.0.now ∷ slice_split (λ b. b == byte) parts.1.now) }
    ensures shorter { IfSome result (λ parts. length parts.1.now < length text.now) }
{
    match place_of(text, byte) {
        Some(end) => Some((&text[..end], &text[end + 1..])),
        None => None,
    }
}

/// The first line of a text without its line feed, and the text after the line feed. None if the
/// text has no line feed.
#[tactic(auto, using(crate::proofs::Splitting::lining))]
pub fn first_line(text: &[u8]) -> Option<(&[u8], &[u8])>
    ensures line { MatchOption result (lines_of text.now ≡ unended_line text.now)
        (λ parts. lines_of text.now ≡ Some parts.0.now ∷ lines_of parts.1.now) }
    ensures shorter { IfSome result (λ parts. length parts.1.now < length text.now) }
{
    split_first(text, b'\n')
}

/// The first line of a text, and the text after it. The last line may lack its line feed. None if
/// the text is empty.
#[tactic(auto, using(crate::proofs::Splitting::open_lining))]
pub fn first_open_line(text: &[u8]) -> Option<(&[u8], &[u8])>
    ensures line { MatchOption result (open_lines_of text.now ≡ [])
        (λ parts. open_lines_of text.now ≡ parts.0.now ∷ open_lines_of parts.1.now) }
    ensures shorter { IfSome result (λ parts. length parts.1.now < length text.now) }
{
    if text.is_empty() {
        return None;
    }
    match split_first(text, b'\n') {
        Some((line, rest)) => Some((line, rest)),
        None => Some((text, &text[text.len()..])),
    }
}

/// The first word of a line, and the text after the space that ends it. The second part is None if
/// the line has only one word.
#[tactic(auto, unfolding(crate::specs::Lines::words_of))]
pub fn first_word(line: &[u8]) -> (&[u8], Option<&[u8]>)
    ensures { MatchOption result.1 (words_of line.now ≡ result.0.now ∷ [])
        (λ rest. words_of line.now ≡ result.0.now ∷ words_of rest.now) }
{
    match split_first(line, b' ') {
        Some((word, rest)) => (word, Some(rest)),
        None => (line, None),
    }
}

/// The only word of a line. None if the line has more words.
#[tactic(auto, using(crate::proofs::Splitting::has_more))]
pub fn only_word(line: &[u8]) -> Option<&[u8]>
    ensures { MatchOption result (HasMore (words_of line.now))
        (λ word. words_of line.now ≡ word.now ∷ []) }
{
    let (word, rest) = first_word(line);
    match rest {
        Some(_) => None,
        None => Some(word),
    }
}
