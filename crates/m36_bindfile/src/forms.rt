//! Parses each line of a bind file by itself. A line is given without its line feed. None is a line
//! that has no form.

ghost use Rattle.std.specs.Prelude.{◌≡◌, Some};
ghost use Rattle.m36_text.specs.Lines.{last_of};
ghost use Rattle.m36_bindfile.specs.BindFile.{object_line, retain_line, version_line};
ghost use Rattle.m36_bindfile.specs.BindFile.{line_of_two_words, parsed_bind_line, is_object};
ghost use Rattle.m36_bindfile.specs.BindFile.{may_begin, may_follow, is_in_order_after};
ghost use Rattle.m36_bindfile.specs.BindFile.{line_in_order, is_object_line};

use crate::line::{BindLine, BindLines};
use m36_text::{Name, first_word, is_file_name, only_word};

// The line `object NAME`. None if the word is not the name of a file.
fn object_line(name: &[u8]) -> Option<BindLine>
    ensures { result ≡ object_line name.now }
{
    if is_file_name(name) {
        Some(BindLine::Object(Name::new(name)?))
    } else {
        None
    }
}

// The line `retain NAME`. None if the word is not the name of a file.
fn retain_line(name: &[u8]) -> Option<BindLine>
    ensures { result ≡ retain_line name.now }
{
    if is_file_name(name) {
        Some(BindLine::Retain(Name::new(name)?))
    } else {
        None
    }
}

// The line `version 2`. None for any other number.
fn version_line(number: &[u8]) -> Option<BindLine>
    ensures { result ≡ version_line number.now }
{
    if number == b"2".as_slice() {
        Some(BindLine::Version)
    } else {
        None
    }
}

// The line with this first word and this second word.
fn line_of_two_words(word: &[u8], given: &[u8]) -> Option<BindLine>
    ensures { result ≡ line_of_two_words word.now given.now }
{
    if word == b"object".as_slice() {
        return object_line(given);
    }
    if word == b"retain".as_slice() {
        return retain_line(given);
    }
    if word == b"version".as_slice() {
        return version_line(given);
    }
    None
}

// Parses a line of a bind file.
#[tactic(auto, unfolding(crate::specs::BindFile::parsed_bind_line))]
fn read_line(text: &[u8]) -> Option<BindLine>
    ensures { result ≡ parsed_bind_line (Some text.now) }
{
    let (word, rest) = first_word(text);
    line_of_two_words(word, only_word(rest?)?)
}

// Whether a parsed line is an `object` line.
fn is_object(line: &BindLine) -> bool
    ensures { result ≡ is_object line.now }
{
    matches!(line, BindLine::Object(_))
}

/// Whether a line is an `object` line.
pub(crate) fn is_object_line(text: &[u8]) -> bool
    ensures { result ≡ is_object_line (parsed_bind_line (Some text.now)) }
{
    match read_line(text) {
        Some(line) => is_object(&line),
        None => false,
    }
}

// Whether a line may be the first of a bind file.
fn may_begin(line: &BindLine) -> bool
    ensures { result ≡ may_begin line.now }
{
    !matches!(line, BindLine::Retain(_))
}

// Whether a line may come directly after the line `above`: objects after the version or an object,
// retained names after an object or a retained name.
fn may_follow(above: &BindLine, next: &BindLine) -> bool
    ensures { result ≡ may_follow above.now next.now }
{
    match (above, next) {
        (BindLine::Version, _) => is_object(next),
        (BindLine::Object(_), BindLine::Version) => false,
        (BindLine::Object(_), _) => true,
        (BindLine::Retain(_), BindLine::Retain(_)) => true,
        (BindLine::Retain(_), _) => false,
    }
}

// Whether a line may follow these lines, or may be the first if there are none.
fn is_in_order(above: &[BindLine], next: &BindLine) -> bool
    ensures { result ≡ is_in_order_after (last_of above.now) next.now }
{
    match above.last() {
        None => may_begin(next),
        Some(last) => may_follow(last, next),
    }
}

/// The parsed line, if it has a form and may follow the lines above.
pub(crate) fn line_after(above: &BindLines, text: &[u8]) -> Option<BindLine>
    ensures { result ≡ line_in_order (last_of above.now) (parsed_bind_line (Some text.now)) }
{
    let next = read_line(text)?;
    if is_in_order(above.items(), &next) {
        Some(next)
    } else {
        None
    }
}
