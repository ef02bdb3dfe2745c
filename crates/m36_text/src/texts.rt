//! Comparison of texts, and the characters of names.

ghost use Rattle.std.specs.Prelude.{◌≡◌, ◌≤◌, true, length};
ghost use Rattle.std.specs.List.{list_all};
ghost use Rattle.m36_text.specs.Texts.{is_text, is_letter, is_name_character, name_limit, is_name};
ghost use Rattle.m36_text.specs.Texts.{is_file_name};

use crate::reading::is_digit;

/// The most characters of a name.
pub const LONGEST_NAME: usize = 32;

/// Whether `text` is exactly `name`.
pub fn is_text(name: &[u8], text: &[u8]) -> bool
    ensures { result ≡ is_text name.now text.now }
{
    text == name
}

/// Whether a byte is an ASCII letter, lower or upper case.
pub fn is_letter(byte: u8) -> bool
    ensures { result ≡ is_letter byte }
{
    matches!(byte, b'A'..=b'Z' | b'a'..=b'z')
}

/// Whether a byte can occur in a name: a letter, a digit, `_` or `.`.
pub fn is_name_character(byte: u8) -> bool
    ensures { result ≡ is_name_character byte }
{
    is_letter(byte) || is_digit(10, byte) || matches!(byte, b'_' | b'.')
}

// Whether each byte can occur in a name. So it is for an empty text.
fn has_name_characters(text: &[u8]) -> bool
    ensures { result ≡ list_all is_name_character text.now }
{
    text.iter().all(|byte| is_name_character(*byte))
}

/// Whether a text is a name: 1 to 32 letters, digits, `_` and `.`.
#[tactic(auto, unfolding(crate::specs::Texts::is_name))]
pub fn is_name(text: &[u8]) -> bool
    ensures value { result ≡ is_name text.now }
    ensures fits { result ≡ true → length text.now ≤ name_limit }
{
    if text.is_empty() || text.len() > LONGEST_NAME {
        return false;
    }
    has_name_characters(text)
}

/// Whether a text names a file or a segment: a name that does not begin with `.`.
#[tactic(auto, unfolding(crate::specs::Texts::is_file_name))]
pub fn is_file_name(text: &[u8]) -> bool
    ensures value { result ≡ is_file_name text.now }
    ensures fits { result ≡ true → length text.now ≤ name_limit }
{
    is_name(text) && !text.starts_with(b".")
}
