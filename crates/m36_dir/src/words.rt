//! The words of a line of a boot text. None is a word that does not have the expected form.

ghost use Rattle.std.specs.Prelude.{◌≡◌, ◌≤◌, true, length, All, IfSome};
ghost use Rattle.std.specs.List.{list_all};
ghost use Rattle.m36_dir.specs.BootLine.{is_directory_character, is_directory, directory_of};
ghost use Rattle.m36_dir.specs.BootLine.{name_of, kind_of, kind_word, strip_letter};
ghost use Rattle.m36_dir.specs.BootLine.{mode_of_letters, mode_of, mode_word, directory_limit};

use crate::directory::Directory;
use crate::segment::{Mode, SegKind};
use m36_text::{Name, is_file_name, is_name_character};

// The maximal number of characters of the name of a directory.
const LONGEST_DIRECTORY: usize = 64;

// Whether a byte can be in the name of a directory: a letter, digit, `_`, `.` or `>`.
fn is_directory_character(c: u8) -> bool
    ensures { result ≡ is_directory_character c }
{
    is_name_character(c) || c == b'>'
}

// Whether all bytes of a word can be in the name of a directory.
fn has_directory_characters(word: &[u8]) -> bool
    ensures { result ≡ list_all is_directory_character word.now }
{
    word.iter().all(|c| is_directory_character(*c))
}

/// Whether a word is the name of a directory: 1 to 64 letters, digits, `_`, `.` and `>`.
pub fn is_directory(word: &[u8]) -> bool
    ensures value { result ≡ is_directory word.now }
    ensures some { result ≡ true → 1 ≤ length word.now }
    ensures fits { result ≡ true → length word.now ≤ directory_limit }
    ensures characters { result ≡ true → All (λ c. is_directory_character c ≡ true) word.now }
{
    if word.is_empty() || word.len() > LONGEST_DIRECTORY {
        return false;
    }
    has_directory_characters(word)
}

// Parses the name of a directory, which is the word itself, and not empty.
pub(crate) fn directory_of(word: &[u8]) -> Option<Directory>
    ensures value { result ≡ directory_of word.now }
    ensures same { IfSome result (λ dir. dir ≡ word.now) }
    ensures some { IfSome result (λ dir. 1 ≤ length dir) }
{
    if is_directory(word) {
        Directory::new(word)
    } else {
        None
    }
}

/// Parses the name of a segment, an entry or a file, which is the word itself, and not empty. None
/// if the word is not one.
pub fn name_of(word: &[u8]) -> Option<Name>
    ensures value { result ≡ name_of word.now }
    ensures same { IfSome result (λ name. name ≡ word.now) }
    ensures some { IfSome result (λ name. 1 ≤ length name) }
{
    if is_file_name(word) {
        Name::new(word)
    } else {
        None
    }
}

// Parses the kind of a segment. Each kind has one word.
pub(crate) fn kind_of(word: &[u8]) -> Option<SegKind>
    ensures value { result ≡ kind_of word.now }
    ensures inverse { IfSome result (λ kind. word.now ≡ kind_word kind) }
{
    if word == b"object".as_slice() {
        return Some(SegKind::Object);
    }
    if word == b"gate".as_slice() {
        return Some(SegKind::Gate);
    }
    if word == b"data".as_slice() {
        return Some(SegKind::Plain);
    }
    None
}

// Whether the letters begin with this one, and the letters after it; if they do not, all of them.
fn strip_letter(letter: u8, letters: &[u8]) -> (bool, &[u8])
    ensures stands { result.0 ≡ (strip_letter letter letters.now).stands }
    ensures rest { result.1.now ≡ (strip_letter letter letters.now).rest }
{
    match letters {
        [first, rest @ ..] if *first == letter => (true, rest),
        _ => (false, letters),
    }
}

// The mode that letters spell: some of r, e, w and p, in this order. None for other letters.
fn mode_of_letters(letters: &[u8]) -> Option<Mode>
    ensures { result ≡ mode_of_letters letters.now }
{
    let (readable, rest) = strip_letter(b'r', letters);
    let (executable, rest) = strip_letter(b'e', rest);
    let (writable, rest) = strip_letter(b'w', rest);
    let (privileged, rest) = strip_letter(b'p', rest);
    if !rest.is_empty() {
        return None;
    }
    Some(Mode {
        readable,
        executable,
        writable,
        privileged,
    })
}

/// Parses the mode of a segment: one or more of the letters r, e, w and p in this order, or `null`.
/// None if the word is neither. Each mode has one word.
#[tactic(auto, unfolding(crate::specs::BootLine::mode_of))]
pub fn mode_of(word: &[u8]) -> Option<Mode>
    ensures value { result ≡ mode_of word.now }
    ensures inverse { IfSome result (λ mode. word.now ≡ mode_word mode) }
{
    if word.is_empty() {
        return None;
    }
    if word == b"null".as_slice() {
        return Some(Mode {
            readable: false,
            executable: false,
            writable: false,
            privileged: false,
        });
    }
    mode_of_letters(word)
}
