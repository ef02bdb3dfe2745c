//! Parses what follows the first word of a line of access lists. None if it is not of its form.

ghost use Rattle.std.specs.Prelude.{◌≡◌, ◌≤◌, length, None, Some, IfSome, MatchOption};
ghost use Rattle.m36_text.specs.Lines.{words_of};
ghost use Rattle.m36_dir.specs.BootOrder.{entry};
ghost use Rattle.m36_acl.specs.AccessLine.{rights_of, entry_of, term_of};
ghost use Rattle.m36_dir.specs.BootLine.{directory_limit};

use crate::matching::is_term;
use crate::segment::Term;
use m36_dir::{Mode, is_directory, mode_of, name_of};
use m36_text::{Name, first_word, only_word};

/// The directory and the name, from the words `DIR NAME` of a `segment` line.
pub(crate) fn entry_of(given: &[u8]) -> Option<(&[u8], Name)>
    ensures value { MatchOption result (entry_of (words_of given.now) ≡ None)
        (λ e. entry_of (words_of given.now) ≡ Some (entry e.0.now e.1)) }
    ensures fits { IfSome result (λ e. length e.0.now ≤ directory_limit) }
{
    let (dir, rest) = first_word(given);
    let name = name_of(only_word(rest?)?)?;
    if is_directory(dir) {
        Some((dir, name))
    } else {
        None
    }
}

// Parses a mode as in a boot text, but without the letter p.
#[tactic(auto, unfolding(crate::specs::AccessLine::rights_of))]
fn rights_of(word: &[u8]) -> Option<Mode>
    ensures { result ≡ rights_of word.now }
{
    let mode = mode_of(word)?;
    if mode.privileged { None } else { Some(mode) }
}

/// The term with its rights, from the words `TERM MODE` of a `term` line.
pub(crate) fn term_of(given: &[u8]) -> Option<Term>
    ensures { result ≡ term_of (words_of given.now) }
{
    let (text, rest) = first_word(given);
    let mode = rights_of(only_word(rest?)?)?;
    if is_term(text) {
        Some(Term::new(text, mode))
    } else {
        None
    }
}
