//! The system calls that change the names of a directory, and the spare file.
//!
//! The system is called by `make_new`, `rename` and `remove`. Each logs the call and whether the
//! system did it.

ghost use Rattle.std.specs.Prelude.{[], ◌∷◌, ◌++◌, ◌+◌, ◌≡◌, ◌<◌, true, false, MatchResult};
ghost use Rattle.std.specs.Prelude.{MatchOption};
ghost use Rattle.m36_outside.specs.NameCalls.{ErrorUnless, MakesSpare, MakesNone, spare_name};

use crate::call_log::{Entries, Log};
use crate::text::Text;
use arrayvec::ArrayString;
use std::fs;
use std::fs::File;
use std::io::{Error, ErrorKind};
use std::rt::Files;

/// The number of spare names.
const SPARES: u16 = 1000;

/// The length of a spare name, in bytes.
const SPARE_LENGTH: usize = 8;

/// A call that changes the names of a directory, and whether the system did it. Only clauses see
/// it.
#[derive(Drop)]
pub enum NameCall {
    /// To create a file under a name that no file has.
    Make(Text, bool),
    /// To rename the file of the first name to the second, and replace the file that has the
    /// second name.
    Rename(Text, Text, bool),
    /// To remove the file with this name.
    Remove(Text, bool),
}

/// A call that creates a file, for the log.
#[derive(Drop)]
struct Making<'a> {
    name: &'a str,
    done: bool,
}

/// A call that renames a file, for the log.
#[derive(Drop)]
struct Renaming<'a> {
    from: &'a str,
    to: &'a str,
    done: bool,
}

/// A call that removes a file, for the log.
#[derive(Drop)]
struct Removing<'a> {
    name: &'a str,
    done: bool,
}

impl Entries<NameCall> for Making<'_> {
    ghost use Rattle.std.specs.Prelude.{[], ◌∷◌};
    ghost use Rattle.m36_outside.specs.declared.name_calls.NameCall.TheVariants.{Make};

    ghost entries = { λ call. Make call.name.now call.done ∷ [] };
}

impl Entries<NameCall> for Renaming<'_> {
    ghost use Rattle.std.specs.Prelude.{[], ◌∷◌};
    ghost use Rattle.m36_outside.specs.declared.name_calls.NameCall.TheVariants.{Rename};

    ghost entries = { λ call. Rename call.from.now call.to.now call.done ∷ [] };
}

impl Entries<NameCall> for Removing<'_> {
    ghost use Rattle.std.specs.Prelude.{[], ◌∷◌};
    ghost use Rattle.m36_outside.specs.declared.name_calls.NameCall.TheVariants.{Remove};

    ghost entries = { λ call. Remove call.name.now call.done ∷ [] };
}

/// Creates a file under the first spare name that is free. Each spare name begins with a point.
/// None: no spare name was free, or the system refused with another error.
pub fn make_spare<R: Files>(
    rt: &R,
    calls: &mut Log<NameCall>,
    errors: &mut Log<ErrorKind>,
) -> Option<(ArrayString<SPARE_LENGTH>, R::File)>
    ensures { MatchOption result
        (MakesNone calls.old.entries calls.new.entries errors.old.entries errors.new.entries)
        (λ made. MakesSpare made.0.bytes
        calls.old.entries calls.new.entries errors.old.entries errors.new.entries) }
{
    for number in 0..SPARES {
        let name = spare_name(number);
        match make_new(rt, name.as_str(), calls, errors) {
            Ok(file) => return Some((name, file)),
            Err(ErrorKind::AlreadyExists) => {}
            Err(_) => return None,
        }
    }
    None
}

/// The spare name with this number: `.m36-` and three digits.
#[tactic(auto, unfolding(crate::specs::NameCalls::spare_name))]
fn spare_name(number: u16) -> ArrayString<SPARE_LENGTH>
    requires { number < SPARES }
    ensures { result.bytes ≡ spare_name number }
{
    let mut name = ArrayString::new();
    name.push_str(".m36-");
    name.push(digit(number / 100));
    name.push(digit(number / 10 % 10));
    name.push(digit(number % 10));
    name
}

/// The ASCII digit of a number below ten.
fn digit(number: u16) -> char
    requires { number < 10 }
    ensures value { result ≡ 48 + number }
    ensures ascii { result < 128 }
{
    char::from(b'0' + number as u8)
}

/// Creates a file under a name that no file has. The error is that of the system, `AlreadyExists`
/// if a file has the name.
fn make_new<R: Files>(
    rt: &R,
    name: &str,
    calls: &mut Log<NameCall>,
    errors: &mut Log<ErrorKind>,
) -> Result<R::File, ErrorKind>
    ensures calls { MatchResult result
        (λ _. calls.new.entries ≡ calls.old.entries ++ NameCall.Make name.now true ∷ [])
        (λ _. calls.new.entries ≡ calls.old.entries ++ NameCall.Make name.now false ∷ []) }
    ensures errors { MatchResult result
        (λ _. errors.new.entries ≡ errors.old.entries)
        (λ kind. errors.new.entries ≡ errors.old.entries ++ kind ∷ []) }
{
    match File::create_new(rt, name) {
        Ok(file) => {
            calls.note(&Making { name, done: true });
            Ok(file)
        }
        Err(e) => {
            let kind = e.kind();
            calls.note(&Making { name, done: false });
            errors.note(&kind);
            Err(kind)
        }
    }
}

/// Renames the file of the first name to the second, and replaces the file that has the second
/// name. Returns whether that was done.
pub fn rename<R: Files>(
    rt: &R,
    from: &str,
    to: &str,
    calls: &mut Log<NameCall>,
    errors: &mut Log<ErrorKind>,
) -> bool
    ensures calls { calls.new.entries
        ≡ calls.old.entries ++ NameCall.Rename from.now to.now result ∷ [] }
    ensures error { ErrorUnless result errors.old.entries errors.new.entries }
{
    let done = note_refusal(fs::rename(rt, from, to), errors);
    calls.note(&Renaming { from, to, done });
    done
}

/// Removes the file with a name. Returns whether that was done.
pub fn remove<R: Files>(
    rt: &R,
    name: &str,
    calls: &mut Log<NameCall>,
    errors: &mut Log<ErrorKind>,
) -> bool
    ensures calls { calls.new.entries ≡ calls.old.entries ++ NameCall.Remove name.now result ∷ [] }
    ensures error { ErrorUnless result errors.old.entries errors.new.entries }
{
    let done = note_refusal(fs::remove_file(rt, name), errors);
    calls.note(&Removing { name, done });
    done
}

/// Logs the error of a call, if any. Returns whether the call was done.
fn note_refusal(answer: Result<(), Error>, errors: &mut Log<ErrorKind>) -> bool
    ensures { ErrorUnless result errors.old.entries errors.new.entries }
{
    match answer {
        Ok(()) => true,
        Err(e) => {
            errors.note(&e.kind());
            false
        }
    }
}
