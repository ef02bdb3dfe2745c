//! The help lists exactly the commands that are accepted.

use crate::memory::words;
use m36_help::help;
use m36_text::place_of;
use m36_top::command_of;
use m36_word::NoMemory;
use std::alloc::Global;

/// A command line for each command.
const READ: &[&[u8]] = &[
    b"bare f",
    b"audit f",
    b"run",
    b"trace",
    b"access A.B.c",
    b"procs f",
    b"debug f",
    b"alm f",
    b"bind f",
    b"print f",
    b"make 1",
];

// The command that a line of the help's list names, after two blanks.
fn named_in(line: &[u8]) -> Option<&[u8]> {
    let rest = line.get(2..)?;
    let end = place_of(rest, b' ')?;
    rest.get(..end)
}

// How many lines the help's list of commands has, and how many of them name this command.
fn lines_of(text: &[u8], name: &[u8]) -> (usize, usize) {
    let mut is_list = false;
    let mut all: usize = 0;
    let mut named: usize = 0;
    for line in text.split(|b| *b == b'\n') {
        if line.is_empty() {
            is_list = false;
        } else if is_list {
            all = all.saturating_add(1);
            if matches!(named_in(line), Some(found) if found == name) {
                named = named.saturating_add(1);
            }
        } else {
            is_list = line == b"Commands:".as_slice();
        }
    }
    (all, named)
}

// Whether a command is accepted, and the help's list has one line for it and as many lines as
// `READ`.
fn is_listed(alloc: Global, text: &[u8], command: &[u8]) -> Result<bool, NoMemory> {
    let words = words(alloc, command)?;
    let [name, ..] = words.as_slice() else {
        return Ok(false);
    };
    let is_read = command_of(words.as_slice()).is_some();
    Ok(is_read && lines_of(text, name.bytes()) == (READ.len(), 1))
}

#[test]
fn names_each_command_and_no_other(rt: HostRuntime) -> Result<(), NoMemory> {
    let text = help(rt.alloc())?;
    for command in READ {
        assert!(rt;
            is_listed(rt.alloc(), text.bytes(), command)?,
            "{command:?}"
        );
    }
    Ok(())
}
