//! The program `m36`: the simulator with the files of the current directory, the standard input
//! and the standard output.
//!
//! It reads the words of the command line and calls the simulator. Unless the call answered Done,
//! it prints one line to standard error. It exits with the number of the status. The line is `m36:
//! ` and the name of the status; after BadFile follow the name of the file, the code, the place
//! and the column. After the line of Usage it prints the help.
//!
//! What the call does, the line and the number are stated by the contracts of `m36`, `report` and
//! `Status::number`, all of `m36_top`. Two things are in no contract, and can be read here: these
//! are called with the unchanged words and with the real folder, input and output; and if there is
//! no memory for the line, it is printed in pieces, which need none.
#![tactic(auto)]

mod words;

use m36_help::help;
use m36_outside::{DirFolder, StdLines, StdSink};
use m36_text::decimal;
use m36_top::{Status, m36, report};
use m36_word::NoMemory;
use std::io::{self, Write};
use std::process::ExitCode;
use words::read_words;

/// Performs the command that the words after the program's name ask for, over the current
/// directory, the standard input and the standard output. Fails only with `NoMemory`, before the
/// command.
fn perform_command(rt: &HostRuntime) -> Result<Status, NoMemory> {
    let words = read_words(rt, rt.alloc())?;
    let mut folder = DirFolder::new(rt.clone()?);
    let mut lines = StdLines::new(rt.clone()?);
    let mut out = StdSink::new(rt.clone()?);
    Ok(m36(
        rt.alloc(),
        words.as_slice(),
        &mut folder,
        &mut lines,
        &mut out,
    ))
}

/// Prints the help to standard error; nothing if memory runs out for it.
fn print_help(rt: &HostRuntime) {
    if let Ok(text) = help(rt.alloc()) {
        let _ = rt.stderr().write_all(text.bytes());
    }
}

/// Prints the line of a status to standard error, nothing for Done; if memory runs out for it,
/// prints it in pieces, which need none.
fn print_status(rt: &HostRuntime, status: &Status) -> io::Result<()> {
    match report(rt.alloc(), status) {
        Ok(line) => rt.stderr().write_all(line.bytes()),
        Err(_) => print_status_in_pieces(rt, status),
    }
}

// Prints the line of a status in pieces, which need no memory.
fn print_status_in_pieces(rt: &HostRuntime, status: &Status) -> io::Result<()> {
    let mut to = rt.stderr();
    to.write_all(b"m36: ")?;
    to.write_all(status.name().as_bytes())?;
    if let Status::BadFile(bad) = status {
        to.write_all(b" ")?;
        to.write_all(bad.name.bytes())?;
        to.write_all(b" ")?;
        to.write_all(bad.code.name().as_bytes())?;
        for number in [bad.at, bad.column] {
            to.write_all(b" ")?;
            to.write_all(decimal(number as u64).as_str().as_bytes())?;
        }
    }
    to.write_all(b"\n")
}

// Performs the command, prints the line of its status, and after Usage the help; exits with the
// number of the status.
fn main(rt: HostRuntime) -> ExitCode {
    let status = perform_command(&rt).unwrap_or(Status::NoMemory);
    let _ = print_status(&rt, &status);
    if let Status::Usage = status {
        print_help(&rt);
    }
    ExitCode::from(status.number())
}
