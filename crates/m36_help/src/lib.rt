//! The help of the program: its commands, its options, how a call ends, and examples.
//!
//! [`help`] returns the text that `clap` renders from a description of the command line, with a
//! line of [`COMMANDS`] for each command. Nothing is parsed here: `m36_top` parses the words with
//! its own table, and a request for help is not a command. The program prints this text after the
//! line of Usage. No contract mentions it; a test compares the commands that it names with those
//! that are parsed.
#![tactic(auto)]

use clap::{Arg, ArgAction, Command};
use m36_outside::Text;
use m36_word::NoMemory;
use std::alloc::{AllocError, Global};

/// The commands, each with what it does.
pub const COMMANDS: [(&str, &str); 11] = [
    ("bare", "audit the bare image FILE, and run it with a trace"),
    (
        "audit",
        "audit the bare image FILE, or the folder once it is booted",
    ),
    (
        "run",
        "boot the folder, audit it, and run it with its console",
    ),
    (
        "trace",
        "the same, with a line for each step and each service",
    ),
    (
        "access",
        "tell what USER may do with each segment of the folder",
    ),
    (
        "procs",
        "audit the processes of FILE, and run their schedule",
    ),
    (
        "debug",
        "hold a session over the bare image FILE, or over the folder",
    ),
    (
        "alm",
        "assemble NAME.alm, write the object NAME, and list it",
    ),
    (
        "bind",
        "bind what NAME.bind names, write the object NAME, and print it",
    ),
    ("print", "print the object NAME"),
    (
        "make",
        "write the folder that SEED makes, boot it, audit it, and run it",
    ),
];

/// The form of the command line.
const USAGE: &str = "m36 COMMAND [FILE | NAME | USER | SEED] [OPTIONS]";

/// The text after the options: how a call ends, and examples.
const AFTER_OPTIONS: &str = "Statuses:
  0  Done         written whole; a run came to DIS, an audit alone passes
  1  Usage        the words are no command
  2  ReadFault    a file or the input can't be read
  3  WriteFault   the output or a file can't be written
  4  BadFile      a file is absent or refused, with its code and place
  5  AuditNo      the audit fails, so nothing is run
  6  MachineStop  the run ends by a fault, a stop, or a refused service
  7  Steps        the limit of steps is met
  8  NoMemory     no memory is found

Examples:
  m36 bare least
  m36 trace --steps 50 --user=Smith.Demo.a
";

// Adds the options `--steps`, `--unaudited` and `--user` to the description.
fn with_options(alloc: Global, program: Command<'static>) -> Result<Command<'static>, AllocError> {
    let steps = Arg::new(alloc, "steps").long("steps").value_name("N").help(
        "bare, run, trace: at most N steps, up to 10000000 [default: 100000]",
    );
    let unaudited = Arg::new(alloc, "unaudited")
        .long("unaudited")
        .action(ArgAction::SetTrue)
        .help("these, and procs: run though the audit fails");
    let user = Arg::new(alloc, "user")
        .long("user")
        .value_name("USER")
        .help("run, trace, audit of the folder: with the rights of USER");
    program.arg(steps)?.arg(unaudited)?.arg(user)
}

// The description of the command line, from which `clap` renders the help.
fn command_line_description(alloc: Global) -> Result<Command<'static>, AllocError> {
    let mut program = Command::new(alloc, "m36")
        .about("Simulate the Honeywell 6180 of Multics, in the current folder")
        .override_usage(USAGE)
        .after_help(AFTER_OPTIONS)
        .disable_help_flag(true)
        .disable_help_subcommand(true);
    for (name, line) in COMMANDS {
        program = program.subcommand(Command::new(alloc, name).about(line))?;
    }
    with_options(alloc, program)
}

/// The text of the help, with a line feed at its end. Fails only with `NoMemory`.
pub fn help(alloc: Global) -> Result<Text, NoMemory> {
    let mut program = command_line_description(alloc)?;
    let text = program.render_help()?;
    Text::from_bytes(alloc, text.as_str().as_bytes())
}
