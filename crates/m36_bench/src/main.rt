//! The program `m36_bench`: how many steps the machine takes in a second.
//!
//! It lays two loops into core, a simple one of six instructions and a mixed one of fourteen, each
//! in an unpaged segment and in a paged one. It takes steps of a loop in three ways: with records
//! only; with trace lines, which are made in a block and counted but not written; and as quiet
//! steps, of which no record is made. It prints a line for each run.
//!
//! Words of the command line:
//!
//! - `mixed`: only the mixed loop;
//! - `quiet`: only quiet steps;
//! - any other word: the number of steps, in decimal. The last such word counts.
//!
//! With a number it runs one loop, the simple one unless `mixed` is given, with quiet steps only if
//! `quiet` is given, and each line has the steps per second. Without a number it takes 1,000 steps
//! in each run and prints no speed, so it prints the same every time.
#![tactic(auto)]

mod image;
mod lines;
mod running;

use image::{Loop, loop_count, machine};
use m36_step::Machine;
use running::{StepCount, take_quiet_steps, take_recorded_steps, take_steps_with_lines};
use std::io::Print;
use std::rt::{Clock, Env};
use std::time::Instant;
use std::{env, io};

/// What the words ask for: the number of steps, None if the last word other than `mixed` and
/// `quiet` is not a number; the mixed loop; and quiet steps.
#[derive(Clone, Copy)]
struct Asked {
    steps: Option<u64>,
    mixed: bool,
    quiet: bool,
}

/// What is asked for with one more word.
fn with_word(asked: Asked, word: &str) -> Asked {
    if word == "mixed" {
        Asked {
            mixed: true,
            ..asked
        }
    } else if word == "quiet" {
        Asked {
            quiet: true,
            ..asked
        }
    } else {
        Asked {
            steps: word.parse::<u64>().ok(),
            ..asked
        }
    }
}

/// Reads what the words after the program's name ask for.
fn read_words(rt: &(impl Env + AllocGlobal)) -> io::Result<Asked> {
    let mut asked = Asked {
        steps: None,
        mixed: false,
        quiet: false,
    };
    for arg in env::args(rt)?.skip(1) {
        asked = with_word(asked, arg.as_str());
    }
    Ok(asked)
}

/// What is made of each step: a record, its trace line, or nothing (quiet steps).
#[derive(Clone, Copy)]
enum Output {
    Record,
    Line,
    Nothing,
}

/// A run: the number of steps that is asked for, the loop, the kind of its segment, and what is
/// made of each step.
#[derive(Clone, Copy)]
struct Run {
    asked: Option<u64>,
    chosen: Loop,
    paged: bool,
    made: Output,
}

/// The result of a run: the steps that were taken and the bytes of their lines, how often the loop
/// has run, and the time.
#[derive(Clone, Copy)]
struct RunResult {
    taken: StepCount,
    turns: u64,
    nanoseconds: u128,
}

/// Takes the steps of a run, 1,000 if no number is asked for, in the way that it asks for.
fn take_steps(machine: &mut Machine, run: Run) -> StepCount {
    let steps = run.asked.unwrap_or(1000);
    match run.made {
        Output::Record => take_recorded_steps(machine, steps),
        Output::Line => take_steps_with_lines(machine, steps),
        Output::Nothing => take_quiet_steps(machine, steps),
    }
}

/// Takes the steps of a run, and measures the time.
fn measure_steps(rt: &impl Clock, machine: &mut Machine, run: Run) -> io::Result<RunResult> {
    let start = Instant::now(rt)?;
    let taken = take_steps(machine, run);
    let nanoseconds = start.elapsed(rt)?.as_nanos();
    let turns = loop_count(machine, run.chosen);
    Ok(RunResult {
        taken,
        turns,
        nanoseconds,
    })
}

/// Prints the loop, the kind of its segment, the number of steps, and how often the loop has run.
fn print_steps(rt: &(impl Print + AllocGlobal), run: Run, went: RunResult) -> io::Result<()> {
    let mixed = match run.chosen {
        Loop::Simple => "",
        Loop::Mixed => "mixed, ",
    };
    let quiet = match run.made {
        Output::Nothing => "quiet, ",
        _ => "",
    };
    let name = if run.paged { "paged" } else { "unpaged" };
    let steps = went.taken.steps;
    let turns = went.turns;
    print!(rt; "{mixed}{quiet}{name}: {steps} steps, counted {turns}")
}

/// Prints the length of the trace lines, if they are made.
fn print_lines(rt: &(impl Print + AllocGlobal), run: Run, went: RunResult) -> io::Result<()> {
    match run.made {
        Output::Line => {
            let bytes = went.taken.bytes;
            print!(rt; ", lines of {bytes} bytes")
        }
        _ => Ok(()),
    }
}

/// The steps per second, rounded down. A time of 0 counts as one nanosecond.
fn rate(steps: u64, nanoseconds: u128) -> u64 {
    let whole = steps as u128 * 1_000_000_000 / nanoseconds.max(1);
    u64::try_from(whole).unwrap_or(u64::MAX)
}

/// Prints the steps per second, if a number of steps is asked for, and ends the line.
fn print_rate(rt: &(impl Print + AllocGlobal), run: Run, went: RunResult) -> io::Result<()> {
    if run.asked.is_some() {
        let rate = rate(went.taken.steps, went.nanoseconds);
        println!(rt; ", {rate} steps a second")
    } else {
        println!(rt; "")
    }
}

/// Prints the line of a run.
fn print_run(rt: &(impl Print + AllocGlobal), run: Run, went: RunResult) -> io::Result<()> {
    print_steps(rt, run, went)?;
    print_lines(rt, run, went)?;
    print_rate(rt, run, went)
}

/// Takes the steps of a run, and prints its line.
fn report<R: Print + Clock + AllocGlobal>(rt: &R, run: Run) -> io::Result<()> {
    match machine(rt.alloc(), run.paged, run.chosen) {
        Ok(mut machine) => {
            let went = measure_steps(rt, &mut machine, run);
            // Dropped by a call, so the drop is proved once for its type.
            drop(machine);
            print_run(rt, run, went?)
        }
        Err(_) => println!(rt; "no memory was found"),
    }
}

/// Takes steps of a loop in both kinds of segments, with and without trace lines, and prints a line
/// for each run.
fn run_with_records<R: Print + Clock + AllocGlobal>(
    rt: &R,
    asked: Option<u64>,
    chosen: Loop,
) -> io::Result<()> {
    for (paged, made) in [
        (false, Output::Record),
        (false, Output::Line),
        (true, Output::Record),
        (true, Output::Line),
    ] {
        let run = Run {
            asked,
            chosen,
            paged,
            made,
        };
        report(rt, run)?;
    }
    Ok(())
}

/// Takes quiet steps of a loop in both kinds of segments, and prints a line for each run.
fn run_quietly_and_print<R: Print + Clock + AllocGlobal>(
    rt: &R,
    asked: Option<u64>,
    chosen: Loop,
) -> io::Result<()> {
    for paged in [false, true] {
        let run = Run {
            asked,
            chosen,
            paged,
            made: Output::Nothing,
        };
        report(rt, run)?;
    }
    Ok(())
}

/// Takes the steps of a loop in each way that is asked for, and prints a line for each run.
fn run_loop<R: Print + Clock + AllocGlobal>(rt: &R, asked: Asked, chosen: Loop) -> io::Result<()> {
    if !asked.quiet {
        run_with_records(rt, asked.steps, chosen)?;
    }
    if asked.quiet || asked.steps.is_none() {
        run_quietly_and_print(rt, asked.steps, chosen)?;
    }
    Ok(())
}

// Runs the simple loop, the mixed loop, or both, as the words ask.
fn main(rt: HostRuntime) -> io::Result<()> {
    let asked = read_words(&rt)?;
    if !asked.mixed {
        run_loop(&rt, asked, Loop::Simple)?;
    }
    if asked.mixed || asked.steps.is_none() {
        run_loop(&rt, asked, Loop::Mixed)?;
    }
    Ok(())
}
