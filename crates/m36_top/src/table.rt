//! The table of commands: what each command word makes of the operand and the options.

ghost use Rattle.std.specs.Prelude.{◌≡◌};
ghost use Rattle.m36_top.specs.Words.{file_given, user_given, bare, has_no_run_option};
ghost use Rattle.m36_top.specs.Words.{has_no_option, audit_command, audit, folder_run, run, trace};
ghost use Rattle.m36_top.specs.Words.{procs, access, print, alm_command, alm, bind_command, bind};
ghost use Rattle.m36_top.specs.Words.{debug_command, debug, seed_of, make, commands, command_in};

use crate::command::Command;
use crate::names::{Operand, bindfile_of, source_of};
use crate::words::Given;
use cmd_folder::{FolderCommand, FolderRun};
use cmd_image::BareRun;
use cmd_tools::{AlmFiles, BindFiles};
use m36_acl::User;
use m36_text::{Name, short_decimal_in};

/// The most steps of a run without `--steps`.
const DEFAULT_STEPS: u32 = 100000;

/// The most characters of NAME of `alm` and `bind`: with `.bind` it is a name of at most 32.
const LONGEST_MADE_NAME: usize = 27;

/// The most digits of a seed.
const MOST_SEED_DIGITS: usize = 18;

/// The greatest seed.
const MOST_SEED: u64 = 999_999_999_999_999_999;

// The operand as the name of a file; None if there is no operand or it is no such name.
fn file_given(given: Given) -> Option<Name>
    ensures { result ≡ file_given given }
{
    given.operand?.file
}

// The operand as a user; None if there is no operand or it is no user.
fn user_given(given: Given) -> Option<User>
    ensures { result ≡ user_given given }
{
    given.operand?.user
}

// `bare FILE`
fn bare(given: Given) -> Option<Command>
    ensures { result ≡ bare given }
{
    if given.user.is_some() {
        return None;
    }
    let run = BareRun {
        steps: given.steps.unwrap_or(DEFAULT_STEPS),
        unaudited: given.unaudited,
    };
    Some(Command::Bare(file_given(given)?, run))
}

// Whether neither `--steps` nor `--unaudited` is given.
fn has_no_run_option(given: &Given) -> bool
    ensures { result ≡ has_no_run_option given.now }
{
    given.steps.is_none() && !given.unaudited
}

// Whether no option is given.
fn has_no_option(given: &Given) -> bool
    ensures { result ≡ has_no_option given.now }
{
    has_no_run_option(given) && given.user.is_none()
}

// `audit FILE`, which takes no user, or `audit` of the folder.
fn audit_command(operand: Option<Operand>, user: Option<User>) -> Option<Command>
    ensures { result ≡ audit_command operand user }
{
    match operand {
        None => Some(Command::Booted(FolderCommand::Audit, user)),
        Some(operand) => {
            if user.is_some() {
                return None;
            }
            Some(Command::Audit(operand.file?))
        }
    }
}

// `audit`, `audit FILE`
fn audit(given: Given) -> Option<Command>
    ensures { result ≡ audit given }
{
    if has_no_run_option(&given) {
        audit_command(given.operand, given.user)
    } else {
        None
    }
}

// The limit of steps, and whether the audit may fail, of `run` and `trace`.
fn folder_run(given: &Given) -> FolderRun
    ensures { result ≡ folder_run given.now }
{
    FolderRun {
        steps: given.steps.unwrap_or(DEFAULT_STEPS),
        unaudited: given.unaudited,
    }
}

// `run`
fn run(given: Given) -> Option<Command>
    ensures { result ≡ run given }
{
    if given.operand.is_none() {
        let run = folder_run(&given);
        Some(Command::Booted(FolderCommand::Run(run), given.user))
    } else {
        None
    }
}

// `trace`
fn trace(given: Given) -> Option<Command>
    ensures { result ≡ trace given }
{
    if given.operand.is_none() {
        let run = folder_run(&given);
        Some(Command::Booted(FolderCommand::Trace(run), given.user))
    } else {
        None
    }
}

// `procs FILE`
fn procs(given: Given) -> Option<Command>
    ensures { result ≡ procs given }
{
    if given.steps.is_none() && given.user.is_none() {
        let unaudited = given.unaudited;
        Some(Command::Procs(file_given(given)?, unaudited))
    } else {
        None
    }
}

// `access USER`
fn access(given: Given) -> Option<Command>
    ensures { result ≡ access given }
{
    if has_no_option(&given) {
        Some(Command::Access(user_given(given)?))
    } else {
        None
    }
}

// `print NAME`
fn print(given: Given) -> Option<Command>
    ensures { result ≡ print given }
{
    if has_no_option(&given) {
        Some(Command::Print(file_given(given)?))
    } else {
        None
    }
}

// The command `alm` for an object of this name; None if the name is too long for a suffix.
fn alm_command(object: Name) -> Option<Command>
    ensures { result ≡ alm_command object }
{
    if object.bytes().len() > LONGEST_MADE_NAME {
        return None;
    }
    let source = source_of(object.bytes())?;
    Some(Command::Alm(AlmFiles { source, object }))
}

// `alm NAME`
fn alm(given: Given) -> Option<Command>
    ensures { result ≡ alm given }
{
    if has_no_option(&given) {
        alm_command(file_given(given)?)
    } else {
        None
    }
}

// The command `bind` for an object of this name; None if the name is too long for `.bind`.
fn bind_command(object: Name) -> Option<Command>
    ensures { result ≡ bind_command object }
{
    if object.bytes().len() > LONGEST_MADE_NAME {
        return None;
    }
    let bindfile = bindfile_of(object.bytes())?;
    Some(Command::Bind(BindFiles { bindfile, object }))
}

// `bind NAME`
fn bind(given: Given) -> Option<Command>
    ensures { result ≡ bind given }
{
    if has_no_option(&given) {
        bind_command(file_given(given)?)
    } else {
        None
    }
}

// `debug FILE`, or `debug` of the folder.
fn debug_command(operand: Option<Operand>) -> Option<Command>
    ensures { result ≡ debug_command operand }
{
    match operand {
        None => Some(Command::DebugFolder),
        Some(operand) => Some(Command::DebugImage(operand.file?)),
    }
}

// `debug`, `debug FILE`
fn debug(given: Given) -> Option<Command>
    ensures { result ≡ debug given }
{
    if has_no_option(&given) {
        debug_command(given.operand)
    } else {
        None
    }
}

// The seed of 1 to 18 decimal digits; None if the text is not of this form.
fn seed_of(text: &[u8]) -> Option<u64>
    ensures { result ≡ seed_of text.now }
{
    short_decimal_in(text, MOST_SEED_DIGITS, 0, MOST_SEED)
}

// `make SEED`
fn make(given: Given) -> Option<Command>
    ensures { result ≡ make given }
{
    if has_no_option(&given) {
        let seed = file_given(given)?;
        Some(Command::Make(seed_of(seed.bytes())?))
    } else {
        None
    }
}

/// The command that a command word makes of what follows it; None if there is no such word, or if
/// the command does not take this operand and these options.
pub(crate) fn command_in(word: &[u8], given: Given) -> Option<Command>
    ensures { result ≡ command_in commands word.now given }
{
    if word == b"bare".as_slice() {
        return bare(given);
    }
    if word == b"audit".as_slice() {
        return audit(given);
    }
    if word == b"run".as_slice() {
        return run(given);
    }
    if word == b"trace".as_slice() {
        return trace(given);
    }
    if word == b"procs".as_slice() {
        return procs(given);
    }
    if word == b"access".as_slice() {
        return access(given);
    }
    if word == b"print".as_slice() {
        return print(given);
    }
    if word == b"alm".as_slice() {
        return alm(given);
    }
    if word == b"bind".as_slice() {
        return bind(given);
    }
    if word == b"debug".as_slice() {
        return debug(given);
    }
    if word == b"make".as_slice() {
        return make(given);
    }
    None
}
