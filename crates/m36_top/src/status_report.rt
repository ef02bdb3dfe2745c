//! The line that reports how a call ended.

ghost use Rattle.std.specs.Prelude.{◌≡◌, IfOk};
ghost use Rattle.m36_top.specs.StatusLine.{bad_file_details, status_details, status_line};
ghost use Rattle.m36_top.specs.StatusLine.{report_of};

use m36_outside::Text;
use m36_status::{Bad, Status};
use m36_text::decimal;
use m36_word::NoMemory;
use std::alloc::Global;

// The name of the file, the code, the place and the column, each after a blank.
fn bad_file_details(alloc: Global, bad: &Bad) -> Result<Text, NoMemory>
    ensures { IfOk result (λ text. text ≡ bad_file_details bad.now) }
{
    let mut text = Text::from_bytes(alloc, b" ")?;
    text.append(bad.name.bytes())?;
    text.append(b" ")?;
    text.append(bad.code.name().as_bytes())?;
    text.append(b" ")?;
    text.append(decimal(bad.at as u64).as_str().as_bytes())?;
    text.append(b" ")?;
    text.append(decimal(bad.column as u64).as_str().as_bytes())?;
    Ok(text)
}

// What follows the name of a status in its line: of BadFile the refusal, of the others nothing.
fn status_details(alloc: Global, status: &Status) -> Result<Text, NoMemory>
    ensures { IfOk result (λ text. text ≡ status_details status.now) }
{
    match status {
        Status::BadFile(bad) => bad_file_details(alloc, bad),
        Status::Done
        | Status::Usage
        | Status::ReadFault
        | Status::WriteFault
        | Status::AuditNo
        | Status::MachineStop(_)
        | Status::Steps
        | Status::NoMemory => Ok(Text::new(alloc)),
    }
}

/// The line of a status, with its line feed: `m36: ` and the name of the status; after BadFile the
/// name of the file, the code, the place and the column. Fails only with `NoMemory`.
fn status_line(alloc: Global, status: &Status) -> Result<Text, NoMemory>
    ensures { IfOk result (λ line. line ≡ status_line status.now) }
{
    let details = status_details(alloc, status)?;
    let mut line = Text::from_bytes(alloc, b"m36: ")?;
    line.append(status.name().as_bytes())?;
    line.append(details.bytes())?;
    line.append(b"\n")?;
    Ok(line)
}

/// What the program prints to standard error: the line of the status, or nothing if it is Done.
/// Fails only with `NoMemory`.
pub fn report(alloc: Global, status: &Status) -> Result<Text, NoMemory>
    ensures { IfOk result (λ text. text ≡ report_of status.now) }
{
    match status {
        Status::Done => Ok(Text::new(alloc)),
        Status::Usage
        | Status::ReadFault
        | Status::WriteFault
        | Status::BadFile(_)
        | Status::AuditNo
        | Status::MachineStop(_)
        | Status::Steps
        | Status::NoMemory => status_line(alloc, status),
    }
}
