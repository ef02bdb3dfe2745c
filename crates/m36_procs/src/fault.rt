//! Why a text of processes is refused, and why a run ends early.

ghost use Rattle.std.specs.Prelude.{◌≡◌};
ghost use Rattle.m36_procs.specs.declared.fault.LineFault.TheVariants as line;
ghost use Rattle.m36_procs.specs.declared.fault.ProcsFault.TheVariants as fault;
ghost use Rattle.m36_procs.specs.ProcsResult.{fault_at, line_fault_at};

use m36_word::NoMemory;

/// The code of a refused line.
#[derive(Clone, Copy, PartialEq, Eq)]
pub enum ProcsCode {
    /// The line does not have its form, is out of order or missing, lacks its line feed, has a
    /// number or an address out of range, or makes too many events.
    P1,
    /// No process has a number in the line.
    P2,
}

/// Why a line was not accepted: it has a code, or memory ran out.
#[derive(Clone, Copy, PartialEq, Eq)]
pub(crate) enum LineFault {
    Refused(ProcsCode),
    NoMemory,
}

impl LineFault {
    /// The fault of the text, if this is the fault of line `line`.
    pub(crate) fn at(self, line: u32) -> ProcsFault
        ensures { result ≡ line_fault_at line self }
    {
        match self {
            LineFault::Refused(code) => ProcsFault::at(line, code),
            LineFault::NoMemory => ProcsFault::NoMemory,
        }
    }
}

impl From<ProcsCode> for LineFault {
    ghost from_gives = { λ code made. made ≡ line.Refused code };

    fn from(code: ProcsCode) -> LineFault {
        LineFault::Refused(code)
    }
}

impl From<NoMemory> for LineFault {
    ghost from_gives = { λ _ made. made ≡ line.NoMemory };

    fn from(_cause: NoMemory) -> LineFault {
        LineFault::NoMemory
    }
}

/// Why a text is refused: its first line that has a code, with the least code of that line. Lines
/// are counted from 1. A missing line has the number that it would have.
#[derive(Clone, Copy, PartialEq, Eq)]
pub enum ProcsFault {
    /// The line does not have its form, is out of order or missing, lacks its line feed, has a
    /// number or an address out of range, or makes more than 10,000,000 events.
    P1(u32),
    /// The line gives a turn to a number that no process has.
    P2(u32),
    /// Memory ran out.
    NoMemory,
}

impl ProcsFault {
    /// The fault with this code at a line.
    pub(crate) fn at(line: u32, code: ProcsCode) -> ProcsFault
        ensures { result ≡ fault_at (line, code) }
    {
        match code {
            ProcsCode::P1 => ProcsFault::P1(line),
            ProcsCode::P2 => ProcsFault::P2(line),
        }
    }
}

impl From<NoMemory> for ProcsFault {
    ghost from_gives = { λ _ made. made ≡ fault.NoMemory };

    fn from(_cause: NoMemory) -> ProcsFault {
        ProcsFault::NoMemory
    }
}

/// A line of a run could not be written.
#[derive(Clone, Copy, PartialEq, Eq)]
pub struct WriteFault;
