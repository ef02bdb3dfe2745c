//! How a command ended, and why a file is refused.

ghost use Rattle.std.specs.Prelude.{◌≡◌};

use m36_model::End;
use m36_outside::Text;

/// Why a file was refused.
#[derive(Clone, Copy, PartialEq, Eq)]
pub enum Code {
    /// The file is absent.
    F1,
    /// The file is too large.
    F2,
    /// The file unpacks into more than 2^18 words.
    F3,
    /// No whole number of words packs into this count of bytes.
    T3,
    /// The last four bits, after the last word, are not zero.
    T4,
    /// The standard input, named `stdin`, is longer than a session may be.
    S1,
    /// A line of a bare image that is not of its form, or is missing.
    I1,
    /// A number of frames out of range.
    I2,
    /// Core words at a place that is not above every earlier one, or outside core.
    I3,
    /// A text of processes: a line not of its form, out of order or missing, an N or an address
    /// against its rule, or too many events.
    P1,
    /// A text of processes names a process by a number that no process has.
    P2,
    /// A line of a boot text that is not of its form, or out of its order.
    D1,
    /// A name that the directory already has.
    D2,
    /// A working directory or a library that has no segment.
    D3,
    /// Ring brackets that are not in order, or a gate that may not be executed or is called from no
    /// outer ring.
    D4,
    /// Too many segments, further names of one, or libraries.
    D5,
    /// A boot text that ends without a start.
    D6,
    /// A line of access lists that is not of its form, a term with no segment above it, or one term
    /// too many.
    C1,
    /// A segment that access lists have twice, or a term that one segment has twice.
    C2,
    /// A segment of access lists that the boot text does not have.
    C3,
    /// There are fewer than 24 pageable frames.
    U1,
    /// A gate without entries, or with more than 16,383.
    U2,
    /// The start is not found, lacks its entry, may not be executed in its ring, or its linkage
    /// section is too long.
    U3,
    /// A gate, or the segment of the start, that is no object.
    U4,
    /// There are fewer than seven words; the count.
    O1,
    /// The map is not where the last word says, or a word of it is not as it must be.
    O2,
    /// A section ends past the map or is too short; its map word.
    O3,
    /// Two sections share a word; the first such word.
    O4,
    /// A definition, or the table of definitions or expressions, is not as it must be.
    O5,
    /// A name is not as it must be.
    O6,
    /// A link or the linkage section is not as it must be.
    O7,
    /// Anything else is not the one spelling of an object.
    O8,
    /// A byte that no source may have there.
    E1,
    /// A label or an operand that is not of its form; or an operation that lacks its operand, or
    /// has one that it may not have.
    E2,
    /// An operation that does not exist.
    E3,
    /// A number out of its range.
    E4,
    /// A symbol, or a name of a definition, that is defined a second time.
    E5,
    /// A symbol that is not defined.
    E6,
    /// A value that does not fit its field, or something that no object can express: an expression,
    /// a link out of reach, words in a section that may not have them, or a name of a definition
    /// that is no such label.
    E7,
    /// A section, or an object, that grows too long.
    E8,
    /// A line of a bind file that is not of its form, or not in its order.
    B1,
    /// An object that is not among those that were read.
    B2,
    /// A name that the bind file has twice, or that two objects define.
    B3,
    /// A bound object that is too large, or a part of a word that does not fit where it goes.
    B4,
    /// A name that no object defines.
    B5,
}

/// A refused file.
#[derive(Drop)]
pub struct Bad {
    /// The file's name.
    pub name: Text,
    pub code: Code,
    /// What the code is about, by the file and the code:
    ///
    /// - an image, a text of processes, a source, a bind file, a boot text, access lists: the line,
    ///   counted from 1;
    /// - T3: the count of the bytes; T4: the place of the last byte;
    /// - an object: the place of a word, counted from 0; O1: the count of the words;
    /// - U2 and U4: the number of the segment;
    /// - B4, U1, U3, the standard input, and a file as a whole: 0.
    pub at: u32,
    /// The column of a source, in bytes counted from 1; 0 for every other file.
    pub column: u32,
}

/// How a command ended.
#[derive(Drop)]
pub enum Status {
    /// The files and the output are written whole. The run ended with DIS, or reached the end of
    /// its schedule; or what was only audited passes; or nothing was to be run or audited; or a
    /// session reached `quit` or the end of its input.
    Done,
    /// The words are no command. Nothing was read or written.
    Usage,
    /// A file could not be read, and nothing is written; or the input of a session could not, and
    /// the answers up to there are printed.
    ReadFault,
    /// The output could not be written, and a first part of it is printed; or a file could not, and
    /// nothing is printed.
    WriteFault,
    /// A file is refused, and nothing is written or printed. Exceptions: with S1 the answers of the
    /// session before it are printed; and `make` has written its files if the folder that they are
    /// is refused.
    BadFile(Bad),
    /// The audit fails, and nothing is run. What it finds is printed whole.
    AuditNo,
    /// The run ended with a fault or a stop other than DIS, or a link or console service was
    /// refused.
    MachineStop(End),
    /// The run used up its limit of steps and did not end.
    Steps,
    /// Memory ran out. Nothing is written or printed, unless it ran out in the write of a file,
    /// after the files of `make`, in a link service of a booted run, or in a session: then
    /// everything before is written and printed.
    NoMemory,
}

impl Code {
    ghost use Rattle.m36_status.specs.Names.{code_name};

    /// The name of the code, as it is printed.
    pub fn name(self) -> &'static str
        ensures { result.now ≡ code_name self }
    {
        match self {
            Code::F1 => "F1",
            Code::F2 => "F2",
            Code::F3 => "F3",
            Code::T3 => "T3",
            Code::T4 => "T4",
            Code::S1 => "S1",
            Code::I1 => "I1",
            Code::I2 => "I2",
            Code::I3 => "I3",
            Code::P1 => "P1",
            Code::P2 => "P2",
            Code::D1 => "D1",
            Code::D2 => "D2",
            Code::D3 => "D3",
            Code::D4 => "D4",
            Code::D5 => "D5",
            Code::D6 => "D6",
            Code::C1 => "C1",
            Code::C2 => "C2",
            Code::C3 => "C3",
            Code::U1 => "U1",
            Code::U2 => "U2",
            Code::U3 => "U3",
            Code::U4 => "U4",
            Code::O1 => "O1",
            Code::O2 => "O2",
            Code::O3 => "O3",
            Code::O4 => "O4",
            Code::O5 => "O5",
            Code::O6 => "O6",
            Code::O7 => "O7",
            Code::O8 => "O8",
            Code::E1 => "E1",
            Code::E2 => "E2",
            Code::E3 => "E3",
            Code::E4 => "E4",
            Code::E5 => "E5",
            Code::E6 => "E6",
            Code::E7 => "E7",
            Code::E8 => "E8",
            Code::B1 => "B1",
            Code::B2 => "B2",
            Code::B3 => "B3",
            Code::B4 => "B4",
            Code::B5 => "B5",
        }
    }
}

impl Status {
    ghost use Rattle.m36_status.specs.Names.{status_name, status_number};

    /// The name of the status, as it is printed.
    pub fn name(&self) -> &'static str
        ensures { result.now ≡ status_name self.now }
    {
        match self {
            Status::Done => "Done",
            Status::Usage => "Usage",
            Status::ReadFault => "ReadFault",
            Status::WriteFault => "WriteFault",
            Status::BadFile(_) => "BadFile",
            Status::AuditNo => "AuditNo",
            Status::MachineStop(_) => "MachineStop",
            Status::Steps => "Steps",
            Status::NoMemory => "NoMemory",
        }
    }

    /// The number of the status, with which the program ends.
    pub fn number(&self) -> u8
        ensures { result ≡ status_number self.now }
    {
        match self {
            Status::Done => 0,
            Status::Usage => 1,
            Status::ReadFault => 2,
            Status::WriteFault => 3,
            Status::BadFile(_) => 4,
            Status::AuditNo => 5,
            Status::MachineStop(_) => 6,
            Status::Steps => 7,
            Status::NoMemory => 8,
        }
    }
}
