//! Why a source cannot be assembled.

ghost use Rattle.std.specs.Prelude.{◌≡◌, ◌-◌, ◌^◌, ◌<◌, ◌+◌};
ghost use Rattle.alm_parse.specs.Sources.{fault_with_code, fault_of};
ghost use Rattle.alm_parse.specs.declared.fault.AlmFault.TheVariants as fault;

use crate::refusal::{ParseCode, ParseRefusal};
use alm_tokens::rows::Row;
use m36_word::NoMemory;
use thiserror::Error;

/// Why a source cannot be assembled: a code with a line and a column, both counted from 1 and the
/// column in bytes, or `NoMemory`.
#[derive(Clone, Copy, Debug, PartialEq, Eq, Error)]
pub enum AlmFault {
    /// A byte that no source can have there.
    #[error("E1 {0} {1}")]
    E1(u32, u32),
    /// A label or an operand that does not have its form, or an operation that lacks its operand or
    /// must not have one.
    #[error("E2 {0} {1}")]
    E2(u32, u32),
    /// There is no such operation.
    #[error("E3 {0} {1}")]
    E3(u32, u32),
    /// A number that is out of its range.
    #[error("E4 {0} {1}")]
    E4(u32, u32),
    /// A symbol, or the name of a definition, that is defined a second time.
    #[error("E5 {0} {1}")]
    E5(u32, u32),
    /// A symbol that is not defined.
    #[error("E6 {0} {1}")]
    E6(u32, u32),
    /// A value that does not fit its field or that an object cannot express: an expression, a link
    /// out of reach, words in a section that must not have them, or the name of a definition that
    /// is not a suitable label.
    #[error("E7 {0} {1}")]
    E7(u32, u32),
    /// A section or an object that is too large.
    #[error("E8 {0} {1}")]
    E8(u32, u32),
    /// Out of memory.
    #[error("no memory")]
    NoMemory,
}

impl From<NoMemory> for AlmFault {
    ghost from_gives = { λ _ made. made ≡ fault.NoMemory };

    fn from(_cause: NoMemory) -> AlmFault {
        AlmFault::NoMemory
    }
}

// The fault with this code at a line and a column, both counted from 1.
fn fault_with_code(code: ParseCode, line: u32, column: u32) -> AlmFault
    ensures { result ≡ fault_with_code code line column }
{
    match code {
        ParseCode::E1 => AlmFault::E1(line, column),
        ParseCode::E2 => AlmFault::E2(line, column),
        ParseCode::E3 => AlmFault::E3(line, column),
        ParseCode::E4 => AlmFault::E4(line, column),
    }
}

/// The fault with the code of a refusal, at the number of its line and its column.
pub fn fault_of(row: Row, refusal: ParseRefusal) -> AlmFault
    requires { refusal.place < 2 ^ 32 - 1 }
    ensures { result ≡ fault_of row refusal }
{
    let column = refusal.place.saturating_sub(row.span.from) + 1;
    fault_with_code(refusal.code, row.number, column)
}
