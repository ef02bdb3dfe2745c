//! The table by operation code: sixteen blocks of 64 codes. Macros make their rows.

ghost use Rattle.std.specs.Prelude.{◌≡◌, ◌<◌, ◌*◌, true, false, option_map, IfSome};
ghost use Rattle.m36_inst.specs.Lookup.{row_at, name_at, IsRow};
ghost use Rattle.m36_inst.specs.Named.{named_row_at, block, text_of, IsPlain};

use crate::rows::Named;

/// One row of the table. Its line has the name padded to five characters, the effect, the register,
/// how the operand is referenced, and `direct` or `privileged` if it is. `_` is a code without an
/// instruction.
macro_rules! row {
    (_) => {
        None
    };
    (($name:literal $effect:ident $reg:literal $operand:ident)) => {
        row!($name $effect $reg $operand, false, false)
    };
    (($name:literal $effect:ident $reg:literal $operand:ident direct)) => {
        row!($name $effect $reg $operand, true, false)
    };
    (($name:literal $effect:ident $reg:literal $operand:ident privileged)) => {
        row!($name $effect $reg $operand, false, true)
    };
    ($name:literal $effect:ident $reg:literal $operand:ident, $direct:literal, $privileged:literal) => {
        Some(Named {
            row: Row {
                effect: Effect::$effect,
                operand: Operand::$operand,
                reg: $reg,
                direct: $direct,
                privileged: $privileged,
            },
            name: *$name,
        })
    };
}

/// The rows of 64 codes, in the order of the codes.
macro_rules! rows {
    ([$($entry:tt)*]) => {
        [$(row!($entry)),*]
    };
}

mod below_400;
mod bit_27;
mod from_400;
pub mod quick;

use below_400::{codes_000, codes_100, codes_200, codes_300};
use bit_27::{
    codes_000_on, codes_100_on, codes_200_on, codes_300_on, codes_400_on, codes_500_on,
    codes_600_on, codes_700_on,
};
use from_400::{codes_400, codes_500, codes_600, codes_700};

/// The row and the name of the instruction with this operation code and bit 27, or None if there is
/// no such instruction.
pub(crate) fn named_row(code: u16, bit27: bool) -> Option<Named>
    ensures row { option_map (λ n. n.row) result ≡ row_at code bit27 }
    ensures parts { IfSome result (λ n. IsRow n.row) }
    ensures name { option_map (λ n. text_of n.name) result ≡ name_at code bit27 }
    ensures plain { IfSome result (λ n. IsPlain (text_of n.name)) }
{
    named_row_in_block(code, bit27)
}

// The row and the name of an operation code with bit 27, from the block that has the code.
#[tactic(auto, using(crate::proofs::Blocks::in_block, crate::proofs::Entries::none_above))]
fn named_row_in_block(code: u16, bit27: bool) -> Option<Named>
    ensures { result ≡ named_row_at bit27 code }
{
    if code >= 512 {
        return None;
    }
    let block = if bit27 {
        block_on(code / 64)
    } else {
        block_off(code / 64)
    };
    block[(code % 64) as usize]
}

// The rows of the 64 codes that begin at 64 times `high`, with bit 27 off.
fn block_off(high: u16) -> &'static [Option<Named>; 64]
    requires { high < 8 }
    ensures { result.now ≡ block false (64 * high) }
{
    match high {
        0 => codes_000(),
        1 => codes_100(),
        2 => codes_200(),
        3 => codes_300(),
        4 => codes_400(),
        5 => codes_500(),
        6 => codes_600(),
        7 => codes_700(),
        _ => unreachable!(),
    }
}

// The rows of the 64 codes that begin at 64 times `high`, with bit 27 on.
fn block_on(high: u16) -> &'static [Option<Named>; 64]
    requires { high < 8 }
    ensures { result.now ≡ block true (64 * high) }
{
    match high {
        0 => codes_000_on(),
        1 => codes_100_on(),
        2 => codes_200_on(),
        3 => codes_300_on(),
        4 => codes_400_on(),
        5 => codes_500_on(),
        6 => codes_600_on(),
        7 => codes_700_on(),
        _ => unreachable!(),
    }
}
