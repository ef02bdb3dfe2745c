//! The registers of data instructions, as numbers of their widths.

ghost use Rattle.std.specs.Prelude.{◌≡◌, ◌*◌, ◌^◌, ◌<◌};
ghost use Rattle.m36_model.specs.Results.{half, value};
ghost use Rattle.m36_xdata.specs.Registers.{working_of, HasValidIndex};

use m36_fastpath::aq_pair;
use m36_model::{Ind, Regs};

/// A register: the accumulator, the quotient register, both as one number of 72 bits, or an index
/// register.
#[derive(Clone, Copy)]
pub enum Register {
    A,
    Q,
    Aq,
    /// The index register with this number, 0 to 7.
    X(u8),
}

/// The indicators of the registers.
pub fn indicators(regs: &Regs) -> Ind
    ensures { result ≡ regs.now.ind }
{
    regs.ind
}

/// The value of a register as a number.
pub fn number_in(r: Register, regs: &Regs) -> u128
    requires { HasValidIndex r }
    ensures value { result ≡ value (working_of r) regs.now }
    ensures bound { result < 2 * half (working_of r) }
{
    match r {
        Register::A => regs.a.value() as u128,
        Register::Q => regs.q.value() as u128,
        Register::Aq => aq_pair(regs).value(),
        Register::X(n) => regs.x[n as usize] as u128,
    }
}

/// Half of the range of a register's numbers: 2^35, 2^71 or 2^17. Numbers from there on are
/// negative.
pub fn half_of(r: Register) -> u128
    ensures { result ≡ half (working_of r) }
{
    match r {
        Register::A | Register::Q => 1 << 35,
        Register::Aq => 1 << 71,
        Register::X(_) => 1 << 17,
    }
}
