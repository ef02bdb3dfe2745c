//! Boolean operations on numbers of a register's width.

ghost use Rattle.std.specs.Prelude.{◌≡◌, ◌*◌, ◌<◌};
ghost use Rattle.m36_model.specs.Booleans.{and_of, or_of, xor_of, and_not_of};
ghost use Rattle.m36_model.specs.Results.{half, width};
ghost use Rattle.m36_xdata.specs.Registers.{working_of};

use crate::numbers::{pair, word};
use crate::registers::Register;
use m36_arith::{
    and_not18, and_not36, and_not72, and18, and36, and72, or18, or36, or72, xor18, xor36, xor72,
};

/// The bits that are 1 in both numbers.
pub fn and_bits(r: Register, x: u128, y: u128) -> u128
    requires first { x < 2 * half (working_of r) }
    requires second { y < 2 * half (working_of r) }
    ensures value { result ≡ and_of (width (working_of r)) x y }
    ensures bound { result < 2 * half (working_of r) }
{
    match r {
        Register::A | Register::Q => and36(word(x), word(y)).value() as u128,
        Register::Aq => and72(pair(x), pair(y)).value(),
        Register::X(_) => and18(x as u32, y as u32) as u128,
    }
}

/// The bits that are 1 in either number.
pub fn or_bits(r: Register, x: u128, y: u128) -> u128
    requires first { x < 2 * half (working_of r) }
    requires second { y < 2 * half (working_of r) }
    ensures value { result ≡ or_of (width (working_of r)) x y }
    ensures bound { result < 2 * half (working_of r) }
{
    match r {
        Register::A | Register::Q => or36(word(x), word(y)).value() as u128,
        Register::Aq => or72(pair(x), pair(y)).value(),
        Register::X(_) => or18(x as u32, y as u32) as u128,
    }
}

/// The bits in which the two numbers differ.
pub fn xor_bits(r: Register, x: u128, y: u128) -> u128
    requires first { x < 2 * half (working_of r) }
    requires second { y < 2 * half (working_of r) }
    ensures value { result ≡ xor_of (width (working_of r)) x y }
    ensures bound { result < 2 * half (working_of r) }
{
    match r {
        Register::A | Register::Q => xor36(word(x), word(y)).value() as u128,
        Register::Aq => xor72(pair(x), pair(y)).value(),
        Register::X(_) => xor18(x as u32, y as u32) as u128,
    }
}

/// The bits that are 1 in the first number and 0 in the second.
pub fn and_not_bits(r: Register, x: u128, y: u128) -> u128
    requires first { x < 2 * half (working_of r) }
    requires second { y < 2 * half (working_of r) }
    ensures value { result ≡ and_not_of (width (working_of r)) x y }
    ensures bound { result < 2 * half (working_of r) }
{
    match r {
        Register::A | Register::Q => and_not36(word(x), word(y)).value() as u128,
        Register::Aq => and_not72(pair(x), pair(y)).value(),
        Register::X(_) => and_not18(x as u32, y as u32) as u128,
    }
}
