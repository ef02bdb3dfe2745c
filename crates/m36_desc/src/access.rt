//! The rights that a segment descriptor gives to a reference.

ghost use Rattle.std.specs.Prelude.{◌≡◌, ◌<◌, ◌^◌, IfOk, []};
ghost use Rattle.m36_desc.specs.Access.{first_violation, unless_violation, ordered_rows, read_rows};
ghost use Rattle.m36_desc.specs.Access.{write_rows};
ghost use Rattle.m36_desc.specs.Access.{fetch_rows, transfer_rows, call_rows, ring_after_call};

use crate::sdw::Sdw;

/// An access violation, by its number from 0 to 15. `specs/Violations.antt` has the names.
#[derive(Clone, Copy, PartialEq, Eq)]
pub struct Acv(pub u8);

/// Checks that a word may be read in ring `trr`. `same` says that the segment is the one that the
/// processor executes; it needs no R bit to read itself.
#[inline(always)]
pub fn may_read(s: &Sdw, trr: u8, same: bool) -> Result<(), Acv>
    ensures { result ≡ unless_violation tt (first_violation (read_rows s.now trr same)) }
{
    check_bracket_order(s)?;
    if s.r2 < trr {
        return Err(Acv(3));
    }
    if !s.readable && !same {
        return Err(Acv(4));
    }
    Ok(())
}

/// Checks that a word may be written in ring `trr`.
#[inline(always)]
pub fn may_write(s: &Sdw, trr: u8) -> Result<(), Acv>
    ensures { result ≡ unless_violation tt (first_violation (write_rows s.now trr)) }
{
    check_bracket_order(s)?;
    if s.r1 < trr {
        return Err(Acv(5));
    }
    if !s.writable {
        return Err(Acv(6));
    }
    Ok(())
}

/// Checks that an instruction may be fetched in ring `prr`.
#[inline(always)]
pub fn may_fetch(s: &Sdw, prr: u8) -> Result<(), Acv>
    ensures { result ≡ unless_violation tt (first_violation (fetch_rows s.now prr)) }
{
    check_bracket_order(s)?;
    if prr < s.r1 || s.r2 < prr {
        return Err(Acv(1));
    }
    if !s.executable {
        return Err(Acv(2));
    }
    Ok(())
}

/// Checks that a transfer may go to the segment. `trr` is the ring of the reference, `prr` the ring
/// of execution; a transfer must not change the ring.
#[inline(always)]
pub fn may_transfer(s: &Sdw, trr: u8, prr: u8) -> Result<(), Acv>
    ensures { result ≡ unless_violation tt (first_violation (transfer_rows s.now trr prr)) }
{
    may_fetch(s, trr)?;
    if trr != prr {
        return Err(Acv(12));
    }
    Ok(())
}

/// The ring in which execution continues after a call to word `word`, or the access violation.
/// `trr` is the ring of the reference, `prr` the ring of execution. `same` says that the segment is
/// the one that the processor executes; it may call itself at any word.
#[inline]
pub fn call_ring(s: &Sdw, trr: u8, prr: u8, same: bool, word: u32) -> Result<u8, Acv>
    ensures answer { result
        ≡ unless_violation (ring_after_call s.now trr)
        (first_violation (call_rows s.now trr prr same word)) }
    ensures ring { IfOk result (λ ring. ring < 2 ^ 3) }
{
    check_bracket_order(s)?;
    if !s.executable {
        return Err(Acv(2));
    }
    if !s.no_gate && !same && word >= s.limit as u32 {
        return Err(Acv(7));
    }
    if s.r3 < trr {
        return Err(Acv(8));
    }
    if trr < s.r1 {
        return Err(Acv(9));
    }
    if prr < trr && prr < s.r2 {
        return Err(Acv(10));
    }
    Ok(trr.min(s.r2))
}

// Checks that R1 <= R2 <= R3. If not, each reference to the segment is refused, whatever its kind.
#[inline(always)]
fn check_bracket_order(s: &Sdw) -> Result<(), Acv>
    ensures { result ≡ unless_violation tt (first_violation (ordered_rows s.now [])) }
{
    if s.r1 <= s.r2 && s.r2 <= s.r3 {
        Ok(())
    } else {
        Err(Acv(0))
    }
}
