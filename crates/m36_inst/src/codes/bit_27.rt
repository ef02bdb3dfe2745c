//! Operation codes with bit 27 on.

ghost use Rattle.std.specs.Prelude.{◌≡◌, true};
ghost use Rattle.m36_inst.specs.Named.{block};

use crate::effect::Effect;
use crate::operand::Operand;
use crate::rows::{Named, Row};

macro_rules! rows_000_on {
    ($make:ident $($with:tt)*) => {
        $make![$($with)* [
        // 000
        _ _ _ _ _ _ _ _
        // 010
        _ _ _ _ _ _ _ _
        // 020
        _ _ _ _ _ _ _ _
        // 030
        _ _ _ _ _ _ _ _
        // 040
        _ _ _ _ _ _ _ _
        // 050
        _ _ _ _ _ _ _ _
        // 060
        _ _ _ _ _ _ _ _
        // 070
        _ _ _ _ _ _ _ _
        ]]
    };
}

pub(super) use rows_000_on;

static ROWS_000_ON: [Option<Named>; 64] = rows_000_on!(rows);

/// The rows of codes 000 to 077 with bit 27 on.
pub(crate) fn codes_000_on() -> &'static [Option<Named>; 64]
    ensures { result.now ≡ block true 0o000 }
{
    &ROWS_000_ON
}

macro_rules! rows_100_on {
    ($make:ident $($with:tt)*) => {
        $make![$($with)* [
        // 100
        _ _ _ _ _ _ _ _
        // 110
        _ _ _ _ _ _ _ _
        // 120
        _ _ _ _ _ _ _ _
        // 130
        _ _ _ _ _ _ _ _
        // 140
        _ _ _ _ _ _ _ _
        // 150
        _ _ _ _ _ _ _ _
        // 160
        _ _ _ _ _ _ _ _
        // 170
        _ _ _ _ _ _ _ _
        ]]
    };
}

pub(super) use rows_100_on;

static ROWS_100_ON: [Option<Named>; 64] = rows_100_on!(rows);

/// The rows of codes 100 to 177 with bit 27 on.
pub(crate) fn codes_100_on() -> &'static [Option<Named>; 64]
    ensures { result.now ≡ block true 0o100 }
{
    &ROWS_100_ON
}

macro_rules! rows_200_on {
    ($make:ident $($with:tt)*) => {
        $make![$($with)* [
        // 200
        _ _ _ _ _ _ _ _
        // 210
        _ _ _ _ _ _ _ _
        // 220
        _ _ _ _ _ _ _ _
        // 230
        _ _ _ _ _ _ _ _
        // 240
        _ _ _ _ _ _ _ _
        // 250
        (b"spbp0" SpbpN 0 W2)
        (b"spri1" SpriN 1 W2)
        (b"spbp2" SpbpN 2 W2)
        (b"spri3" SpriN 3 W2)
        _ _ _ _
        // 260
        _ _ _ _ _ _ _ _
        // 270
        _ _ _ _ _ _ _ _
        ]]
    };
}

pub(super) use rows_200_on;

static ROWS_200_ON: [Option<Named>; 64] = rows_200_on!(rows);

/// The rows of codes 200 to 277 with bit 27 on.
pub(crate) fn codes_200_on() -> &'static [Option<Named>; 64]
    ensures { result.now ≡ block true 0o200 }
{
    &ROWS_200_ON
}

macro_rules! rows_300_on {
    ($make:ident $($with:tt)*) => {
        $make![$($with)* [
        // 300
        _ _ _ _ _ _ _ _
        // 310
        _ _ _ _ _ _ _ _
        // 320
        _ _ _ _ _ _ _ _
        // 330
        _ _ _ _ _ _ _ _
        // 340
        _ _ _ _ _ _ _ _
        // 350
        (b"epbp0" EpbpN 0 A)
        (b"epp1 " EppN 1 A)
        (b"epbp2" EpbpN 2 A)
        (b"epp3 " EppN 3 A)
        _ _ _ _
        // 360
        _ _ _ _ _ _ _ _
        // 370
        (b"epbp4" EpbpN 4 A)
        (b"epp5 " EppN 5 A)
        (b"epbp6" EpbpN 6 A)
        (b"epp7 " EppN 7 A)
        _ _ _ _
        ]]
    };
}

pub(super) use rows_300_on;

static ROWS_300_ON: [Option<Named>; 64] = rows_300_on!(rows);

/// The rows of codes 300 to 377 with bit 27 on.
pub(crate) fn codes_300_on() -> &'static [Option<Named>; 64]
    ensures { result.now ≡ block true 0o300 }
{
    &ROWS_300_ON
}

macro_rules! rows_400_on {
    ($make:ident $($with:tt)*) => {
        $make![$($with)* [
        // 400
        _ _ _ _ _ _ _ _
        // 410
        _ _ _ _ _ _ _ _
        // 420
        _ _ _ _ _ _ _ _
        // 430
        _ _ _ _ _ _ _ _
        // 440
        _ _ _ _ _ _ _ _
        // 450
        _ _ _ _ _ _ _ _
        // 460
        _ _ _ _ _ _ _ _
        // 470
        _ _ _ _ _ _ _ _
        ]]
    };
}

pub(super) use rows_400_on;

static ROWS_400_ON: [Option<Named>; 64] = rows_400_on!(rows);

/// The rows of codes 400 to 477 with bit 27 on.
pub(crate) fn codes_400_on() -> &'static [Option<Named>; 64]
    ensures { result.now ≡ block true 0o400 }
{
    &ROWS_400_ON
}

macro_rules! rows_500_on {
    ($make:ident $($with:tt)*) => {
        $make![$($with)* [
        // 500
        _ _ _ _ _ _ _ _
        // 510
        _ _ _ _ _ _ _ _
        // 520
        _ _ _ _ _ _ _ _
        // 530
        _ _
        (b"camp " Camp 0 A privileged)
        _ _ _ _ _
        // 540
        _ _ _ _ _ _ _ _
        // 550
        _ _ _ _ _ _ _ _
        // 560
        _ _ _ _ _ _ _ _
        // 570
        _ _ _ _ _ _ _ _
        ]]
    };
}

pub(super) use rows_500_on;

static ROWS_500_ON: [Option<Named>; 64] = rows_500_on!(rows);

/// The rows of codes 500 to 577 with bit 27 on.
pub(crate) fn codes_500_on() -> &'static [Option<Named>; 64]
    ensures { result.now ≡ block true 0o500 }
{
    &ROWS_500_ON
}

macro_rules! rows_600_on {
    ($make:ident $($with:tt)*) => {
        $make![$($with)* [
        // 600
        _ _ _ _
        (b"tmoz " Tmoz 0 T)
        (b"tpnz " Tpnz 0 T)
        _ _
        // 610
        _ _ _ _ _ _ _ _
        // 620
        _ _ _ _ _ _ _ _
        // 630
        _ _ _ _ _ _ _ _
        // 640
        _ _ _ _ _ _ _ _
        // 650
        (b"spbp4" SpbpN 4 W2)
        (b"spri5" SpriN 5 W2)
        (b"spbp6" SpbpN 6 W2)
        (b"spri7" SpriN 7 W2)
        _ _ _ _
        // 660
        _ _ _ _ _ _ _ _
        // 670
        _ _ _ _ _ _ _ _
        ]]
    };
}

pub(super) use rows_600_on;

static ROWS_600_ON: [Option<Named>; 64] = rows_600_on!(rows);

/// The rows of codes 600 to 677 with bit 27 on.
pub(crate) fn codes_600_on() -> &'static [Option<Named>; 64]
    ensures { result.now ≡ block true 0o600 }
{
    &ROWS_600_ON
}

macro_rules! rows_700_on {
    ($make:ident $($with:tt)*) => {
        $make![$($with)* [
        // 700
        _ _ _ _ _ _ _ _
        // 710
        _ _ _ _ _ _ _ _
        // 720
        _ _ _ _ _ _ _ _
        // 730
        _ _ _ _ _ _ _ _
        // 740
        _ _ _ _ _ _ _ _
        // 750
        _ _ _ _ _ _ _ _
        // 760
        _ _ _ _ _ _ _ _
        // 770
        _ _ _ _ _ _ _ _
        ]]
    };
}

pub(super) use rows_700_on;

static ROWS_700_ON: [Option<Named>; 64] = rows_700_on!(rows);

/// The rows of codes 700 to 777 with bit 27 on.
pub(crate) fn codes_700_on() -> &'static [Option<Named>; 64]
    ensures { result.now ≡ block true 0o700 }
{
    &ROWS_700_ON
}
