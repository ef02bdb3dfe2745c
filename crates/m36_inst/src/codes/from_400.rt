//! Operation codes 400 to 777 with bit 27 off.

ghost use Rattle.std.specs.Prelude.{◌≡◌, false};
ghost use Rattle.m36_inst.specs.Named.{block};

use crate::effect::Effect;
use crate::operand::Operand;
use crate::rows::{Named, Row};

macro_rules! rows_400 {
    ($make:ident $($with:tt)*) => {
        $make![$($with)* [
        // 400
        _ _
        (b"mpy  " Mpy 0 R direct)
        _ _ _ _ _
        // 410
        _ _ _ _ _ _ _ _
        // 420
        _ _ _ _ _ _ _ _
        // 430
        _ _ _ _ _ _ _ _
        // 440
        (b"sxl0 " SxlN 0 Wr)
        (b"sxl1 " SxlN 1 Wr)
        (b"sxl2 " SxlN 2 Wr)
        (b"sxl3 " SxlN 3 Wr)
        (b"sxl4 " SxlN 4 Wr)
        (b"sxl5 " SxlN 5 Wr)
        (b"sxl6 " SxlN 6 Wr)
        (b"sxl7 " SxlN 7 Wr)
        // 450
        (b"stz  " Stz 0 W)
        _ _ _ _ _ _ _
        // 460
        _ _ _ _ _ _ _ _
        // 470
        _ _ _ _ _ _ _ _
        ]]
    };
}

pub(super) use rows_400;

static ROWS_400: [Option<Named>; 64] = rows_400!(rows);

/// The rows of codes 400 to 477 with bit 27 off.
pub(crate) fn codes_400() -> &'static [Option<Named>; 64]
    ensures { result.now ≡ block false 0o400 }
{
    &ROWS_400
}

macro_rules! rows_500 {
    ($make:ident $($with:tt)*) => {
        $make![$($with)* [
        // 500
        _ _ _ _ _ _
        (b"div  " Div 0 R direct)
        _
        // 510
        _ _ _ _ _ _ _ _
        // 520
        _ _ _ _ _ _ _ _
        // 530
        _
        (b"neg  " Neg 0 A)
        (b"cams " Cams 0 A privileged)
        (b"negl " Negl 0 A)
        _ _ _ _
        // 540
        _ _ _ _ _ _ _ _
        // 550
        _ _ _ _ _ _ _ _
        // 560
        _ _ _ _ _ _ _ _
        // 570
        _ _ _ _ _ _ _ _
        ]]
    };
}

pub(super) use rows_500;

static ROWS_500: [Option<Named>; 64] = rows_500!(rows);

/// The rows of codes 500 to 577 with bit 27 off.
pub(crate) fn codes_500() -> &'static [Option<Named>; 64]
    ensures { result.now ≡ block false 0o500 }
{
    &ROWS_500
}

macro_rules! rows_600 {
    ($make:ident $($with:tt)*) => {
        $make![$($with)* [
        // 600
        (b"tze  " Tze 0 T)
        (b"tnz  " Tnz 0 T)
        (b"tnc  " Tnc 0 T)
        (b"trc  " Trc 0 T)
        (b"tmi  " Tmi 0 T)
        (b"tpl  " Tpl 0 T)
        _
        (b"ttf  " Ttf 0 T)
        // 610
        (b"rtcd " Rtcd 0 R2)
        _ _ _ _ _
        (b"dis  " Dis 0 N privileged)
        (b"tov  " Tov 0 T)
        // 620
        (b"eax0 " EaxN 0 A)
        (b"eax1 " EaxN 1 A)
        (b"eax2 " EaxN 2 A)
        (b"eax3 " EaxN 3 A)
        (b"eax4 " EaxN 4 A)
        (b"eax5 " EaxN 5 A)
        (b"eax6 " EaxN 6 A)
        (b"eax7 " EaxN 7 A)
        // 630
        _ _ _ _
        (b"ldi  " Ldi 0 R direct)
        (b"eaa  " Eaa 0 A)
        (b"eaq  " Eaq 0 A)
        _
        // 640
        (b"ersx0" ErsxN 0 Rwl)
        (b"ersx1" ErsxN 1 Rwl)
        (b"ersx2" ErsxN 2 Rwl)
        (b"ersx3" ErsxN 3 Rwl)
        (b"ersx4" ErsxN 4 Rwl)
        (b"ersx5" ErsxN 5 Rwl)
        (b"ersx6" ErsxN 6 Rwl)
        (b"ersx7" ErsxN 7 Rwl)
        // 650
        (b"spri4" SpriN 4 W2)
        (b"spbp5" SpbpN 5 W2)
        (b"spri6" SpriN 6 W2)
        (b"spbp7" SpbpN 7 W2)
        (b"stacq" Stacq 0 Rw)
        (b"ersa " Ersa 0 Rw)
        (b"ersq " Ersq 0 Rw)
        _
        // 660
        (b"erx0 " ErxN 0 R direct)
        (b"erx1 " ErxN 1 R direct)
        (b"erx2 " ErxN 2 R direct)
        (b"erx3 " ErxN 3 R direct)
        (b"erx4 " ErxN 4 R direct)
        (b"erx5 " ErxN 5 R direct)
        (b"erx6 " ErxN 6 R direct)
        (b"erx7 " ErxN 7 R direct)
        // 670
        (b"tsp4 " TspN 4 T)
        (b"tsp5 " TspN 5 T)
        (b"tsp6 " TspN 6 T)
        (b"tsp7 " TspN 7 T)
        _
        (b"era  " Era 0 R direct)
        (b"erq  " Erq 0 R direct)
        (b"eraq " Eraq 0 R2)
        ]]
    };
}

pub(super) use rows_600;

static ROWS_600: [Option<Named>; 64] = rows_600!(rows);

/// The rows of codes 600 to 677 with bit 27 off.
pub(crate) fn codes_600() -> &'static [Option<Named>; 64]
    ensures { result.now ≡ block false 0o600 }
{
    &ROWS_600
}

macro_rules! rows_700 {
    ($make:ident $($with:tt)*) => {
        $make![$($with)* [
        // 700
        (b"tsx0 " TsxN 0 T)
        (b"tsx1 " TsxN 1 T)
        (b"tsx2 " TsxN 2 T)
        (b"tsx3 " TsxN 3 T)
        (b"tsx4 " TsxN 4 T)
        (b"tsx5 " TsxN 5 T)
        (b"tsx6 " TsxN 6 T)
        (b"tsx7 " TsxN 7 T)
        // 710
        (b"tra  " Tra 0 T)
        _ _
        (b"call6" Call6 0 Call6)
        _ _ _ _
        // 720
        (b"lxl0 " LxlN 0 R direct)
        (b"lxl1 " LxlN 1 R direct)
        (b"lxl2 " LxlN 2 R direct)
        (b"lxl3 " LxlN 3 R direct)
        (b"lxl4 " LxlN 4 R direct)
        (b"lxl5 " LxlN 5 R direct)
        (b"lxl6 " LxlN 6 R direct)
        (b"lxl7 " LxlN 7 R direct)
        // 730
        _
        (b"ars  " Ars 0 A)
        (b"qrs  " Qrs 0 A)
        (b"lrs  " Lrs 0 A)
        _
        (b"als  " Als 0 A)
        (b"qls  " Qls 0 A)
        (b"lls  " Lls 0 A)
        // 740
        (b"stx0 " StxN 0 Wl)
        (b"stx1 " StxN 1 Wl)
        (b"stx2 " StxN 2 Wl)
        (b"stx3 " StxN 3 Wl)
        (b"stx4 " StxN 4 Wl)
        (b"stx5 " StxN 5 Wl)
        (b"stx6 " StxN 6 Wl)
        (b"stx7 " StxN 7 Wl)
        // 750
        _ _ _ _
        (b"sti  " Sti 0 Wr)
        (b"sta  " Sta 0 W)
        (b"stq  " Stq 0 W)
        (b"staq " Staq 0 W2)
        // 760
        (b"lprp0" LprpN 0 R)
        (b"lprp1" LprpN 1 R)
        (b"lprp2" LprpN 2 R)
        (b"lprp3" LprpN 3 R)
        (b"lprp4" LprpN 4 R)
        (b"lprp5" LprpN 5 R)
        (b"lprp6" LprpN 6 R)
        (b"lprp7" LprpN 7 R)
        // 770
        _
        (b"arl  " Arl 0 A)
        (b"qrl  " Qrl 0 A)
        (b"lrl  " Lrl 0 A)
        _
        (b"alr  " Alr 0 A)
        (b"qlr  " Qlr 0 A)
        (b"llr  " Llr 0 A)
        ]]
    };
}

pub(super) use rows_700;

static ROWS_700: [Option<Named>; 64] = rows_700!(rows);

/// The rows of codes 700 to 777 with bit 27 off.
pub(crate) fn codes_700() -> &'static [Option<Named>; 64]
    ensures { result.now ≡ block false 0o700 }
{
    &ROWS_700
}
