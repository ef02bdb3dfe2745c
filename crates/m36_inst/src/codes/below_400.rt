//! Operation codes 000 to 377 with bit 27 off.

ghost use Rattle.std.specs.Prelude.{◌≡◌, false};
ghost use Rattle.m36_inst.specs.Named.{block};

use crate::effect::Effect;
use crate::operand::Operand;
use crate::rows::{Named, Row};

macro_rules! rows_000 {
    ($make:ident $($with:tt)*) => {
        $make![$($with)* [
        // 000
        _
        (b"mme  " Mme 0 N)
        (b"drl  " Drl 0 N)
        _ _ _ _ _
        // 010
        _
        (b"nop  " Nop 0 A direct)
        _ _ _ _ _ _
        // 020
        (b"adlx0" AdlxN 0 R direct)
        (b"adlx1" AdlxN 1 R direct)
        (b"adlx2" AdlxN 2 R direct)
        (b"adlx3" AdlxN 3 R direct)
        (b"adlx4" AdlxN 4 R direct)
        (b"adlx5" AdlxN 5 R direct)
        (b"adlx6" AdlxN 6 R direct)
        (b"adlx7" AdlxN 7 R direct)
        // 030
        _ _
        (b"ldqc " Ldqc 0 Rw)
        (b"adl  " Adl 0 R direct)
        (b"ldac " Ldac 0 Rw)
        (b"adla " Adla 0 R direct)
        (b"adlq " Adlq 0 R direct)
        (b"adlaq" Adlaq 0 R2)
        // 040
        (b"asx0 " AsxN 0 Rwl)
        (b"asx1 " AsxN 1 Rwl)
        (b"asx2 " AsxN 2 Rwl)
        (b"asx3 " AsxN 3 Rwl)
        (b"asx4 " AsxN 4 Rwl)
        (b"asx5 " AsxN 5 Rwl)
        (b"asx6 " AsxN 6 Rwl)
        (b"asx7 " AsxN 7 Rwl)
        // 050
        _ _ _ _
        (b"aos  " Aos 0 Rw)
        (b"asa  " Asa 0 Rw)
        (b"asq  " Asq 0 Rw)
        _
        // 060
        (b"adx0 " AdxN 0 R direct)
        (b"adx1 " AdxN 1 R direct)
        (b"adx2 " AdxN 2 R direct)
        (b"adx3 " AdxN 3 R direct)
        (b"adx4 " AdxN 4 R direct)
        (b"adx5 " AdxN 5 R direct)
        (b"adx6 " AdxN 6 R direct)
        (b"adx7 " AdxN 7 R direct)
        // 070
        _
        (b"awca " Awca 0 R direct)
        (b"awcq " Awcq 0 R direct)
        _ _
        (b"ada  " Ada 0 R direct)
        (b"adq  " Adq 0 R direct)
        (b"adaq " Adaq 0 R2)
        ]]
    };
}

pub(super) use rows_000;

static ROWS_000: [Option<Named>; 64] = rows_000!(rows);

/// The rows of codes 000 to 077 with bit 27 off.
pub(crate) fn codes_000() -> &'static [Option<Named>; 64]
    ensures { result.now ≡ block false 0o000 }
{
    &ROWS_000
}

macro_rules! rows_100 {
    ($make:ident $($with:tt)*) => {
        $make![$($with)* [
        // 100
        (b"cmpx0" CmpxN 0 R direct)
        (b"cmpx1" CmpxN 1 R direct)
        (b"cmpx2" CmpxN 2 R direct)
        (b"cmpx3" CmpxN 3 R direct)
        (b"cmpx4" CmpxN 4 R direct)
        (b"cmpx5" CmpxN 5 R direct)
        (b"cmpx6" CmpxN 6 R direct)
        (b"cmpx7" CmpxN 7 R direct)
        // 110
        _ _ _ _ _
        (b"cmpa " Cmpa 0 R direct)
        (b"cmpq " Cmpq 0 R direct)
        (b"cmpaq" Cmpaq 0 R2)
        // 120
        (b"sblx0" SblxN 0 R direct)
        (b"sblx1" SblxN 1 R direct)
        (b"sblx2" SblxN 2 R direct)
        (b"sblx3" SblxN 3 R direct)
        (b"sblx4" SblxN 4 R direct)
        (b"sblx5" SblxN 5 R direct)
        (b"sblx6" SblxN 6 R direct)
        (b"sblx7" SblxN 7 R direct)
        // 130
        _ _ _ _ _
        (b"sbla " Sbla 0 R direct)
        (b"sblq " Sblq 0 R direct)
        (b"sblaq" Sblaq 0 R2)
        // 140
        (b"ssx0 " SsxN 0 Rwl)
        (b"ssx1 " SsxN 1 Rwl)
        (b"ssx2 " SsxN 2 Rwl)
        (b"ssx3 " SsxN 3 Rwl)
        (b"ssx4 " SsxN 4 Rwl)
        (b"ssx5 " SsxN 5 Rwl)
        (b"ssx6 " SsxN 6 Rwl)
        (b"ssx7 " SsxN 7 Rwl)
        // 150
        _ _ _ _
        (b"sdbr " Sdbr 0 W2 privileged)
        (b"ssa  " Ssa 0 Rw)
        (b"ssq  " Ssq 0 Rw)
        _
        // 160
        (b"sbx0 " SbxN 0 R direct)
        (b"sbx1 " SbxN 1 R direct)
        (b"sbx2 " SbxN 2 R direct)
        (b"sbx3 " SbxN 3 R direct)
        (b"sbx4 " SbxN 4 R direct)
        (b"sbx5 " SbxN 5 R direct)
        (b"sbx6 " SbxN 6 R direct)
        (b"sbx7 " SbxN 7 R direct)
        // 170
        _
        (b"swca " Swca 0 R direct)
        (b"swcq " Swcq 0 R direct)
        (b"lpri " Lpri 0 R16)
        _
        (b"sba  " Sba 0 R direct)
        (b"sbq  " Sbq 0 R direct)
        (b"sbaq " Sbaq 0 R2)
        ]]
    };
}

pub(super) use rows_100;

static ROWS_100: [Option<Named>; 64] = rows_100!(rows);

/// The rows of codes 100 to 177 with bit 27 off.
pub(crate) fn codes_100() -> &'static [Option<Named>; 64]
    ensures { result.now ≡ block false 0o100 }
{
    &ROWS_100
}

macro_rules! rows_200 {
    ($make:ident $($with:tt)*) => {
        $make![$($with)* [
        // 200
        (b"cnax0" CnaxN 0 R direct)
        (b"cnax1" CnaxN 1 R direct)
        (b"cnax2" CnaxN 2 R direct)
        (b"cnax3" CnaxN 3 R direct)
        (b"cnax4" CnaxN 4 R direct)
        (b"cnax5" CnaxN 5 R direct)
        (b"cnax6" CnaxN 6 R direct)
        (b"cnax7" CnaxN 7 R direct)
        // 210
        _
        (b"cmk  " Cmk 0 R direct)
        (b"absa " Absa 0 A privileged)
        (b"epaq " Epaq 0 A)
        (b"sznc " Sznc 0 Rw)
        (b"cnaa " Cnaa 0 R direct)
        (b"cnaq " Cnaq 0 R direct)
        (b"cnaaq" Cnaaq 0 R2)
        // 220
        (b"ldx0 " LdxN 0 R direct)
        (b"ldx1 " LdxN 1 R direct)
        (b"ldx2 " LdxN 2 R direct)
        (b"ldx3 " LdxN 3 R direct)
        (b"ldx4 " LdxN 4 R direct)
        (b"ldx5 " LdxN 5 R direct)
        (b"ldx6 " LdxN 6 R direct)
        (b"ldx7 " LdxN 7 R direct)
        // 230
        _ _
        (b"ldbr " Ldbr 0 R2 privileged)
        _
        (b"szn  " Szn 0 R direct)
        (b"lda  " Lda 0 R direct)
        (b"ldq  " Ldq 0 R direct)
        (b"ldaq " Ldaq 0 R2)
        // 240
        (b"orsx0" OrsxN 0 Rwl)
        (b"orsx1" OrsxN 1 Rwl)
        (b"orsx2" OrsxN 2 Rwl)
        (b"orsx3" OrsxN 3 Rwl)
        (b"orsx4" OrsxN 4 Rwl)
        (b"orsx5" OrsxN 5 Rwl)
        (b"orsx6" OrsxN 6 Rwl)
        (b"orsx7" OrsxN 7 Rwl)
        // 250
        (b"spri0" SpriN 0 W2)
        (b"spbp1" SpbpN 1 W2)
        (b"spri2" SpriN 2 W2)
        (b"spbp3" SpbpN 3 W2)
        (b"spri " Spri 0 W16)
        (b"orsa " Orsa 0 Rw)
        (b"orsq " Orsq 0 Rw)
        _
        // 260
        (b"orx0 " OrxN 0 R direct)
        (b"orx1 " OrxN 1 R direct)
        (b"orx2 " OrxN 2 R direct)
        (b"orx3 " OrxN 3 R direct)
        (b"orx4 " OrxN 4 R direct)
        (b"orx5 " OrxN 5 R direct)
        (b"orx6 " OrxN 6 R direct)
        (b"orx7 " OrxN 7 R direct)
        // 270
        (b"tsp0 " TspN 0 T)
        (b"tsp1 " TspN 1 T)
        (b"tsp2 " TspN 2 T)
        (b"tsp3 " TspN 3 T)
        _
        (b"ora  " Ora 0 R direct)
        (b"orq  " Orq 0 R direct)
        (b"oraq " Oraq 0 R2)
        ]]
    };
}

pub(super) use rows_200;

static ROWS_200: [Option<Named>; 64] = rows_200!(rows);

/// The rows of codes 200 to 277 with bit 27 off.
pub(crate) fn codes_200() -> &'static [Option<Named>; 64]
    ensures { result.now ≡ block false 0o200 }
{
    &ROWS_200
}

macro_rules! rows_300 {
    ($make:ident $($with:tt)*) => {
        $make![$($with)* [
        // 300
        (b"canx0" CanxN 0 R direct)
        (b"canx1" CanxN 1 R direct)
        (b"canx2" CanxN 2 R direct)
        (b"canx3" CanxN 3 R direct)
        (b"canx4" CanxN 4 R direct)
        (b"canx5" CanxN 5 R direct)
        (b"canx6" CanxN 6 R direct)
        (b"canx7" CanxN 7 R direct)
        // 310
        _ _ _ _ _
        (b"cana " Cana 0 R direct)
        (b"canq " Canq 0 R direct)
        (b"canaq" Canaq 0 R2)
        // 320
        (b"lcx0 " LcxN 0 R direct)
        (b"lcx1 " LcxN 1 R direct)
        (b"lcx2 " LcxN 2 R direct)
        (b"lcx3 " LcxN 3 R direct)
        (b"lcx4 " LcxN 4 R direct)
        (b"lcx5 " LcxN 5 R direct)
        (b"lcx6 " LcxN 6 R direct)
        (b"lcx7 " LcxN 7 R direct)
        // 330
        _ _ _ _ _
        (b"lca  " Lca 0 R direct)
        (b"lcq  " Lcq 0 R direct)
        (b"lcaq " Lcaq 0 R2)
        // 340
        (b"ansx0" AnsxN 0 Rwl)
        (b"ansx1" AnsxN 1 Rwl)
        (b"ansx2" AnsxN 2 Rwl)
        (b"ansx3" AnsxN 3 Rwl)
        (b"ansx4" AnsxN 4 Rwl)
        (b"ansx5" AnsxN 5 Rwl)
        (b"ansx6" AnsxN 6 Rwl)
        (b"ansx7" AnsxN 7 Rwl)
        // 350
        (b"epp0 " EppN 0 A)
        (b"epbp1" EpbpN 1 A)
        (b"epp2 " EppN 2 A)
        (b"epbp3" EpbpN 3 A)
        (b"stac " Stac 0 Rw)
        (b"ansa " Ansa 0 Rw)
        (b"ansq " Ansq 0 Rw)
        (b"stcd " Stcd 0 W2)
        // 360
        (b"anx0 " AnxN 0 R direct)
        (b"anx1 " AnxN 1 R direct)
        (b"anx2 " AnxN 2 R direct)
        (b"anx3 " AnxN 3 R direct)
        (b"anx4 " AnxN 4 R direct)
        (b"anx5 " AnxN 5 R direct)
        (b"anx6 " AnxN 6 R direct)
        (b"anx7 " AnxN 7 R direct)
        // 370
        (b"epp4 " EppN 4 A)
        (b"epbp5" EpbpN 5 A)
        (b"epp6 " EppN 6 A)
        (b"epbp7" EpbpN 7 A)
        _
        (b"ana  " Ana 0 R direct)
        (b"anq  " Anq 0 R direct)
        (b"anaq " Anaq 0 R2)
        ]]
    };
}

pub(super) use rows_300;

static ROWS_300: [Option<Named>; 64] = rows_300!(rows);

/// The rows of codes 300 to 377 with bit 27 off.
pub(crate) fn codes_300() -> &'static [Option<Named>; 64]
    ensures { result.now ≡ block false 0o300 }
{
    &ROWS_300
}
