//! One table of all operation codes for quick steps, indexed by the nine bits of the code followed
//! by bit 27.

ghost use Rattle.std.specs.Prelude.{◌≡◌, ◌<◌, ◌/◌, ◌%◌};
ghost use Rattle.m36_inst.specs.Quick.{quick_table, quick_row_of, IsQuick};

use super::below_400::{rows_000, rows_100, rows_200, rows_300};
use super::bit_27::{
    rows_000_on, rows_100_on, rows_200_on, rows_300_on, rows_400_on, rows_500_on, rows_600_on,
    rows_700_on,
};
use super::from_400::{rows_400, rows_500, rows_600, rows_700};
use crate::effect::Effect;
use crate::rows::{Group, Quick};
use m36_word::Word;

/// The group of an effect.
macro_rules! group {
    (Lda) => { Group::Read };
    (Ldq) => { Group::Read };
    (LdxN) => { Group::Read };
    (LxlN) => { Group::Read };
    (Ada) => { Group::Read };
    (Adq) => { Group::Read };
    (Sba) => { Group::Read };
    (Sbq) => { Group::Read };
    (Cmpa) => { Group::Read };
    (Cmpq) => { Group::Read };
    (Szn) => { Group::Read };
    (Ana) => { Group::Read };
    (Anq) => { Group::Read };
    (Ora) => { Group::Read };
    (Orq) => { Group::Read };
    (Era) => { Group::Read };
    (Erq) => { Group::Read };
    (Sta) => { Group::Store };
    (Stq) => { Group::Store };
    (Stz) => { Group::Store };
    (Aos) => { Group::Change };
    (Asa) => { Group::Change };
    (Asq) => { Group::Change };
    (StxN) => { Group::Upper };
    (SxlN) => { Group::Lower };
    (Eaa) => { Group::Address };
    (Eaq) => { Group::Address };
    (EaxN) => { Group::Address };
    (Als) => { Group::Shift };
    (Qls) => { Group::Shift };
    (Lls) => { Group::Shift };
    (Ars) => { Group::Shift };
    (Qrs) => { Group::Shift };
    (Lrs) => { Group::Shift };
    (Arl) => { Group::Shift };
    (Qrl) => { Group::Shift };
    (Lrl) => { Group::Shift };
    (Alr) => { Group::Shift };
    (Qlr) => { Group::Shift };
    (Llr) => { Group::Shift };
    (Tra) => { Group::Transfer };
    (Tze) => { Group::Transfer };
    (Tnz) => { Group::Transfer };
    (Tmi) => { Group::Transfer };
    (Tpl) => { Group::Transfer };
    (Trc) => { Group::Transfer };
    (Tnc) => { Group::Transfer };
    (Tmoz) => { Group::Transfer };
    (Tpnz) => { Group::Transfer };
    (Ttf) => { Group::Transfer };
    (Ldaq) => { Group::ReadPair };
    (Adaq) => { Group::ReadPair };
    (Sbaq) => { Group::ReadPair };
    (Cmpaq) => { Group::ReadPair };
    (Anaq) => { Group::ReadPair };
    (Oraq) => { Group::ReadPair };
    (Eraq) => { Group::ReadPair };
    (Staq) => { Group::StorePair };
    (Call6) => { Group::Call };
    (Rtcd) => { Group::Return };
    ($effect:ident) => { Group::Other };
}

/// A row of the quick table, from the line of its operation code.
macro_rules! quick {
    (_) => {
        Quick {
            effect: Effect::Nop,
            group: Group::Other,
            reg: 0,
        }
    };
    (($name:literal $effect:ident $reg:literal $($rest:ident)*)) => {
        Quick {
            effect: Effect::$effect,
            group: group!($effect),
            reg: $reg,
        }
    };
}

/// The rows of 64 codes, each with bit 27 off and then with bit 27 on.
macro_rules! by_turns {
    ([$($off:tt)*] [$($on:tt)*]) => {
        [$(quick!($off), quick!($on)),*]
    };
}

macro_rules! with_on {
    ($on:ident [$($off:tt)*]) => {
        $on!(by_turns [$($off)*])
    };
}

macro_rules! quicks {
    ($off:ident $on:ident) => {
        $off!(with_on $on)
    };
}

const QUICK_000: [Quick; 128] = quicks!(rows_000 rows_000_on);

const QUICK_100: [Quick; 128] = quicks!(rows_100 rows_100_on);

const QUICK_200: [Quick; 128] = quicks!(rows_200 rows_200_on);

const QUICK_300: [Quick; 128] = quicks!(rows_300 rows_300_on);

const QUICK_400: [Quick; 128] = quicks!(rows_400 rows_400_on);

const QUICK_500: [Quick; 128] = quicks!(rows_500 rows_500_on);

const QUICK_600: [Quick; 128] = quicks!(rows_600 rows_600_on);

const QUICK_700: [Quick; 128] = quicks!(rows_700 rows_700_on);

static QUICK: [[Quick; 128]; 8] = [
    QUICK_000, QUICK_100, QUICK_200, QUICK_300, QUICK_400, QUICK_500, QUICK_600, QUICK_700,
];

// The whole table: eight parts of 64 codes, each with bit 27 off and then on.
#[inline(always)]
fn parts() -> &'static [[Quick; 128]; 8]
    ensures { result.now ≡ quick_table }
{
    &QUICK
}

/// The group, effect and register of the instruction in a word.
#[inline(always)]
pub fn quick_row(word: Word) -> &'static Quick
    ensures value { result.now ≡ quick_row_of word }
    ensures parts { IsQuick result.now }
{
    let place = (word.value() / 256 % 1024) as usize;
    let parts = parts();
    &parts[place / 128][place % 128]
}
