//! Lookups in the table, by operation code and by name.

ghost use Rattle.std.specs.Prelude.{ℕ, ◌≡◌, ◌≢◌, ◌<◌, ◌↔◌, Some, length, option_map, IfSome};
ghost use Rattle.std.specs.Prelude.{IfNone, IsTrue};
ghost use Rattle.std.specs.List.{position};
ghost use Rattle.m36_inst.specs.Lookup.{row_at, name_at, code_named, IsRow};
ghost use Rattle.m36_inst.specs.Names.{letter, key, key_at, code_at, bit27_at, IsRising};
ghost use Rattle.m36_inst.specs.Named.{is_blank, text_of, IsPlain};

use crate::codes::named_row;
use crate::names::{CodeOfName, names};
use crate::rows::Row;
use arrayvec::ArrayString;

/// The row of the instruction with this operation code and bit 27, or None if there is no such
/// instruction.
pub fn row(code: u16, bit27: bool) -> Option<Row>
    ensures value { result ≡ row_at code bit27 }
    ensures parts { IfSome result IsRow }
{
    match named_row(code, bit27) {
        Some(place) => Some(place.row),
        None => None,
    }
}

/// The name of the instruction with this operation code and bit 27, or None if there is no such
/// instruction.
pub fn name_of(code: u16, bit27: bool) -> Option<ArrayString<8>>
    ensures { option_map (λ s. s.bytes) result ≡ name_at code bit27 }
{
    match named_row(code, bit27) {
        Some(place) => Some(name_string(text(&place.name))),
        None => None,
    }
}

/// The operation code and bit 27 of the instruction with this name, or None if there is no such
/// instruction. A binary search: at most nine comparisons.
#[tactic(auto, using(crate::proofs::NamesInOrder::named_or_not))]
pub fn by_name(n: &[u8]) -> Option<(u16, bool)>
    ensures { result ≡ code_named n.now }
{
    let rows = names();
    let place = match place_of(rows, key(n)) {
        Some(place) => place,
        None => return None,
    };
    let code = code_at(rows, place);
    let bit27 = bit27_at(rows, place);
    if has_name(code, bit27, n) {
        return Some((code, bit27));
    }
    None
}

// The index of the row whose key is `wanted`, by binary search.
fn place_of(rows: &[CodeOfName], wanted: u64) -> Option<usize>
    requires { IsRising rows.now }
    ensures inside { IfSome result (λ i. i < length rows.now) }
    ensures key { IfSome result (λ i. key_at rows.now i ≡ wanted) }
    ensures none { IfNone result ((i : ℕ) → i < length rows.now → key_at rows.now i ≢ wanted) }
{
    let mut low = 0;
    let mut high = rows.len();
    while low < high {
        let middle = low + (high - low) / 2;
        let here = key_at(rows, middle);
        if here == wanted {
            return Some(middle);
        }
        if here < wanted {
            low = middle + 1;
        } else {
            high = middle;
        }
    }
    None
}

/// A name as a number, by which names are ordered: its first five characters, padded with blanks.
#[tactic(auto, unfolding(crate::specs::Names::key))]
fn key(name: &[u8]) -> u64
    ensures { result ≡ key name.now }
{
    (letter(name, 0) << 32)
        + (letter(name, 1) << 24)
        + (letter(name, 2) << 16)
        + (letter(name, 3) << 8)
        + letter(name, 4)
}

// A character of a name, or a blank if the name is shorter.
fn letter(name: &[u8], i: usize) -> u64
    ensures value { result ≡ letter name.now i }
    ensures bound { result < 256 }
{
    if i < name.len() {
        return name[i] as u64;
    }
    b' ' as u64
}

// The key of the name of row `i`.
#[tactic(auto, using(crate::proofs::NamesInOrder::columns))]
fn key_at(rows: &[CodeOfName], i: usize) -> u64
    requires { i < length rows.now }
    ensures { result ≡ key_at rows.now i }
{
    key(&rows[i].name)
}

// The operation code of row `i`.
#[tactic(auto, using(crate::proofs::NamesInOrder::columns))]
fn code_at(rows: &[CodeOfName], i: usize) -> u16
    requires { i < length rows.now }
    ensures { result ≡ code_at rows.now i }
{
    rows[i].code
}

// Bit 27 of row `i`.
#[tactic(auto, using(crate::proofs::NamesInOrder::columns))]
fn bit27_at(rows: &[CodeOfName], i: usize) -> bool
    requires { i < length rows.now }
    ensures { result ≡ bit27_at rows.now i }
{
    rows[i].bit27
}

// Whether a code has an instruction with this name.
fn has_name(code: u16, bit27: bool, n: &[u8]) -> bool
    ensures { IsTrue result ↔ (name_at code bit27 ≡ Some n.now) }
{
    match named_row(code, bit27) {
        Some(place) => text(&place.name) == n,
        None => false,
    }
}

/// A name without the blanks at its end.
#[tactic(auto, using(crate::proofs::Texts::texts))]
fn text(name: &[u8; 5]) -> &[u8]
    ensures { result.now ≡ text_of name.now }
{
    match first_blank(name) {
        Some(end) => &name[..end],
        None => name,
    }
}

// The index of the first blank of a padded name; None if all five characters are used.
fn first_blank(name: &[u8; 5]) -> Option<usize>
    ensures value { result ≡ position is_blank name.now }
    ensures inside { IfSome result (λ end. end < 5) }
{
    name.iter().position(|b| *b == b' ')
}

// The characters of a name, at most five and all ASCII, as a string.
#[tactic(auto, using(std::proofs::lemmas::Str::encode_ascii))]
fn name_string(name: &[u8]) -> ArrayString<8>
    requires { IsPlain name.now }
    ensures { result.bytes ≡ name.now }
{
    let mut s = ArrayString::new();
    for b in name {
        s.push(*b as char);
    }
    s
}
