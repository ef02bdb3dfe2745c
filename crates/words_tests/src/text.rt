//! Numbers as texts and texts as numbers, packed words, names, lines and words of lines.

ghost use Rattle.std.specs.Prelude.{◌<◌, ◌≤◌, ◌^◌};

use m36_text::{
    Name, Names, NumberFault, PackFault, decimal, decimal_in, first_line, first_open_line,
    first_word, is_file_name, is_name, octal, octal_in, only_word, pack, plain_decimal_in,
    read_decimal, read_octal, short_decimal_in, unpack,
};
use m36_word::{NoMemory, Word, Words};
use std::alloc::Global;

/// A number, and its decimal digits.
const DECIMALS: &[(u64, &str)] = &[
    (0, "0"),
    (10, "10"),
    (262_143, "262143"),
    (u64::MAX, "18446744073709551615"),
];

fn octal_is(v: u64, places: u32, text: &str) -> bool
    requires places { places ≤ 22 }
    requires fits { v < 8 ^ places }
{
    octal(v, places).as_str() == text
}

#[test]
fn octal_numbers_as_texts(rt: HostRuntime) {
    assert!(rt; octal_is(0, 0, "") && octal_is(0o4444, 12, "000000004444"));
    assert!(rt; octal_is(u64::MAX, 22, "1777777777777777777777"));
}

#[test]
fn decimal_numbers_as_texts(rt: HostRuntime) {
    for (number, text) in DECIMALS {
        assert!(rt; decimal(*number).as_str() == *text, "{text}");
    }
}

/// A text, the greatest number allowed, and the result of reading the text.
type Read<'a> = (&'a [u8], u64, Result<u64, NumberFault>);

const READ_OCTAL: &[Read] = &[
    (b"000100004444", 0o777777777777, Ok(0o100004444)),
    (b"10", 7, Err(NumberFault::T2)),
    (b"1008", 7, Err(NumberFault::T1(3))),
    (b"1777777777777777777777", u64::MAX, Ok(u64::MAX)),
    (b"2000000000000000000000", u64::MAX, Err(NumberFault::T2)),
];

const READ_DECIMAL: &[Read] = &[
    (b"", 9, Err(NumberFault::T1(0))),
    (b"-1", 9, Err(NumberFault::T1(0))),
    (b"12:", 99, Err(NumberFault::T1(2))),
    (b"0016384", 16384, Ok(16384)),
    (b"16385", 16384, Err(NumberFault::T2)),
    (b"18446744073709551615", u64::MAX, Ok(u64::MAX)),
    (b"18446744073709551616", u64::MAX, Err(NumberFault::T2)),
];

#[test]
fn octal_texts_as_numbers(rt: HostRuntime) {
    for (text, max, number) in READ_OCTAL {
        assert!(rt; read_octal(text, *max) == *number, "{text:?}");
    }
}

#[test]
fn decimal_texts_as_numbers(rt: HostRuntime) {
    for (text, max, number) in READ_DECIMAL {
        assert!(rt; read_decimal(text, *max) == *number, "{text:?}");
    }
}

/// The number that a text is read as, if it has the form that is asked for.
type Found = Option<u64>;

/// Texts read as decimal numbers from 1 to 8192: with any number of digits; with at most four; and
/// without a leading zero.
const OF_A_FORM: &[(&[u8], Found, Found, Found)] = &[
    (b"24", Some(24), Some(24), Some(24)),
    (b"8192", Some(8192), Some(8192), Some(8192)),
    (b"0024", Some(24), Some(24), None),
    (b"00024", Some(24), None, None),
    (b"8193", None, None, None),
    (b"0", None, None, None),
    (b"", None, None, None),
    (b"24 ", None, None, None),
];

/// Texts read as octal numbers of exactly five digits.
const OF_FIVE_DIGITS: &[(&[u8], Found)] = &[
    (b"00017", Some(15)),
    (b"17", None),
    (b"00018", None),
    (b"000017", None),
];

fn is_of_a_form(text: &[u8], any: Found, short: Found, plain: Found) -> bool {
    decimal_in(text, 1, 8192) == any
        && short_decimal_in(text, 4, 1, 8192) == short
        && plain_decimal_in(text, 1, 8192) == plain
}

#[test]
fn texts_of_a_form(rt: HostRuntime) {
    for (text, any, short, plain) in OF_A_FORM {
        assert!(rt; is_of_a_form(text, *any, *short, *plain), "{text:?}");
    }
    assert!(rt; plain_decimal_in(b"0", 0, 9) == Some(0));
}

#[test]
fn texts_of_five_digits(rt: HostRuntime) {
    for (text, number) in OF_FIVE_DIGITS {
        assert!(rt; octal_in(text, 5) == *number, "{text:?}");
    }
}

/// A word, and the packed bytes of this word and all those of the rows above.
const PACKED: &[(u64, &[u8])] = &[
    (1, b"\x00\x00\x00\x00\x10"),
    (0o400000000000, b"\x00\x00\x00\x00\x18\x00\x00\x00\x00"),
    (
        0o777777777777,
        b"\x00\x00\x00\x00\x18\x00\x00\x00\x00\xff\xff\xff\xff\xf0",
    ),
];

/// Bytes, and the result of comparing their words with an empty list. The last two are refused.
const UNPACKED: &[(&[u8], Result<bool, PackFault>)] = &[
    (b"", Ok(true)),
    (b"\x00\x00\x00\x00\x11", Err(PackFault::T4(4))),
    (b"\x00\x00\x00\x00\x10\x00", Err(PackFault::T3(6))),
];

/// Whether the words pack into these bytes.
fn packs(alloc: Global, words: &[Word], bytes: &[u8]) -> Result<bool, NoMemory> {
    let text = pack(alloc, words)?;
    let told = text.bytes() == bytes;
    // Dropped by a call, so that the drop is proved once for its type; also below.
    drop(text);
    Ok(told)
}

/// Whether the bytes unpack to these words.
fn unpacks(alloc: Global, bytes: &[u8], words: &[Word]) -> Result<bool, PackFault> {
    let found = unpack(alloc, bytes)?;
    let told = found.slice() == words;
    drop(found);
    Ok(told)
}

fn are_packed(alloc: Global, words: &mut Words) -> Result<bool, PackFault> {
    for (word, bytes) in PACKED {
        words.push(Word::low(*word))?;
        if !packs(alloc, words.slice(), bytes)? || !unpacks(alloc, bytes, words.slice())? {
            return Ok(false);
        }
    }
    Ok(true)
}

#[test]
fn words_as_bytes(rt: HostRuntime) {
    let mut words = Words::new(rt.alloc());
    let told = are_packed(rt.alloc(), &mut words);
    drop(words);
    assert!(rt; told == Ok(true));
}

#[test]
fn bytes_as_words(rt: HostRuntime) {
    for (bytes, told) in UNPACKED {
        assert!(rt; unpacks(rt.alloc(), bytes, &[]) == *told, "{bytes:?}");
    }
}

/// A text, whether it is a name, and whether it is the name of a file.
const NAMES: &[(&[u8], bool, bool)] = &[
    (b"abcdefghijklmnopqrstuvwxyz_.0123", true, true),
    (b"abcdefghijklmnopqrstuvwxyz_.01234", false, false),
    (b".alm", true, false),
    (b"A..Z", true, true),
    (b"a-b", false, false),
    (b"a\n", false, false),
    (b"", false, false),
];

fn is_named(text: &[u8], named: bool, of_a_file: bool) -> bool {
    is_name(text) == named
        && is_file_name(text) == of_a_file
        && Name::new(text).is_some() == (text.len() <= 32)
}

#[test]
fn names(rt: HostRuntime) {
    for (text, named, of_a_file) in NAMES {
        assert!(rt; is_named(text, *named, *of_a_file), "{text:?}");
    }
}

/// Adds `text` to the list, unless it is too long for a name.
fn add(list: &mut Names, text: &[u8]) -> Result<(), NoMemory> {
    match Name::new(text) {
        Some(name) => list.push(name.copied()),
        None => Ok(()),
    }
}

/// Whether a list keeps two names in the order in which they were added.
fn are_listed(list: &mut Names) -> Result<bool, NoMemory> {
    for text in [b"a".as_slice(), b"gate_"] {
        add(list, text)?;
    }
    let all = list.items();
    Ok(all.len() == 2 && all[1].bytes() == b"gate_".as_slice() && all[0] < all[1])
}

#[test]
fn list_of_names(rt: HostRuntime) -> Result<(), NoMemory> {
    let mut list = Names::new(rt.alloc());
    let told = are_listed(&mut list);
    drop(list);
    assert!(rt; told?);
    Ok(())
}

/// The part of a text before the first separator, and the part after it.
type Parts<'a> = Option<(&'a [u8], &'a [u8])>;

/// A text, its first line, and the rest.
const LINES: &[(&[u8], Parts)] = &[
    (b"core 1\n\nat", Some((b"core 1", b"\nat"))),
    (b"\nat", Some((b"", b"at"))),
    (b"at", None),
];

/// As `LINES`, but the last line may lack its line feed.
const OPEN_LINES: &[(&[u8], Parts)] = &[(b"at", Some((b"at", b""))), (b"", None)];

/// A line, its first word and the rest, and its only word if it has one word.
const WORDS: &[(&[u8], (&[u8], Option<&[u8]>), Option<&[u8]>)] = &[
    (b"core 1", (b"core", Some(b"1")), None),
    (b"1", (b"1", None), Some(b"1")),
];

#[test]
fn lines(rt: HostRuntime) {
    for (text, parts) in LINES {
        assert!(rt; first_line(text) == *parts, "{text:?}");
    }
}

#[test]
fn open_lines(rt: HostRuntime) {
    for (text, parts) in OPEN_LINES {
        assert!(rt; first_open_line(text) == *parts, "{text:?}");
    }
}

fn are_words(line: &[u8], parts: (&[u8], Option<&[u8]>), only: Option<&[u8]>) -> bool {
    first_word(line) == parts && only_word(line) == only
}

#[test]
fn words_of_lines(rt: HostRuntime) {
    for (line, parts, only) in WORDS {
        assert!(rt;
            first_word(line) == *parts && only_word(line) == *only,
            "{line:?}"
        );
    }
}
