//! Words of 36 bits, halves, pairs, fields and lists of words.

use m36_word::{Field, Half, NoMemory, Pair, Word, Words};

/// A number, and the value of the word made of it; none if it has more than 36 bits.
const WORDS: &[(u64, Option<u64>)] = &[
    (0, Some(0)),
    (0o777777777777, Some(68_719_476_735)),
    (0o1000000000000, None),
    (u64::MAX, None),
];

/// A number, and the value of the half word made of it; none if it has more than 18 bits.
const HALVES: &[(u32, Option<u32>)] = &[(0o777777, Some(262_143)), (0o1000000, None)];

/// The bits of a word, and its value as a signed number.
const SIGNED: &[(u64, i64)] = &[
    (0, 0),
    (0o377777777777, 34_359_738_367),
    (0o400000000000, -34_359_738_368),
    (0o777777777775, -3),
    (0o777777777777, -1),
];

/// A number, and its last 36 bits as a word.
const LAST_BITS: &[(i128, u64)] = &[
    (34_359_738_367, 0o377777777777),
    (-34_359_738_368, 0o400000000000),
    (-3, 0o777777777775),
    (34_359_738_368, 0o400000000000),
    (-68_719_476_737, 0o777777777777),
    (i128::MIN, 0),
];

/// The even and odd word of a pair, and its value as an unsigned and as a signed number.
const PAIRS: &[(u64, u64, u128, i128)] = &[
    (0, 1, 1, 1),
    (1, 0, 1 << 36, 1 << 36),
    (0o400000000000, 0, 1 << 71, -(1 << 71)),
    (0o777777777777, 0o777777777777, (1 << 72) - 1, -1),
];

fn word(value: u64) -> Word {
    Word::low(value)
}

fn is_value(number: u64, value: Option<u64>) -> bool {
    match Word::new(number) {
        Some(word) => value == Some(word.value()),
        None => value == None,
    }
}

#[test]
fn values_of_words(rt: HostRuntime) {
    for (number, value) in WORDS {
        assert!(rt; is_value(*number, *value), "at {number:o}");
    }
}

fn is_value_of_half(number: u32, value: Option<u32>) -> bool {
    match Half::new(number) {
        Some(half) => value == Some(half.value()),
        None => value == None,
    }
}

#[test]
fn values_of_halves(rt: HostRuntime) {
    for (number, value) in HALVES {
        assert!(rt; is_value_of_half(*number, *value), "at {number:o}");
    }
}

#[test]
fn signed_numbers(rt: HostRuntime) {
    for (bits, number) in SIGNED {
        assert!(rt; word(*bits).signed() == *number, "at {bits:o}");
    }
}

#[test]
fn last_bits(rt: HostRuntime) {
    for (number, bits) in LAST_BITS {
        assert!(rt; Word::of_signed(*number) == word(*bits), "at {bits:o}");
    }
}

/// Whether the pair has these two values, and is made again from the unsigned one plus 2^72.
fn has_values(even: u64, odd: u64, value: u128, signed: i128) -> bool {
    let pair = Pair {
        even: word(even),
        odd: word(odd),
    };
    pair.value() == value
        && pair.signed() == signed
        && Pair::of_value(value.wrapping_add(1 << 72)) == pair
}

#[test]
fn pairs(rt: HostRuntime) {
    for (even, odd, value, signed) in PAIRS {
        assert!(rt; has_values(*even, *odd, *value, *signed), "at {even:o}");
    }
}

/// Fields read from the two words of a segment descriptor, and their expected values. The even
/// word has the address octal 10000, the rings 4 4 4, and is present; the odd word has the bound
/// octal 77, and is readable and writable.
fn got(even: Word, odd: Word) -> [(u64, u64); 8] {
    [
        (Field::<0, 24>::get(even), 0o10000),
        (Field::<24, 3>::get(even), 4),
        (Field::<33, 1>::get(even), 1),
        (Field::<34, 2>::get(even), 0),
        (Field::<1, 14>::get(odd), 0o77),
        (Field::<15, 1>::get(odd), 1),
        (Field::<16, 1>::get(odd), 0),
        (Field::<0, 36>::get(odd), 0o000775300000),
    ]
}

/// The even word with one field replaced, and the expected bits.
fn put(even: Word) -> [(Word, u64); 4] {
    [
        (Field::<24, 3>::put(even, 7), 0o000100007444),
        (Field::<0, 24>::put(even, 0o77777777), 0o777777774444),
        (Field::<34, 2>::put(even, 3), 0o000100004447),
        (Field::<0, 36>::put(even, 5), 5),
    ]
}

#[test]
fn fields_of_a_descriptor(rt: HostRuntime) {
    for (found, value) in got(word(0o000100004444), word(0o000775300000)) {
        assert!(rt; found == value, "{found:o} for {value:o}");
    }
    for (found, bits) in put(word(0o000100004444)) {
        assert!(rt; found == word(bits), "for {bits:o}");
    }
}

fn are_kept(words: &mut Words) -> Result<bool, NoMemory> {
    for bits in [0o123, 0o777777777777] {
        words.push(word(bits))?;
    }
    Ok(words.slice() == [word(0o123), word(0o777777777777)].as_slice())
}

#[test]
fn words_in_order(rt: HostRuntime) -> Result<(), NoMemory> {
    let mut words = Words::new(rt.alloc());
    let told = are_kept(&mut words);
    // Dropped by a call, so that the drop is proved once for its type.
    drop(words);
    assert!(rt; told?);
    Ok(())
}

#[test]
fn order(rt: HostRuntime) {
    assert!(rt; word(0o377777777777) < word(0o400000000000) && Word::default() == Word::ZERO);
    assert!(rt; Pair::of_value(1) < Pair::of_value(1 << 36) && Half::new(1) < Half::new(0o777777));
}
