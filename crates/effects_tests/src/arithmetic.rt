//! Arithmetic of 18, 36 and 72 bits. Numbers are octal. The letters `z`, `n`, `c` and `o` name the
//! indicators that are on after an operation: zero, negative, carry, overflow.

ghost use Rattle.std.specs.Prelude.{◌<◌, ◌^◌};

use m36_arith::{
    Compare, DivideCheck, Shift, Sum18, Sum36, Sum72, add18, add36, add72, and_not18, and_not36,
    and_not72, and18, and36, and72, cmp18, cmp36, cmp72, div, mul, neg18, neg36, neg72, or18, or36,
    or72, shift36, shift72, sub18, sub36, sub72, xor18, xor36, xor72,
};
use m36_word::{Pair, Word};

fn half(v: u128) -> u32
    ensures { result < 2 ^ 18 }
{
    (v % (1 << 18)) as u32
}

fn word(v: u128) -> Word {
    Word::low((v % (1 << 36)) as u64)
}

fn pair(v: u128) -> Pair {
    Pair::of_value(v)
}

/// Whether `letters` names exactly the indicators that are on.
fn are(letters: &str, zero: bool, negative: bool, carry: bool, overflow: bool) -> bool {
    let on = letters.as_bytes();
    on.contains(&b'z') == zero
        && on.contains(&b'n') == negative
        && on.contains(&b'c') == carry
        && on.contains(&b'o') == overflow
}

/// The result of an operation: its bits as an unsigned number, and the indicators.
#[derive(Clone, Copy)]
struct Found {
    value: u128,
    zero: bool,
    negative: bool,
    carry: bool,
    overflow: bool,
}

fn of_half(s: Sum18) -> Found {
    Found {
        value: s.value as u128,
        zero: s.zero,
        negative: s.negative,
        carry: s.carry,
        overflow: s.overflow,
    }
}

fn of_word(s: Sum36) -> Found {
    Found {
        value: s.value.value() as u128,
        zero: s.zero,
        negative: s.negative,
        carry: s.carry,
        overflow: s.overflow,
    }
}

fn of_pair(s: Sum72) -> Found {
    Found {
        value: s.value.value(),
        zero: s.zero,
        negative: s.negative,
        carry: s.carry,
        overflow: s.overflow,
    }
}

#[derive(Clone, Copy)]
enum Operation {
    Add18,
    Add36,
    Add72,
    Sub18,
    Sub36,
    Sub72,
    Neg18,
    Neg36,
    Neg72,
}

/// An operation, its two numbers, whether a carry or borrow comes in, the result, and the
/// indicators.
const SUMS: &[(Operation, u128, u128, bool, u128, &str)] = &[
    (
        Operation::Add36,
        0o377777777777,
        1,
        false,
        0o400000000000,
        "no",
    ),
    (Operation::Add36, 0o777777777777, 0, true, 0, "zc"),
    (
        Operation::Add36,
        0o400000000000,
        0o400000000000,
        false,
        0,
        "zco",
    ),
    (Operation::Add18, 0o377777, 0, true, 0o400000, "no"),
    (
        Operation::Add72,
        0o777777777777,
        1,
        false,
        0o1_000000000000,
        "",
    ),
    (Operation::Add72, (1 << 71) - 1, 0, true, 1 << 71, "no"),
    (Operation::Sub36, 5, 5, false, 0, "zc"),
    (Operation::Sub36, 5, 5, true, 0o777777777777, "n"),
    (
        Operation::Sub36,
        0o400000000000,
        1,
        false,
        0o377777777777,
        "co",
    ),
    (Operation::Sub18, 0, 0o777777, true, 0, "z"),
    (
        Operation::Sub72,
        0o1_000000000000,
        1,
        false,
        0o777777777777,
        "c",
    ),
    (
        Operation::Neg36,
        0o400000000000,
        0,
        false,
        0o400000000000,
        "no",
    ),
    (Operation::Neg36, 0, 0, false, 0, "zc"),
    (Operation::Neg18, 1, 0, false, 0o777777, "n"),
    (Operation::Neg72, 1 << 71, 0, false, 1 << 71, "no"),
];

fn sum(operation: Operation, x: u128, y: u128, carry: bool) -> Found {
    match operation {
        Operation::Add18 => of_half(add18(half(x), half(y), carry)),
        Operation::Add36 => of_word(add36(word(x), word(y), carry)),
        Operation::Add72 => of_pair(add72(pair(x), pair(y), carry)),
        Operation::Sub18 => of_half(sub18(half(x), half(y), carry)),
        Operation::Sub36 => of_word(sub36(word(x), word(y), carry)),
        Operation::Sub72 => of_pair(sub72(pair(x), pair(y), carry)),
        Operation::Neg18 => of_half(neg18(half(x))),
        Operation::Neg36 => of_word(neg36(word(x))),
        Operation::Neg72 => of_pair(neg72(pair(x))),
    }
}

/// The width in bits, a shift, the number, the count, the result, and the indicators.
const SHIFTS: &[(u8, Shift, u128, u32, u128, &str)] = &[
    (36, Shift::Left, 0o200000000000, 1, 0o400000000000, "nc"),
    (36, Shift::Left, 1, 36, 0, "zc"),
    (36, Shift::Left, 0o777777777777, 0, 0o777777777777, "n"),
    (36, Shift::Right, 0o400000000000, 1, 0o600000000000, "n"),
    (36, Shift::Right, 0o400000000000, 127, 0o777777777777, "n"),
    (36, Shift::RightZero, 0o400000000000, 35, 1, ""),
    (36, Shift::Rotate, 0o400000000001, 1, 3, ""),
    (36, Shift::Rotate, 0o400000000000, 37, 1, ""),
    (72, Shift::Left, 0o400000000000, 1, 0o1_000000000000, ""),
    (72, Shift::Right, 1 << 71, 71, (1 << 72) - 1, "n"),
    (72, Shift::RightZero, 1 << 71, 36, 0o400000000000, ""),
    (72, Shift::Rotate, (1 << 71) + 1, 73, 3, ""),
];

fn shift(bits: u8, shift: Shift, v: u128, count: u32) -> Found {
    let count = count % 128;
    if bits == 36 {
        of_word(shift36(shift, word(v), count))
    } else {
        of_pair(shift72(shift, pair(v), count))
    }
}

/// Whether the result is `value` with the indicators that `letters` names.
fn is_found(found: Found, value: u128, letters: &str) -> bool {
    found.value == value
        && are(
            letters,
            found.zero,
            found.negative,
            found.carry,
            found.overflow,
        )
}

#[test]
fn sums_come_to(rt: HostRuntime) {
    for (operation, x, y, carry, value, letters) in SUMS {
        assert!(rt;
            is_found(sum(*operation, *x, *y, *carry), *value, letters),
            "{x:o} {y:o} to {value:o}"
        );
    }
}

#[test]
fn shifts_come_to(rt: HostRuntime) {
    for (bits, kind, v, count, value, letters) in SHIFTS {
        assert!(rt;
            is_found(shift(*bits, *kind, *v, *count), *value, letters),
            "{v:o} by {count} to {value:o}"
        );
    }
}

/// The width in bits, the two numbers compared, and the indicators.
const COMPARISONS: &[(u8, u128, u128, &str)] = &[
    (36, 0o400000000000, 1, "nc"),
    (36, 7, 7, "zc"),
    (18, 0o400000, 1, "nc"),
    (72, 1 << 71, 1, "nc"),
    (72, 0o1_000000000002, 0o1_000000000002, "zc"),
];

fn comparison(bits: u8, x: u128, y: u128) -> Compare {
    match bits {
        18 => cmp18(half(x), half(y)),
        36 => cmp36(word(x), word(y)),
        _ => cmp72(pair(x), pair(y)),
    }
}

/// Two factors, and their product.
const PRODUCTS: &[(u128, u128, u128)] = &[
    (0o400000000000, 0o400000000000, 1 << 70),
    (0o777777777777, 3, (1 << 72) - 3),
    (0o777777777777, 0, 0),
];

/// A dividend, a divisor, and the quotient and remainder; none for a divide check.
const QUOTIENTS: &[(u128, u128, Option<(u64, u64)>)] = &[
    (7, 0o777777777775, Some((0o777777777776, 1))),
    (0o777777777771, 3, Some((0o777777777776, 0o777777777777))),
    (0o400000000000, 1, Some((0o400000000000, 0))),
    (7, 0, None),
    (0o400000000000, 0o777777777777, None),
];

fn quotient(q: u128, y: u128) -> Option<(u64, u64)> {
    match div(word(q), word(y)) {
        Ok((quotient, remainder)) => Some((quotient.value(), remainder.value())),
        Err(DivideCheck) => None,
    }
}

fn compares(bits: u8, x: u128, y: u128, letters: &str) -> bool {
    let found = comparison(bits, x, y);
    are(letters, found.zero, found.negative, found.carry, false)
}

#[test]
fn comparisons_come_to(rt: HostRuntime) {
    for (bits, x, y, letters) in COMPARISONS {
        assert!(rt; compares(*bits, *x, *y, letters), "{x:o} {y:o}");
    }
}

#[test]
fn products_come_to(rt: HostRuntime) {
    for (x, y, product) in PRODUCTS {
        assert!(rt; mul(word(*x), word(*y)).value() == *product, "{x:o} {y:o}");
    }
}

#[test]
fn quotients_come_to(rt: HostRuntime) {
    for (q, y, expected) in QUOTIENTS {
        assert!(rt; quotient(*q, *y) == *expected, "{q:o} {y:o}");
    }
}

#[derive(Clone, Copy)]
enum Boolean {
    And,
    Or,
    Xor,
    AndNot,
}

/// The width in bits, an operation, its two numbers, and the result.
const BOOLEANS: &[(u8, Boolean, u128, u128, u128)] = &[
    (36, Boolean::And, 0o1100, 0o1010, 0o1000),
    (36, Boolean::Or, 0o1100, 0o1010, 0o1110),
    (36, Boolean::Xor, 0o1100, 0o1010, 0o0110),
    (36, Boolean::AndNot, 0o1100, 0o1010, 0o0100),
    (
        72,
        Boolean::And,
        0o777777777777_000000001100,
        0o1_000000001010,
        0o1_000000001000,
    ),
    (
        72,
        Boolean::Or,
        0o2_000000001100,
        0o1_000000001010,
        0o3_000000001110,
    ),
    (
        72,
        Boolean::Xor,
        0o777777777777_000000001100,
        0o777777777777_000000001010,
        0o0110,
    ),
    (
        72,
        Boolean::AndNot,
        0o777777777777_000000001100,
        0o377777777777_000000001010,
        (1 << 71) + 0o0100,
    ),
    (18, Boolean::And, 0o777777, 0o1010, 0o1010),
    (18, Boolean::Or, 0o1100, 0o1010, 0o1110),
    (18, Boolean::Xor, 0o777777, 0o1010, 0o776767),
    (18, Boolean::AndNot, 0o1100, 0o1010, 0o0100),
];

fn of_halves(operation: Boolean, x: u32, y: u32) -> u32
    requires x { x < 2 ^ 18 }
    requires y { y < 2 ^ 18 }
{
    match operation {
        Boolean::And => and18(x, y),
        Boolean::Or => or18(x, y),
        Boolean::Xor => xor18(x, y),
        Boolean::AndNot => and_not18(x, y),
    }
}

fn of_words(operation: Boolean, x: Word, y: Word) -> Word {
    match operation {
        Boolean::And => and36(x, y),
        Boolean::Or => or36(x, y),
        Boolean::Xor => xor36(x, y),
        Boolean::AndNot => and_not36(x, y),
    }
}

fn of_pairs(operation: Boolean, x: Pair, y: Pair) -> Pair {
    match operation {
        Boolean::And => and72(x, y),
        Boolean::Or => or72(x, y),
        Boolean::Xor => xor72(x, y),
        Boolean::AndNot => and_not72(x, y),
    }
}

fn result_of(bits: u8, operation: Boolean, x: u128, y: u128) -> u128 {
    match bits {
        18 => of_halves(operation, half(x), half(y)) as u128,
        36 => of_words(operation, word(x), word(y)).value() as u128,
        _ => of_pairs(operation, pair(x), pair(y)).value(),
    }
}

#[test]
fn booleans_come_to(rt: HostRuntime) {
    for (bits, operation, x, y, value) in BOOLEANS {
        assert!(rt;
            result_of(*bits, *operation, *x, *y) == *value,
            "{x:o} {y:o} to {value:o}"
        );
    }
}
