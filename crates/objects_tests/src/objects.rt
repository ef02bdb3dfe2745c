//! Objects as lists of words, and changes of a word with which they are refused.

use m36_word::{NoMemory, Word, Words};
use obj36::{Object, ObjectFault, Section, object_laws};
use std::alloc::Global;

/// The object of an empty source.
const EMPTY: &[u64] = &[
    0o000000000000,
    0o000000000000,
    0o000000000000,
    0o000010000000,
    0o000000000000,
    0o000000000000,
    0o000000000000,
    0o000000000000,
    0o000000000000,
    0o000000000000,
    0o000000000000,
    0o000000000001,
    0o000000000000,
    0o000000000002,
    0o000002000010,
    0o000012000001,
    0o000000000000,
    0o000013000000,
];

/// Version 2: one static word, in the static section.
const COUNTER: &[u64] = &[
    0o000000000000,
    0o000000000000,
    0o000000000000,
    0o000010000000,
    0o000000000000,
    0o000000000000,
    0o000000000000,
    0o000000000000,
    0o000000000000,
    0o000000000000,
    0o000000000005,
    0o000000000000,
    0o000000000002,
    0o000000000000,
    0o000000000002,
    0o000002000010,
    0o000012000001,
    0o000013000001,
    0o000000000000,
    0o000014000000,
];

/// Version 1: the entry `go`, the static word `cnt`, and links to `b$x` and to its own entry `go`.
const CALLER: &[u64] = &[
    0o400010054100,
    0o400012235120,
    0o400014235120,
    0o000002000002,
    0o000006000002,
    0o000004000010,
    0o000000000012,
    0o000000000001,
    0o000010000013,
    0o000004000014,
    0o000015000000,
    0o000005000000,
    0o000012000002,
    0o002147157000,
    0o003143156164,
    0o001142000000,
    0o001170000000,
    0o000000000000,
    0o000012000002,
    0o000000000000,
    0o000000000000,
    0o000000000000,
    0o000000000000,
    0o000000000000,
    0o000000000000,
    0o000000000005,
    0o000000000000,
    0o777766000046,
    0o000006000020,
    0o777764000046,
    0o000010000000,
    0o000000000003,
    0o000000021000,
    0o000001021000,
    0o000002021000,
    0o000000000001,
    0o000000000003,
    0o000003000016,
    0o000021000016,
    0o000037000004,
    0o000001000000,
    0o000043000000,
];

/// Version 2: as `CALLER`, but with links to `b$` and to its own static section.
const NEWER: &[u64] = &[
    0o400000054100,
    0o400010235120,
    0o400012235120,
    0o000002000002,
    0o000006000002,
    0o000004000010,
    0o000000000012,
    0o000000000003,
    0o000000000013,
    0o000003000014,
    0o000000000003,
    0o000001000002,
    0o000000000000,
    0o002147157000,
    0o003143156164,
    0o001142000000,
    0o000000000000,
    0o000010000002,
    0o000000000000,
    0o000000000000,
    0o000000000000,
    0o000000000000,
    0o000000000000,
    0o000000000000,
    0o777770000046,
    0o000006000011,
    0o777766000046,
    0o000010000000,
    0o000000000005,
    0o000000000003,
    0o000000022000,
    0o000001021000,
    0o000002021000,
    0o000000000002,
    0o000000000003,
    0o000003000015,
    0o000020000014,
    0o000034000001,
    0o000035000004,
    0o000001000000,
    0o000041000000,
];

/// A change of one word: its index, its new value, and the fault with which the words are refused.
type Change = (usize, u64, ObjectFault);

const OF_EMPTY: &[Change] = &[
    (17, 0o000012000000, ObjectFault::O2(10)),
    (17, 0o000013000001, ObjectFault::O2(17)),
    (17, 0o000014000000, ObjectFault::O2(17)),
    (11, 0o000000000002, ObjectFault::O2(11)),
    (16, 0o000001000000, ObjectFault::O2(16)),
    (13, 0o000000000001, ObjectFault::O3(13)),
    (15, 0o000012000002, ObjectFault::O3(15)),
    (14, 0o000001000010, ObjectFault::O4(1)),
    (0, 0o000002000001, ObjectFault::O5(0)),
    (3, 0o000010000001, ObjectFault::O7(3)),
    (5, 0o000000000001, ObjectFault::O8(0)),
    (10, 0o000000000001, ObjectFault::O8(0)),
];

const OF_CALLER: &[Change] = &[
    // The chain of definitions is a cycle; then its count is one too small.
    (7, 0o000002000001, ObjectFault::O5(3)),
    (3, 0o000002000001, ObjectFault::O5(3)),
    // The last definition leads past the section.
    (7, 0o000777000001, ObjectFault::O5(7)),
    // The expressions leave the section.
    (4, 0o000015000002, ObjectFault::O5(4)),
    // A definition of the class static, which version 1 does not have.
    (7, 0o000000000003, ObjectFault::O5(7)),
    // Both definitions have the same name: stored once, stored twice, stored twice with other
    // padding.
    (8, 0o000010000012, ObjectFault::O5(13)),
    (14, 0o002147157000, ObjectFault::O5(13)),
    (14, 0o002147157001, ObjectFault::O5(13)),
    // Names: with a wrong character, with padding that is not zero, empty, and twice past the
    // section.
    (14, 0o003143156055, ObjectFault::O6(14)),
    (15, 0o001142000001, ObjectFault::O6(15)),
    (16, 0o000000000000, ObjectFault::O6(16)),
    (9, 0o000004000077, ObjectFault::O6(9)),
    (12, 0o000077000002, ObjectFault::O6(12)),
    // The section static in version 1, an unknown type, a link with the expression of another link,
    // and a first link after an odd number of static words.
    (11, 0o000005000002, ObjectFault::O7(11)),
    (11, 0o000002000000, ObjectFault::O7(11)),
    (28, 0o000010000020, ObjectFault::O7(27)),
    (18, 0o000013000002, ObjectFault::O7(18)),
    // Two relocations of the same part, and a relocation past the section's words.
    (33, 0o000000021000, ObjectFault::O8(0)),
    (34, 0o000003021000, ObjectFault::O8(0)),
];

const OF_NEWER: &[Change] = &[
    // A class above static, a section above static, a linkage section with other words than its
    // head and links, and an unused field that is not zero.
    (7, 0o000000000004, ObjectFault::O5(7)),
    (11, 0o000001000003, ObjectFault::O7(11)),
    (17, 0o000012000002, ObjectFault::O7(17)),
    (10, 0o000013000003, ObjectFault::O8(0)),
];

fn are_words(words: &[Word], values: &[u64]) -> bool {
    for (word, value) in words.iter().zip(values) {
        if word.value() != *value {
            return false;
        }
    }
    words.len() == values.len()
}

// Appends the words of `values`, one of them changed if asked for.
fn fill(words: &mut Words, values: &[u64], change: Option<(usize, u64)>) -> Result<(), NoMemory> {
    for (i, old) in values.iter().enumerate() {
        let value = match change {
            Some((place, value)) if place == i => value,
            _ => *old,
        };
        words.push(Word::low(value))?;
    }
    Ok(())
}

// The words of `values`, one of them changed if asked for.
fn changed(alloc: Global, values: &[u64], change: Option<(usize, u64)>) -> Result<Words, NoMemory> {
    let mut words = Words::new(alloc);
    match fill(&mut words, values, change) {
        Ok(()) => Ok(words),
        Err(error) => {
            // Dropped by a call, so that the drop is proved once for its type; also below.
            drop(words);
            Err(error)
        }
    }
}

// The words of `values`.
pub(crate) fn words_of(alloc: Global, values: &[u64]) -> Result<Words, NoMemory> {
    changed(alloc, values, None)
}

/// The object that the words encode, or the fault. A list of over 1000 words answers `NoMemory`.
fn read_as(alloc: Global, words: &[Word]) -> Result<Object, ObjectFault> {
    if words.len() > 1000 {
        return Err(ObjectFault::NoMemory);
    }
    Object::read(alloc, words)
}

/// The expected result of reading words.
#[derive(Clone, Copy)]
enum Expected<'a> {
    /// An object that encodes to these words.
    Words(&'a [u64]),
    /// The object of `CALLER`.
    Caller,
    /// A refusal with this fault.
    Refused(ObjectFault),
}

fn is_written_as(alloc: Global, object: &Object, values: &[u64]) -> bool {
    match object.write(alloc) {
        Ok(words) => {
            let told = are_words(words.slice(), values);
            drop(words);
            told
        }
        Err(_) => false,
    }
}

fn has_numbers_of_caller(object: &Object) -> bool {
    object.definition_length() == 14
        && object.entry_bound() == 1
        && object.parts().relocations.items().len() == 3
        && object.links().len() == 2
}

fn has_sections_of_caller(object: &Object) -> bool {
    let linkage = CALLER.get(17..31).unwrap_or_default();
    are_words(object.section(Section::Linkage), linkage)
        && object.section(Section::Static).is_empty()
}

fn has_names_of_caller(object: &Object) -> bool {
    matches!(object.find(b"cnt"), Some(def) if def.value == 8) && object.find(b"co").is_none()
}

fn is_caller(object: &Object) -> bool {
    has_numbers_of_caller(object) && has_sections_of_caller(object) && has_names_of_caller(object)
}

fn is_as_expected(alloc: Global, object: &Object, due: Expected) -> bool {
    match due {
        Expected::Words(values) => is_written_as(alloc, object, values),
        Expected::Caller => is_caller(object),
        Expected::Refused(_) => false,
    }
}

// Whether an object is as expected. Drops the object.
fn drops_as_expected(alloc: Global, object: Object, due: Expected) -> bool {
    let told = is_as_expected(alloc, &object, due);
    drop(object);
    told
}

fn is_refused(fault: ObjectFault, due: Expected) -> bool {
    matches!(due, Expected::Refused(expected) if expected == fault)
}

// Whether reading the words gives the expected result.
fn answers(alloc: Global, words: &[Word], due: Expected) -> bool {
    match read_as(alloc, words) {
        Ok(object) => drops_as_expected(alloc, object, due),
        Err(fault) => is_refused(fault, due),
    }
}

// As `answers`, for the words of `values`, one of them changed if asked for.
fn are_answered(
    alloc: Global,
    values: &[u64],
    change: Option<(usize, u64)>,
    due: Expected,
) -> Result<bool, NoMemory> {
    let words = changed(alloc, values, change)?;
    let told = answers(alloc, words.slice(), due);
    drop(words);
    Ok(told)
}

#[test]
fn values_of_a_caller(rt: HostRuntime) -> Result<(), NoMemory> {
    assert!(rt; are_answered(rt.alloc(), CALLER, None, Expected::Caller)?);
    object_laws();
    Ok(())
}

#[test]
fn objects_are_read(rt: HostRuntime) -> Result<(), NoMemory> {
    for values in [EMPTY, COUNTER, CALLER, NEWER].iter() {
        assert!(rt; are_answered(rt.alloc(), values, None, Expected::Words(values))?);
    }
    Ok(())
}

// Whether the changed words are refused with the fault of the change.
fn are_refused(alloc: Global, values: &[u64], change: Change) -> Result<bool, NoMemory> {
    let (place, value, fault) = change;
    are_answered(
        alloc,
        values,
        Some((place, value)),
        Expected::Refused(fault),
    )
}

// The index of the first change with which the words are not refused as expected, if there is one.
fn first_not_refused(
    alloc: Global,
    values: &[u64],
    changes: &[Change],
) -> Result<Option<usize>, NoMemory> {
    for change in changes {
        if !are_refused(alloc, values, *change)? {
            return Ok(Some(change.0));
        }
    }
    Ok(None)
}

#[test]
fn changes_are_refused(rt: HostRuntime) -> Result<(), NoMemory> {
    for (values, changes) in [(EMPTY, OF_EMPTY), (CALLER, OF_CALLER), (NEWER, OF_NEWER)].iter() {
        assert!(rt; first_not_refused(rt.alloc(), values, changes)?.is_none());
    }
    Ok(())
}

#[test]
fn few_words_are_refused(rt: HostRuntime) -> Result<(), NoMemory> {
    let few = EMPTY.get(..6).unwrap_or_default();
    assert!(rt; are_answered(rt.alloc(), few, None, Expected::Refused(ObjectFault::O1(6)))?);
    Ok(())
}
