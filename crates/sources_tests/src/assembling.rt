//! The assembler: sources with their objects, and sources that are refused.

use alm_asm::assemble;
use alm_parse::{AlmFault, parse};
use m36_word::Word;
use obj36::{Named, Object, Parts, Reloc};
use std::alloc::{AllocError, Global};

// The object of a source. A source of over 2^17 bytes answers `NoMemory`.
fn object_of(alloc: Global, source: &[u8]) -> Result<Object, AlmFault> {
    if source.len() > 1 << 17 {
        return Err(AlmFault::NoMemory);
    }
    let lines = parse(alloc, source)?;
    assemble(alloc, &lines)
}

fn are(words: &[Word], expected: &[u64]) -> bool {
    for (word, number) in words.iter().zip(expected) {
        if word.value() != *number {
            return false;
        }
    }
    words.len() == expected.len()
}

/// What an object is expected to have.
#[derive(Clone, Copy)]
enum Expected<'a> {
    /// These words.
    Words(&'a [u64]),
    /// This text section.
    Text(&'a [u64]),
    /// The parts of `PARTS`.
    Parts,
}

fn is_written_as(alloc: Global, object: &Object, expected: &[u64]) -> bool {
    match object.write(alloc) {
        Ok(words) => are(words.slice(), expected),
        Err(_) => false,
    }
}

fn is_as_expected(alloc: Global, object: &Object, due: Expected) -> bool {
    match due {
        Expected::Words(expected) => is_written_as(alloc, object, expected),
        Expected::Text(expected) => are(object.parts().text.slice(), expected),
        Expected::Parts => are_right(object.parts()),
    }
}

// Whether an object is as expected. Drops the object.
fn drops_as_expected(alloc: Global, object: Object, due: Expected) -> bool {
    let told = is_as_expected(alloc, &object, due);
    // Dropped by a call, so that the drop is proved once for its type.
    drop(object);
    told
}

fn makes(alloc: Global, source: &[u8], due: Expected) -> bool {
    match object_of(alloc, source) {
        Ok(object) => drops_as_expected(alloc, object, due),
        Err(_) => false,
    }
}

/// A source, and all words of its object.
const OBJECTS: &[(&[u8], &[u64])] = &[
    (
        b"",
        &[
            0, 0, 0, 0o10000000, 0, 0, 0, 0, 0, 0, 0, 1, 0, 2, 0o2000010, 0o12000001, 0, 0o13000000,
        ],
    ),
    (
        b" use static\ncnt: dec 5\n",
        &[
            0, 0, 0, 0o10000000, 0, 0, 0, 0, 0, 0, 5, 0, 2, 0, 2, 0o2000010, 0o12000001,
            0o13000001, 0, 0o14000000,
        ],
    ),
];

#[test]
fn objects(rt: HostRuntime) {
    for (source, expected) in OBJECTS {
        assert!(rt;
            makes(rt.alloc(), source, Expected::Words(expected)),
            "{source:?}"
        );
    }
}

/// A source, and the text section of its object.
const TEXTS: &[(&[u8], &[u64])] = &[
    (
        b" entry start\nstart: epaq 0,ic\n lprp4 pr7|22,*au\n epp2 msg\n lda 6,dl\n stcd pr6|20\n call6 con_$write\n call6 con_$stop\nmsg: aci \"hell\"\n oct 157012000000\n",
        &[
            0o000000213004,
            0o700026764161,
            0o000007352000,
            0o000006235007,
            0o600024357100,
            0o400010713120,
            0o400012713120,
            0o150145154154,
            0o157012000000,
        ],
    ),
    (
        b" entry write,stop\nwrite: tra wr\nstop: dis 0\n entrybound\nwr: mme 0\n rtcd pr6|20\n",
        &[
            0o000002710000,
            0o000000616000,
            0o000000001000,
            0o600024610100,
        ],
    ),
    (
        b" use link\ncnt: dec 5\n use text\n entry go\ngo: aos pr4|cnt\n lda b$x\n",
        &[0o400010054100, 0o400012235120],
    ),
    (b" lda pr6|5,*\n", &[0o600005235120]),
    (b" equ top,262143\n lda top\n", &[0o777777235000]),
    (
        b" lda a$b\n lda a$b\n ldq *text$+5,x1\n lda a$b+1\n",
        &[
            0o400010235120,
            0o400010235120,
            0o400012236120,
            0o400014235120,
        ],
    ),
    (
        b" lda\na: even\n bss b,2\n zero b-a,-1\n lda -1,dl\n lda pr0|-1\n lda *\n",
        &[
            0o000000235000,
            0,
            0,
            0,
            0o000001777777,
            0o777777235007,
            0o077777235100,
            0o000007235000,
        ],
    ),
    (b" epp1 d_$+9\n", &[0o400010351520]),
    (b" lda x\nx: end\n lda x\n", &[0o000001235000]),
];

#[test]
fn texts(rt: HostRuntime) {
    for (source, expected) in TEXTS {
        assert!(rt;
            makes(rt.alloc(), source, Expected::Text(expected)),
            "{source:?}"
        );
    }
}

// Whether a source is refused with this fault.
fn refuses(alloc: Global, source: &[u8], fault: AlmFault) -> bool {
    object_of(alloc, source).err() == Some(fault)
}

/// A source that is refused, and its fault.
const REFUSED: &[(&[u8], AlmFault)] = &[
    (b"a: nop 0\na: nop 0\n", AlmFault::E5(2, 1)),
    (b" entry a,a\na: nop 0\n", AlmFault::E5(1, 10)),
    (b"a: bss a,2\n", AlmFault::E5(1, 8)),
    (b" equ a,1\na: nop 0\n", AlmFault::E5(2, 1)),
    (b" entry a\n segdef a\na: nop 0\n", AlmFault::E5(2, 9)),
    (b" lda b\n", AlmFault::E6(1, 6)),
    (b" equ a,b\nb: nop 0\n", AlmFault::E6(1, 8)),
    (b" lda 1+b-c\n", AlmFault::E6(1, 8)),
    (b" lda pr0|big-20000\n equ big,b\n", AlmFault::E6(2, 10)),
    (
        b" equ big,b\n equ a,big-200000\n lda pr0|a+20000\n",
        AlmFault::E6(1, 10),
    ),
    (
        b" lda a$b+big-200000\n equ big,200000+100000\n",
        AlmFault::E7(2, 10),
    ),
    (
        b" zero big-200000,0-200000\n equ big,b\n",
        AlmFault::E7(1, 18),
    ),
    (b" entry x\n", AlmFault::E6(1, 8)),
    (b" zero 0,b\n", AlmFault::E6(1, 9)),
    (b" lda a$b-5+x\n", AlmFault::E6(1, 12)),
    (b" lda b\na: nop 0\na: nop 0\n", AlmFault::E6(1, 6)),
    (b" lda -131072-1\n", AlmFault::E7(1, 6)),
    (b" lda 262143+1\n", AlmFault::E7(1, 6)),
    (b" lda pr1|16384\n", AlmFault::E7(1, 10)),
    (b" lda pr1|-16385\n", AlmFault::E7(1, 10)),
    (b"a: nop 0\nb: nop 0\n lda a+b\n", AlmFault::E7(3, 6)),
    (b"a: nop 0\n lda -a\n", AlmFault::E7(2, 6)),
    (b" use link\n lda 5\n", AlmFault::E7(2, 2)),
    (b" use static\n lda 5\n", AlmFault::E7(2, 2)),
    (b" use link\n use static\n", AlmFault::E7(2, 2)),
    (b" use static\n use text\n use link\n", AlmFault::E7(3, 2)),
    (b" lda *static$\n", AlmFault::E7(1, 6)),
    (b" equ a,5\n entry a\n", AlmFault::E7(2, 8)),
    (b" use link\na: dec 1\n entry a\n", AlmFault::E7(3, 8)),
    (b" segdef a\n equ a,1\n", AlmFault::E7(1, 9)),
    (b" lda b$+lab\nlab: nop 0\n", AlmFault::E7(1, 9)),
    (b"lab: nop 0\n equ a,lab\n", AlmFault::E7(2, 8)),
    (b" equ a,131072+131072\n lda a\n", AlmFault::E7(1, 8)),
    (b" lda a$b-262143-1\n", AlmFault::E7(1, 10)),
    (b" bss a,258048\n nop 0\n", AlmFault::E8(2, 1)),
    (b" use link\n bss a,258041\n", AlmFault::E8(2, 1)),
    (b" use static\n bss a,258049\n", AlmFault::E8(2, 1)),
    (
        b" use link\n bss a,258040\n use text\n lda b$c\n",
        AlmFault::E8(4, 1),
    ),
    (
        b" use link\n bss a,258040\n use text\n lda b$c+q\n",
        AlmFault::E6(4, 10),
    ),
    (
        b" use link\n bss a,20000\n use text\n lda b$c\n",
        AlmFault::E7(4, 6),
    ),
    (
        b" use link\n bss a,20000\n use text\n lda b$c-262143\n",
        AlmFault::E7(4, 10),
    ),
    (
        b" bss a,258048\n use link\n bss b,258048\n",
        AlmFault::E8(3, 1),
    ),
];

#[test]
fn refusals(rt: HostRuntime) {
    for (source, fault) in REFUSED {
        assert!(rt; refuses(rt.alloc(), source, *fault), "{source:?}");
    }
}

// Seventy symbols, each defined as twice the one before it plus one. The first one is refused.
fn doublings(alloc: Global) -> Result<String, AllocError> {
    let mut source = String::from_str(alloc, " equ s0,nosuch\n")?;
    for i in 0..70u8 {
        let next = i + 1;
        source.push_str(&format!(in alloc; " equ s{next},s{i}+s{i}+1\n")?)?;
    }
    Ok(source)
}

#[test]
fn sums_on_a_refused_one(rt: HostRuntime) -> Result<(), AllocError> {
    let source = doublings(rt.alloc())?;
    assert!(rt; refuses(rt.alloc(), source.as_bytes(), AlmFault::E6(1, 9)));
    Ok(())
}

// As many links as an instruction can reach, after an operand whose symbol is refused.
fn links_in_reach(alloc: Global) -> Result<String, AllocError> {
    let mut source = String::from_str(alloc, " lda s$+e\n")?;
    for i in 1..8189u16 {
        source.push_str(&format!(in alloc; " lda s$+{i}\n")?)?;
    }
    source.push_str(" equ e,nosuch\n end\n")?;
    Ok(source)
}

#[test]
fn no_link_on_a_refused_one(rt: HostRuntime) -> Result<(), AllocError> {
    let source = links_in_reach(rt.alloc())?;
    assert!(rt; refuses(rt.alloc(), source.as_bytes(), AlmFault::E6(8190, 8)));
    Ok(())
}

const PARTS: &[u8] =
    b" segdef c,b\n entry a\na: zero a,c+5\nb: lda pr1|a\n entrybound\n lda x$y\n use link\nc: zero 0,b-a\n zero c,0\n dec -1\n";

/// The static words of `PARTS`.
const STATICS: &[u64] = &[1, 0o10000000, 0o777777777777, 0];

/// The value of each definition of `PARTS`, and whether it is an entry.
const DEFINITIONS: &[(u32, bool)] = &[(8, false), (1, false), (0, true)];

/// The offset of each relocation of `PARTS`, and its part of the word.
const RELOCATIONS: &[(u32, u8)] = &[(0, 0), (0, 1), (1, 2), (2, 2), (9, 0)];

fn are_defined(found: &[Named], expected: &[(u32, bool)]) -> bool {
    for (Named { def, .. }, (value, is_entry)) in found.iter().zip(expected) {
        if def.value != *value || def.is_entry != *is_entry {
            return false;
        }
    }
    found.len() == expected.len()
}

fn are_marked(found: &[Reloc], expected: &[(u32, u8)]) -> bool {
    for (mark, (offset, part)) in found.iter().zip(expected) {
        if mark.offset != *offset || mark.part != *part {
            return false;
        }
    }
    found.len() == expected.len()
}

fn are_right(parts: &Parts) -> bool {
    parts.entry_bound == 2
        && parts.version == 1
        && are(parts.statics.slice(), STATICS)
        && are_defined(parts.definitions.items(), DEFINITIONS)
        && are_marked(parts.relocations.items(), RELOCATIONS)
}

#[test]
fn parts(rt: HostRuntime) {
    assert!(rt; makes(rt.alloc(), PARTS, Expected::Parts));
}
