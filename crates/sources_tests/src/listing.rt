//! Disassembly, prints and listings.

use alm_parse::{Lines36, parse};
use m36_list::{disassemble, disassembly_laws, listing, print};
use m36_outside::Text;
use m36_text::{HashSeed, Name};
use m36_word::{NoMemory, Word, Words};
use obj36::{Def, Defs, Link, Links, Named, Object, Parts, Reloc, Relocs, Section};
use std::alloc::Global;

/// A word, and its disassembly.
const WORDS: &[(u64, &str)] = &[
    (0o600005235120, "lda pr6|5,*"),
    (0o700026764161, "lprp4 pr7|22,*au"),
    (0o000000213004, "epaq 0,ic"),
    (0o000007352000, "epp2 7"),
    (0o000006235007, "lda 6,dl"),
    (0o400010713120, "call6 pr4|8,*"),
    (0o777777235000, "lda 262143"),
    (0o000010235056, "lda 8,id"),
    (0o000010235044, "lda 8,sd"),
    (0o000010235051, "lda 8,i"),
    (0o000010235053, "lda 8,ad"),
    (0o000010235054, "lda 8,di"),
    (0o000010235040, "oct 000010235040"),
    (0o000010235046, "oct 000010235046"),
    (0o077777350500, "epbp0 pr0|-1"),
    (0o040000350100, "epp0 pr0|-16384"),
    (0o137777351500, "epp1 pr1|16383"),
    (0o000012604410, "tmoz 10,x0"),
    (0o000012604420, "tmoz 10,*"),
    (0o000012604460, "tmoz 10,*n"),
    (0o000012604437, "tmoz 10,x7*"),
    (0o000012604477, "tmoz 10,*x7"),
    (0o000012604610, "oct 000012604610"),
    (0o000000000000, "oct 000000000000"),
    (0o777777777777, "oct 777777777777"),
];

#[test]
fn words_as_instructions(rt: HostRuntime) {
    for (word, text) in WORDS {
        assert_eq!(rt; disassemble(Word::low(*word)).as_str(), *text, "at {word}");
    }
    disassembly_laws();
}

/// The parts of an object. All its definitions have the value 0.
struct Sample {
    text: &'static [u64],
    statics: &'static [u64],
    /// Name, section, and whether it is an entry.
    definitions: &'static [(&'static str, Section, bool)],
    /// Segment, entry, added number, type, section and modifier.
    links: &'static [(&'static str, &'static str, u32, u8, Section, u8)],
    /// Offset, section, part and target section.
    relocations: &'static [(u32, Section, u8, Section)],
    entry_bound: u32,
    version: u8,
}

/// The object of an empty source.
const NOTHING: Sample = Sample {
    text: &[],
    statics: &[],
    definitions: &[],
    links: &[],
    relocations: &[],
    entry_bound: 0,
    version: 1,
};

/// Version 2: a call of another object, and a static word of its own.
const COUNTED: Sample = Sample {
    text: &[0o400010713120, 0o000000616000],
    statics: &[5],
    definitions: &[("go", Section::Text, true), ("cnt", Section::Static, false)],
    links: &[
        ("b", "out", 0, 4, Section::Text, 0),
        ("", "cnt", 2, 5, Section::Static, 0o20),
    ],
    relocations: &[(0, Section::Text, 2, Section::Linkage)],
    entry_bound: 1,
    version: 2,
};

/// Version 2: a static word.
const STATIC: Sample = Sample {
    text: &[],
    statics: &[5],
    definitions: &[],
    links: &[],
    relocations: &[],
    entry_bound: 0,
    version: 2,
};

/// Version 1: three words of text, and four static words, which are in the linkage section.
const INNER: Sample = Sample {
    text: &[0o000006235007, 5, 7],
    statics: &[5, 0, 0, 0],
    definitions: &[("go", Section::Text, true)],
    links: &[],
    relocations: &[],
    entry_bound: 0,
    version: 1,
};

/// The name of an object, the object, and its print.
const PRINTS: &[(&str, &Sample, &str)] = &[
    (
        "e",
        &NOTHING,
        "object e 18
text 000000 000000
definition 000000 000002
linkage 000002 000010
symbol 000012 000001
entrybound 000000
",
    ),
    (
        "two",
        &COUNTED,
        "object two 39
text 000000 000002
definition 000002 000016
linkage 000020 000014
static 000034 000001
symbol 000035 000002
entrybound 000001
def go text 000000 entry
def cnt static 000000
link 000010 b$out 000000 00
link 000012 *static$cnt 000002 20
000000 400010713120 call6 pr4|8,*
000001 000000616000 dis 0
",
    ),
];

/// The name of an object, its source, the object, and the listing.
const LISTINGS: &[(&str, &str, &Sample, &str)] = &[
    (
        "c",
        " use static\ncnt: dec 5\n",
        &STATIC,
        "static 000000 000000000005 2
object c 20
text 000000 000000
definition 000000 000002
linkage 000002 000010
static 000012 000001
symbol 000013 000001
entrybound 000000
",
    ),
    (
        "s",
        " entry go\ngo: lda 6,dl\n oct 5,7\n use link\ncnt: dec 5\n bss b,2\n",
        &INNER,
        "text 000000 000006235007 2
text 000001 000000000005 3
text 000002 000000000007 3
link 000010 000000000005 5
link 000011 000000000000 6
link 000012 000000000000 6
object s 28
text 000000 000003
definition 000003 000005
linkage 000010 000014
symbol 000024 000001
entrybound 000000
def go text 000000 entry
000000 000006235007 lda 6,dl
000001 000000000005 oct 000000000005
000002 000000000007 oct 000000000007
",
    ),
];

fn name(text: &str) -> Name {
    Name::new(text.as_bytes()).unwrap_or_default()
}

fn add_words(words: &mut Words, numbers: &[u64]) -> Result<(), NoMemory> {
    for number in numbers {
        words.push(Word::low(*number))?;
    }
    Ok(())
}

fn add_definitions(definitions: &mut Defs, rows: &[(&str, Section, bool)]) -> Result<(), NoMemory> {
    for (text, section, is_entry) in rows {
        let def = Def {
            value: 0,
            section: *section,
            is_entry: *is_entry,
        };
        definitions.push(Named {
            name: name(text),
            def,
        })?;
    }
    Ok(())
}

fn add_links(
    links: &mut Links,
    rows: &[(&str, &str, u32, u8, Section, u8)],
) -> Result<(), NoMemory> {
    for (segment, entry, expr, kind, section, modifier) in rows {
        links.push(Link {
            name: name(segment),
            entry: name(entry),
            expr: *expr % 0o1000000,
            kind: *kind,
            section: *section,
            modifier: *modifier % 0o100,
        })?;
    }
    Ok(())
}

fn add_relocations(
    relocations: &mut Relocs,
    rows: &[(u32, Section, u8, Section)],
) -> Result<(), NoMemory> {
    for (offset, section, part, target) in rows {
        relocations.push(Reloc {
            offset: *offset % 0o1000000,
            section: *section,
            part: *part,
            target: *target,
        })?;
    }
    Ok(())
}

// Appends the parts of a sample to empty parts.
fn fill(parts: &mut Parts, sample: &Sample) -> Result<(), NoMemory> {
    add_words(&mut parts.text, sample.text)?;
    add_words(&mut parts.statics, sample.statics)?;
    add_definitions(&mut parts.definitions, sample.definitions)?;
    add_links(&mut parts.links, sample.links)?;
    add_relocations(&mut parts.relocations, sample.relocations)
}

// Empty parts with the entry bound and the version of a sample.
fn empty_parts(alloc: Global, sample: &Sample) -> Parts {
    Parts {
        text: Words::new(alloc),
        statics: Words::new(alloc),
        definitions: Defs::new(alloc, HashSeed::of(b"")),
        links: Links::new(alloc, HashSeed::of(b"")),
        relocations: Relocs::new(alloc),
        entry_bound: sample.entry_bound % 0o1000000,
        version: sample.version,
    }
}

fn parts_of(alloc: Global, sample: &Sample) -> Result<Parts, NoMemory> {
    let mut parts = empty_parts(alloc, sample);
    match fill(&mut parts, sample) {
        Ok(()) => Ok(parts),
        Err(error) => {
            // Dropped by a call, so that the drop is proved once for its type.
            drop(parts);
            Err(error)
        }
    }
}

// The print of an object, or its listing if the lines of its source are given.
fn text_of(
    alloc: Global,
    name: &[u8],
    lines: Option<&Lines36>,
    object: &Object,
) -> Result<Text, NoMemory> {
    match lines {
        None => print(alloc, name, object),
        Some(lines) => listing(alloc, name, lines, object),
    }
}

// As `text_of`, for the object of these parts; an empty text if the parts make no object.
fn shown(
    alloc: Global,
    name: &[u8],
    lines: Option<&Lines36>,
    parts: Parts,
) -> Result<Text, NoMemory> {
    // Dropped by calls, so that the drops are proved once for their types.
    if !parts.is_object() {
        drop(parts);
        return Ok(Text::new(alloc));
    }
    let object = Object::new(alloc, parts)?;
    let told = text_of(alloc, name, lines, &object);
    drop(object);
    told
}

// Whether the print of a sample, or its listing if lines are given, is `expected`.
fn shows(
    alloc: Global,
    name: &str,
    lines: Option<&Lines36>,
    sample: &Sample,
    expected: &str,
) -> Result<bool, NoMemory> {
    let parts = parts_of(alloc, sample)?;
    let text = shown(alloc, name.as_bytes(), lines, parts)?;
    let told = text.bytes() == expected.as_bytes();
    drop(text);
    Ok(told)
}

#[test]
fn prints(rt: HostRuntime) -> Result<(), NoMemory> {
    for (name, sample, expected) in PRINTS {
        assert!(rt; shows(rt.alloc(), name, None, sample, expected)?, "{name}");
    }
    Ok(())
}

fn lists(
    alloc: Global,
    name: &str,
    source: &str,
    sample: &Sample,
    expected: &str,
) -> Result<bool, NoMemory> {
    if source.len() > 1000 {
        return Ok(false);
    }
    match parse(alloc, source.as_bytes()) {
        Ok(lines) => shows(alloc, name, Some(&lines), sample, expected),
        Err(_) => Ok(false),
    }
}

#[test]
fn listings(rt: HostRuntime) -> Result<(), NoMemory> {
    for (name, source, sample, expected) in LISTINGS {
        assert!(rt;
            lists(rt.alloc(), name, source, sample, expected)?,
            "{name}"
        );
    }
    Ok(())
}
