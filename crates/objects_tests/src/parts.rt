//! Tables of definitions and of links.

use m36_text::{HashSeed, Name};
use m36_word::NoMemory;
use obj36_parts::{Def, Defs, Link, Links, Named, Section};

// The name that a text is, or the empty name if it is too long.
fn name(text: &str) -> Name {
    Name::new(text.as_bytes()).unwrap_or_default()
}

fn definition(text: &str) -> Named {
    let def = Def {
        value: 0,
        section: Section::Text,
        is_entry: false,
    };
    Named {
        name: name(text),
        def,
    }
}

fn link(entry: &str) -> Link {
    Link {
        name: name("b"),
        entry: name(entry),
        expr: 0,
        kind: 4,
        section: Section::Text,
        modifier: 0,
    }
}

// Adds a definition. Returns whether all names are different.
fn add_definition(definitions: &mut Defs, text: &str) -> Result<bool, NoMemory> {
    definitions.push(definition(text))?;
    Ok(definitions.has_distinct_names())
}

fn has_name(definitions: &Defs, text: &str) -> bool {
    definitions.has(&name(text))
}

fn finds_name(definitions: &Defs, text: &str) -> bool {
    definitions.find(&name(text)).is_some()
}

// Whether the table has two different names, has `cnt`, and does not find `b`.
fn has_names(definitions: &Defs) -> bool {
    has_name(definitions, "cnt") && !finds_name(definitions, "b") && definitions.names().len() == 2
}

// Adds three definitions, the last with the name of the first. Returns whether each lookup is
// right.
fn find_names(definitions: &mut Defs) -> Result<bool, NoMemory> {
    for (text, are_own) in [("go", true), ("cnt", true), ("go", false)].iter() {
        if add_definition(definitions, text)? != *are_own {
            return Ok(false);
        }
    }
    Ok(has_names(definitions))
}

#[test]
fn names_are_found(rt: HostRuntime) -> Result<(), NoMemory> {
    let mut definitions = Defs::new(rt.alloc(), HashSeed::of(b""));
    let told = find_names(&mut definitions);
    // Dropped by a call, so that the drop is proved once for its type; also below.
    drop(definitions);
    assert!(rt; told?);
    Ok(())
}

// Adds a copy of a link. Returns the index of the first equal link.
fn add_link(links: &mut Links, link: &Link) -> Result<Option<u64>, NoMemory> {
    links.push(link.copied())?;
    Ok(links.index_of(link))
}

// As `add_link`, for the link to an entry of `b`.
fn add_entry(links: &mut Links, entry: &str) -> Result<Option<u64>, NoMemory> {
    add_link(links, &link(entry))
}

fn has_entry(links: &Links, entry: &str) -> bool {
    links.has(&link(entry))
}

// Adds three links, the last equal to the first. Returns whether each lookup is right.
fn find_links(links: &mut Links) -> Result<bool, NoMemory> {
    for (entry, place) in [("x", 0), ("y", 1), ("x", 0)].iter() {
        if add_entry(links, entry)? != Some(*place) {
            return Ok(false);
        }
    }
    Ok(!has_entry(links, "z") && links.names().len() == 3)
}

#[test]
fn links_are_found(rt: HostRuntime) -> Result<(), NoMemory> {
    let mut links = Links::new(rt.alloc(), HashSeed::of(b""));
    let told = find_links(&mut links);
    drop(links);
    assert!(rt; told?);
    Ok(())
}
