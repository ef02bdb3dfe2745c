//! Searches for a segment by a reference name.

ghost use Rattle.std.specs.Prelude.{◌≡◌, ◌<◌, ◌^◌, filter_map, slice_get, IfSome};
ghost use Rattle.m36_link.specs.Names.{AreNames};
ghost use Rattle.m36_link.specs.Known.{initiated_segment};
ghost use Rattle.m36_link.specs.Search.{find_in_directory, directories_searched};

use crate::file::FIRST_SEGMENT;
use crate::names::RingName;
use indexmap::IndexMap;
use m36_dir::Catalog;
use m36_text::{HashSeed, Name};

/// The number of the segment that is initiated under a name in a ring.
#[tactic(auto, unfolding(crate::specs::Known::initiated_segment), using(crate::proofs::KnownNames::long_absent))]
pub(crate) fn initiated_segment(
    names: &IndexMap<RingName, u16, HashSeed>,
    ring: u8,
    name: &[u8],
) -> Option<u16>
    requires { AreNames names.now.entries }
    ensures value { result ≡ initiated_segment names.now.entries ring name.now }
    ensures bound { IfSome result (λ seg. seg < 2 ^ 15) }
{
    match Name::new(name) {
        Some(name) => names.get(&RingName { name, ring }).copied(),
        None => None,
    }
}

// The number of the segment with this name in a directory, if it has one.
#[tactic(auto, unfolding(crate::specs::Search::find_in_directory))]
fn find_in_directory(catalog: &Catalog, name: &[u8], dir: u16) -> Option<u16>
    ensures value { result ≡ find_in_directory catalog.now name.now dir }
    ensures bound { IfSome result (λ seg. seg < 2 ^ 15) }
{
    let _count = catalog.count();
    match catalog.find(dir, name) {
        Some(i) => Some(FIRST_SEGMENT + i as u16),
        None => None,
    }
}

// The number of the segment in the first of these directories that has the name.
fn find_in_first_directory(catalog: &Catalog, name: &[u8], directories: &[u16]) -> Option<u16>
    ensures value { result
        ≡ slice_get (filter_map (find_in_directory catalog.now name.now) directories.now) 0 }
    ensures bound { IfSome result (λ seg. seg < 2 ^ 15) }
{
    let mut rest = directories;
    while let [dir, others @ ..] = rest {
        if let Some(seg) = find_in_directory(catalog, name, *dir) {
            return Some(seg);
        }
        rest = others;
    }
    None
}

/// The number of the segment with a name: in the directory that refers to it, otherwise in the
/// working directory, otherwise in the first library that has the name.
pub(crate) fn search_directories(catalog: &Catalog, name: &[u8], from: u16) -> Option<u16>
    ensures value { result ≡ slice_get (filter_map (find_in_directory catalog.now name.now)
        (directories_searched catalog.now from)) 0 }
    ensures bound { IfSome result (λ seg. seg < 2 ^ 15) }
{
    if let Some(seg) = find_in_directory(catalog, name, from) {
        return Some(seg);
    }
    if let Some(seg) = find_in_directory(catalog, name, catalog.work()) {
        return Some(seg);
    }
    find_in_first_directory(catalog, name, catalog.libraries())
}
