//! Catalogs.

ghost use Rattle.std.specs.Prelude.{ℕ, ◌≡◌, ◌<◌, ◌≤◌, ◌^◌, Bool, ◌&&◌, nat_eq, length, slice_get};
ghost use Rattle.std.specs.Prelude.{Some, IfOk, IfSome, All};
ghost use Rattle.std.specs.List.{list_any, position};
ghost use Rattle.m36_text.specs.Texts.{is_text};
ghost use Rattle.m36_dir.specs.Catalog.{catalog_in, catalog_of, CatalogResult, has_name};
ghost use Rattle.m36_dir.specs.Catalog.{has_entry_named, find_segment, FindsFirst, SetsRights};
ghost use Rattle.m36_dir.specs.IsCatalog.{IsCatalog, IsSegment};
ghost use Rattle.m36_dir.specs.BootLine.{most_frames, directory_limit};
ghost use Rattle.m36_dir.specs.BootOrder.{most_segments, most_libraries};

use crate::boot_line::BootLine;
use crate::building::{
    directories_in, directory_number_in, frames_of, libraries_in, segments_in, start_of,
    working_directory_of,
};
use crate::directory::Directory;
use crate::fault::CatalogFault;
use crate::reading::read_lines;
use crate::segment::{Segment, Start};
use m36_text::HashSeed;
use m36_word::NoMemory;
use std::alloc::Global;
use std::marker::Model;

/// A catalog. Its model is the record of its fields, with the names of the directories in the order
/// of their numbers.
///
/// A catalog has 1 to 8,192 pageable frames, 1 to 512 segments and at most 16 libraries. The
/// working directory, each library, and the directory of each segment are numbers of its
/// directories.
#[derive(Drop)]
pub struct Catalog {
    directories: Vec<Directory>,
    libraries: Vec<u16>,
    segments: Vec<Segment>,
    start: Start,
    seed: HashSeed,
    frames: u32,
    work: u16,
}

impl Model for Catalog {
    ghost use Rattle.m36_dir.specs.Catalog.{CatalogFields};
    ghost use Rattle.m36_dir.specs.IsCatalog.{IsCatalog};

    ghost Value = { CatalogFields };

    ghost view = { λ c. record { frames = c.frames; directories = c.directories.items; work = c.work; libraries = c.libraries.items; segments = c.segments.items; start = c.start } };

    ghost invariant = { λ c. IsCatalog (record { frames = c.frames; directories = c.directories.items; work = c.work; libraries = c.libraries.items; segments = c.segments.items; start = c.start }) };
}

// The catalog of lines that all have no code. The seed is that of their text.
#[tactic(auto, unfolding(crate::specs::Catalog::catalog_in))]
fn catalog_in(alloc: Global, seed: HashSeed, lines: &[BootLine]) -> Result<Catalog, NoMemory>
    requires { IsCatalog (catalog_in lines.now) }
    ensures { IfOk result (λ catalog. catalog ≡ catalog_in lines.now) }
{
    let directories = directories_in(alloc, lines)?;
    let libraries = libraries_in(alloc, &directories, lines)?;
    let segments = segments_in(alloc, &directories, lines)?;
    let work = directory_number_in(&directories, working_directory_of(lines));
    Ok(Catalog {
        directories,
        libraries,
        segments,
        start: start_of(lines),
        seed,
        frames: frames_of(lines.first()),
        work,
    })
}

// Whether a segment has this name, as its first or a further one.
fn has_name(name: &[u8], segment: &Segment) -> bool
    ensures { result ≡ has_name name.now segment.now }
{
    segment
        .names
        .items()
        .iter()
        .any(|other| other.bytes() == name)
}

// Whether a segment is in a directory and has a name.
fn is_segment_named_in(segment: &Segment, dir: u16, name: &[u8]) -> bool
    ensures { result ≡ has_entry_named dir name.now segment.now }
{
    segment.dir == dir && has_name(name, segment)
}

// The index of the first segment that is in a directory and has a name.
fn place_of_name(segments: &[Segment], dir: u16, name: &[u8]) -> Option<usize>
    ensures place { result ≡ position (has_entry_named dir name.now) segments.now }
    ensures inside { IfSome result (λ i. i < length segments.now) }
{
    segments
        .iter()
        .position(|segment| is_segment_named_in(segment, dir, name))
}

impl Catalog {
    /// Parses a boot text. The error is the first line that has a code, counted from 1, with the
    /// least code of that line, or `NoMemory`. The text has fewer than 2^32 bytes.
    #[tactic(auto, using(crate::proofs::TextLoops::read_catalog))]
    pub fn read(alloc: Global, text: &[u8]) -> Result<Catalog, CatalogFault>
        requires { length text.now < 2 ^ 32 }
        ensures { CatalogResult result (catalog_of text.now) }
    {
        let lines = read_lines(alloc, text)?;
        Ok(catalog_in(alloc, HashSeed::of(text), &lines)?)
    }

    /// The seed for hash tables whose keys are names in the boot text.
    pub fn seed(&self) -> HashSeed {
        self.seed
    }

    /// The number of segments.
    pub fn count(&self) -> usize
        ensures value { result ≡ length self.now.segments }
        ensures some { 1 ≤ result }
        ensures most { result ≤ most_segments }
    {
        self.segments.len()
    }

    /// Segment `i`, counted from 0.
    pub fn segment(&self, i: usize) -> &Segment
        requires { i < length self.now.segments }
        ensures value { slice_get self.now.segments i ≡ Some result.now }
        ensures kept { IsSegment (length self.now.directories) result.now }
    {
        &self.segments[i]
    }

    /// The number of the first segment, counted from 0, that is in a directory and has a name. None
    /// exactly if no segment of the directory has it.
    #[tactic(auto, unfolding(crate::specs::Catalog::find_segment))]
    pub fn find(&self, dir: u16, name: &[u8]) -> Option<usize>
        ensures value { result ≡ find_segment self.now dir name.now }
        ensures first { FindsFirst self.now.segments dir name.now result }
        ensures inside { IfSome result (λ i. i < length self.now.segments) }
    {
        place_of_name(&self.segments, dir, name)
    }

    /// The name of a directory, by its number: at most 64 bytes.
    pub fn directory(&self, d: u16) -> &[u8]
        requires { d < length self.now.directories }
        ensures value { slice_get self.now.directories d ≡ Some result.now }
        ensures fits { length result.now ≤ directory_limit }
    {
        self.directories[d as usize].bytes()
    }

    /// The number of the working directory.
    pub fn work(&self) -> u16
        ensures value { result ≡ self.now.work }
        ensures inside { result < length self.now.directories }
    {
        self.work
    }

    /// The numbers of the libraries, in the order in which they are searched.
    pub fn libraries(&self) -> &[u16]
        ensures value { result.now ≡ self.now.libraries }
        ensures most { length result.now ≤ most_libraries }
        ensures inside { All (λ d. d < length self.now.directories) result.now }
    {
        self.libraries.as_slice()
    }

    /// The number of pageable frames.
    pub fn frames(&self) -> u32
        ensures value { result ≡ self.now.frames }
        ensures some { 1 ≤ result }
        ensures most { result ≤ most_frames }
    {
        self.frames
    }

    /// Where the machine starts.
    pub fn start(&self) -> &Start
        ensures { result.now ≡ self.now.start }
    {
        &self.start
    }

    /// Sets whether a segment may be read, executed and written. Nothing else changes, in
    /// particular not the right to be privileged.
    pub fn set_rights(&mut self, i: usize, readable: bool, executable: bool, writable: bool)
        requires { i < length self.old.segments }
        ensures { SetsRights self.old self.new i readable executable writable }
    {
        let segment = &mut self.segments[i];
        segment.mode.readable = readable;
        segment.mode.executable = executable;
        segment.mode.writable = writable;
    }
}
