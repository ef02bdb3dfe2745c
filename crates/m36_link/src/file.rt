//! The files of the segments of a catalog, each read as an object once.

ghost use Rattle.std.specs.Prelude.{ℕ, List, ◌≡◌, ◌-◌, ◌<◌, ◌≤◌, ◌^◌, Option, Some, None, Ok, Err};
ghost use Rattle.std.specs.Prelude.{MatchResult, length, option_copied, IfOk, IfSome};
ghost use Rattle.obj36.specs.ObjectOf.{object_of};
ghost use Rattle.m36_link.specs.Known.{index_in_catalog, file_of, object_in, laid_words};
ghost use Rattle.obj36_parts.specs.ObjectSegment.{segment_limit};

use m36_word::{NoMemory, Word, Words};
use obj36::{Object, ObjectFault};
use std::alloc::Global;
use std::marker::Model;

/// The number of the first segment of a catalog.
pub const FIRST_SEGMENT: u16 = 64;

/// The words of a segment's file, with the object in them, or the reason why they are not an
/// object. The model is the words.
#[derive(Drop)]
pub struct File {
    words: Words,
    object: Result<Object, ObjectFault>,
}

impl Model for File {
    ghost use Rattle.std.specs.Prelude.{ℕ, List, ◌≡◌};
    ghost use Rattle.obj36.specs.ObjectOf.{object_of};

    ghost Value = { List ℕ };

    ghost view = { λ f. f.words };

    ghost invariant = { λ f. object_of f.words ≡ f.object };
}

impl File {
    /// Reads a file of fewer than 2^32 words, with any content. Fails only with `NoMemory`.
    pub fn read(alloc: Global, words: Words) -> Result<File, NoMemory>
        requires { length words < 2 ^ 32 }
        ensures { IfOk result (λ file. file ≡ words) }
    {
        match Object::read(alloc, words.slice()) {
            Err(ObjectFault::NoMemory) => Err(NoMemory),
            object => Ok(File { words, object }),
        }
    }

    /// The words of the file.
    pub fn words(&self) -> &[Word]
        ensures { result.now ≡ self.now }
    {
        self.words.slice()
    }

    /// The object in the words, or their first fault.
    #[tactic(auto, using(crate::proofs::Sizes::object_fits))]
    pub fn object(&self) -> Result<&Object, ObjectFault>
        ensures value { MatchResult result (λ o. object_of self.now ≡ Ok o.now)
            (λ f. object_of self.now ≡ Err f) }
        ensures fits { IfOk result (λ o. length (laid_words o.now) ≤ segment_limit) }
    {
        match &self.object {
            Ok(object) => Ok(object),
            Err(fault) => Err(*fault),
        }
    }
}

/// The index in the catalog of the segment with a number; None below the first number.
#[tactic(auto, unfolding(crate::specs::Known::index_in_catalog))]
pub(crate) fn index_in_catalog(seg: u16) -> Option<usize>
    ensures { result ≡ index_in_catalog seg }
{
    if seg >= FIRST_SEGMENT {
        Some((seg - FIRST_SEGMENT) as usize)
    } else {
        None
    }
}

/// The file of a segment.
#[tactic(auto, unfolding(crate::specs::Known::file_of))]
pub(crate) fn file_of(files: &[File], seg: u16) -> Option<&File>
    ensures { option_copied result ≡ file_of files.now seg }
{
    match index_in_catalog(seg) {
        Some(i) => files.get(i),
        None => None,
    }
}

/// The object in the file of a segment; None if no file has this number, or the file is not an
/// object.
#[tactic(auto, unfolding(crate::specs::Known::object_in))]
pub fn object_in(files: &[File], seg: u16) -> Option<&Object>
    ensures value { option_copied result ≡ object_in files.now seg }
    ensures fits { IfSome result (λ o. length (laid_words o.now) ≤ segment_limit) }
{
    match file_of(files, seg) {
        Some(file) => file.object().ok(),
        None => None,
    }
}
