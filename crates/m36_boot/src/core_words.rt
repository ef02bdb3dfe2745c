//! The descriptor segment of the image.

ghost use Rattle.std.specs.Prelude.{◌≡◌, ◌+◌, ◌*◌, ◌≤◌, ◌<◌, length, IfSome, slice_set};
ghost use Rattle.m36_desc.specs.Descriptors.{sdw_of, sdw_even, sdw_odd};
ghost use Rattle.m36_model.specs.BootedCore.{descriptor_words};
ghost use Rattle.m36_link.specs.Known.{first_segment};
ghost use Rattle.m36_boot.specs.Segments.{AreShort};
ghost use Rattle.m36_boot.specs.Refusals.{AreLimits};
ghost use Rattle.m36_boot.specs.Image.{descriptor_word, AreDescribed};

use crate::segments::descriptor;
use m36_core::Core;
use m36_desc::Sdw;
use m36_dir::Catalog;
use m36_link::{FIRST_SEGMENT, File};
use m36_word::{Pair, Word};

// The two words of a descriptor; zeros if there is no segment.
fn descriptor_pair(sdw: Option<Sdw>) -> Pair
    ensures even { result.even ≡ descriptor_word 0 sdw }
    ensures odd { result.odd ≡ descriptor_word 1 sdw }
    ensures back { IfSome sdw (λ d. sdw_of (sdw_even d) (sdw_odd d) ≡ d) }
{
    match sdw {
        Some(sdw) => sdw.to_words(),
        None => Pair {
            even: Word::ZERO,
            odd: Word::ZERO,
        },
    }
}

// Writes the two words of a segment's descriptor into the descriptor segment, which begins at core
// address 0.
fn put_descriptor(core: &mut Core, seg: u16, pair: Pair)
    requires seg { seg < 1024 }
    requires core { descriptor_words ≤ length core.old }
    ensures { core.new ≡ slice_set (slice_set core.old (2 * seg) pair.even) (2 * seg + 1) pair.odd }
{
    core.poke(2 * seg as u32, pair.even);
    core.poke(2 * seg as u32 + 1, pair.odd);
}

/// Writes the descriptors of all segments.
pub(crate) fn put_descriptors(core: &mut Core, catalog: &Catalog, files: &[File], limits: &[u16])
    requires files { length files.now ≡ length catalog.now.segments }
    requires short { AreShort files.now }
    requires limits { AreLimits catalog.now files.now (length catalog.now.segments) limits.now }
    requires core { descriptor_words ≤ length core.old }
    ensures { AreDescribed catalog.now files.now (first_segment + length catalog.now.segments)
        core.old core.new }
{
    let count = catalog.count();
    for seg in 0..FIRST_SEGMENT + count as u16 {
        put_descriptor(
            core,
            seg,
            descriptor_pair(descriptor(catalog, files, limits, seg)),
        );
    }
}
