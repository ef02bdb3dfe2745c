//! The files of segments, and the objects that they contain.

ghost use Rattle.std.specs.Prelude.{◌≡◌, ◌<◌, ◌≤◌, length, option_copied};
ghost use Rattle.obj36_parts.specs.ObjectSegment.{segment_limit};
ghost use Rattle.obj36.specs.ObjectOf.{encoded_parts};
ghost use Rattle.m36_boot.specs.Segments.{AreShort, file_at};

use m36_link::File;
use obj36::Object;

/// The file of the catalog's segment i; both are counted from 0.
#[tactic(auto, using(crate::proofs::Files::file_is), unfolding(crate::specs::Segments::file_at))]
pub(crate) fn file(files: &[File], i: usize) -> &File
    requires inside { i < length files.now }
    requires short { AreShort files.now }
    ensures value { result.now ≡ file_at files.now i }
    ensures short { length result.now ≤ segment_limit }
{
    &files[i]
}

/// The object in a file, if the file is an object.
#[tactic(auto, using(crate::proofs::ReadObjects::objects))]
pub(crate) fn object_of(file: &File) -> Option<&Object>
    ensures { option_copied result ≡ encoded_parts file.now }
{
    file.object().ok()
}
