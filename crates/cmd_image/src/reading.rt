//! Reads a bare image.

ghost use Rattle.std.specs.Prelude.{◌≤◌, [], length};
ghost use Rattle.m36_outside.specs.ReadAnswer.{file_limit};
ghost use Rattle.m36_program.specs.Goes.{Goes};
ghost use Rattle.m36_program.specs.Performs.{Performs};
ghost use Rattle.m36_program.specs.Program.{May};
ghost use Rattle.cmd_image.specs.ImageProgram.{decode, image_state};

use crate::image_codes::code_of;
use m36_image::{Image, ImageFault, read_image};
use m36_program::{read_bytes, refuse};
use m36_status::Status;
use m36_world::World;
use std::alloc::Global;

/// The image that the bytes of a file describe. Refused with I1 to I3 if they are no bare image.
#[tactic(auto, using(crate::proofs::ImageSteps::decoding))]
fn decode(alloc: Global, name: &[u8], bytes: &[u8]) -> Result<Image, Status>
    requires { length bytes.now ≤ file_limit }
    ensures { (may : May) → Goes {may = may} (decode name.now bytes.now) [] result }
{
    match read_image(alloc, bytes) {
        Ok(image) => Ok(image),
        Err(ImageFault::Refused(refusal)) => {
            Err(refuse(alloc, name, code_of(refusal.code), refusal.line))
        }
        Err(ImageFault::NoMemory) => Err(Status::NoMemory),
    }
}

/// The image in a file. Refused with F1, F2 or I1 to I3.
#[tactic(auto, using(crate::proofs::ImageSteps::reading))]
pub fn read_state<W: World>(alloc: Global, name: &[u8], world: &mut W) -> Result<Image, Status>
    ensures { (may : May) → Performs {may = may} (image_state name.now) result
        (W.seen world.old) (W.seen world.new) }
{
    match read_bytes(alloc, name, world) {
        Ok(text) => {
            let given = decode(alloc, name, text.bytes());
            // Dropped by a call, so that the drop is proved once for its type.
            drop(text);
            given
        }
        Err(status) => Err(status),
    }
}
