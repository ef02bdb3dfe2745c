//! The codes with which an image is refused.

ghost use Rattle.std.specs.Prelude.{◌≡◌};
ghost use Rattle.cmd_image.specs.ImageAudit.{code_of};

use m36_image::ImageCode;
use m36_status::Code;

/// The code of a refused image, as a code of the status BadFile.
pub fn code_of(code: ImageCode) -> Code
    ensures { result ≡ code_of code }
{
    match code {
        ImageCode::I1 => Code::I1,
        ImageCode::I2 => Code::I2,
        ImageCode::I3 => Code::I3,
    }
}
