//! Laws of `bare FILE` and `audit FILE`: one text each, and how they end by the conditions of the
//! audit.

ghost use Rattle.cmd_image.specs.ImageEnds.{ImageEndLaw};
ghost use Rattle.cmd_image.specs.OneText.{ImageTextLaw};

/// Over the same files each call of a command puts a prefix of the text that a call puts which
/// ends.
pub fn law_image_text()
    ensures { ImageTextLaw }
{}

/// An image has one list of findings. It is empty exactly if all six conditions of the audit hold.
/// A call that ends puts the lines of the audit, and then those of the run if one is made, and has
/// the status of the last of the two. It is impossible that no call ends.
pub fn law_image_ends()
    ensures { ImageEndLaw }
{}
