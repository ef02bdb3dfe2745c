//! A theorem about every core, stated as the contract of a function with an empty body.

ghost use Rattle.m36_core.specs.Frames.{FrameLaw};

/// If other words are written to a frame, the frame then has these words, and every other word of
/// core is unchanged.
#[tactic(auto, using(crate::proofs::FrameWords::frame_written))]
pub fn frame_law()
    ensures { FrameLaw }
{}
