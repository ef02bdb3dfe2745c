//! Laws of `debug FILE` and `debug`.

ghost use Rattle.cmd_debug.specs.Sessions.{DebugLaw, DebugTextLaw};

/// Each call that performs the program of a command reads the image or the folder, and then holds a
/// session over the machine. The lines that it answers are those of the bytes that it took.
pub fn law_debug()
    ensures { DebugLaw }
{}

/// The text of `debug FILE` follows from the files and the bytes of the input: however a call ends,
/// and whatever the pieces in which the input came, it puts a prefix of what any call over the same
/// puts that ends as the program says.
///
/// The text of `debug` over a folder does so until an ABSA or LDBR is executed: which page is
/// evicted from a frame is left open, and after these a program can find that out.
pub fn law_debug_text()
    ensures { DebugTextLaw }
{}
