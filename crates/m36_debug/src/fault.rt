//! Why a session ends early.

use thiserror::Error;

/// Why a session ends before `quit` and before the end of its input.
#[derive(Clone, Copy, Debug, PartialEq, Eq, Error)]
pub enum SessionFault {
    /// The input could not be read.
    #[error("the input could not be read")]
    ReadFault,
    /// The output could not be written.
    #[error("the output could not be written")]
    WriteFault,
    /// The input has more than 1,048,576 bytes, and none of the whole lines in the first 1,048,576
    /// is `quit`.
    #[error("the input is too long")]
    TooLong,
    /// Out of memory: in a turn of the machine, in going back, or for a line of the input.
    #[error("no memory")]
    NoMemory,
}
