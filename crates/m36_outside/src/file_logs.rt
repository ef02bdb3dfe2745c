//! The log of the files of a directory.

use crate::call_log::Log;
use crate::name_calls::NameCall;
use crate::text::Text;
use std::io::ErrorKind;

/// What passed through the files: the pieces that they gave when they were read, with an empty one
/// for the end; the bytes that each took when it was made; the calls that change names; and the
/// errors of the system.
#[derive(Drop)]
pub struct FileLogs {
    pub given: Log<Text>,
    pub taken: Log<Text>,
    pub names: Log<NameCall>,
    pub errors: Log<ErrorKind>,
}
