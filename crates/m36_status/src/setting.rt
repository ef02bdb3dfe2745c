//! Files that a command writes.

use m36_outside::Text;
use m36_text::Name;

/// A file that a command writes.
#[derive(Drop)]
pub struct Set {
    pub name: Name,
    /// The whole content of the file after the write.
    pub content: Text,
}
