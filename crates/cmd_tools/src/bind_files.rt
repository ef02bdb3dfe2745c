//! The files of `bind NAME`.

use m36_text::Name;

/// The files of `bind NAME`.
#[derive(Drop)]
pub struct BindFiles {
    /// The bind file, NAME.bind.
    pub bindfile: Name,
    /// The bound object, NAME.
    pub object: Name,
}
