//! Names of directories.

ghost use Rattle.std.specs.Prelude.{◌≡◌, ◌≤◌, length};
ghost use Rattle.std.specs.Option.{SomeIff};
ghost use Rattle.m36_dir.specs.BootLine.{directory_limit};

use arrayvec::ArrayVec;
use std::marker::Model;

// The name of a directory: at most 64 bytes. It holds them in place and allocates nothing. Its
// model is the list of its bytes.
#[derive(Drop)]
pub(crate) struct Directory {
    items: ArrayVec<u8, 64>,
}

impl Model for Directory {
    ghost use Rattle.std.specs.Prelude.{ℕ, List};

    ghost Value = { List ℕ };

    ghost view = { λ d. d.items.items };
}

impl Directory {
    // None exactly if there are more than 64 bytes.
    pub(crate) fn new(text: &[u8]) -> Option<Directory>
        ensures { SomeIff result (length text.now ≤ directory_limit) text.now }
    {
        let mut items = ArrayVec::new();
        match items.try_extend_from_slice(text) {
            Ok(()) => Some(Directory { items }),
            Err(_) => None,
        }
    }

    // The bytes of the name, at most 64.
    pub(crate) fn bytes(&self) -> &[u8]
        ensures value { result.now ≡ self.now }
        ensures fits { length self.now ≤ directory_limit }
    {
        self.items.as_slice()
    }

    // A copy of the name.
    pub(crate) fn copied(&self) -> Directory
        ensures { result ≡ self.now }
    {
        match Directory::new(self.bytes()) {
            Some(directory) => directory,
            None => unreachable!(),
        }
    }
}
