//! The binder: bind files that are refused.

use m36_bind::{BindFault, bind};
use std::alloc::Global;

/// A bind file, and its fault if no objects are given.
const REFUSED: &[(&str, BindFault)] = &[
    ("", BindFault::B1(1)),
    ("version 2\njunk\nobject a\n", BindFault::B1(2)),
    ("version 2\nobject a", BindFault::B1(2)),
    ("version 3\nobject a\n", BindFault::B1(1)),
    ("object .a\n", BindFault::B1(1)),
    ("object a\nretain go\nobject b\n", BindFault::B1(3)),
    ("object a\nretain xx\n", BindFault::B2(1)),
    ("version 2\nobject a\nobject b\n", BindFault::B2(2)),
];

// The fault of a bind file over no objects, if there is one. A bind file of over 1000 bytes answers
// `NoMemory`.
fn told(alloc: Global, text: &[u8]) -> Option<BindFault> {
    if text.len() > 1000 {
        return Some(BindFault::NoMemory);
    }
    bind(alloc, text, &[], &[]).err()
}

#[test]
fn refuses_bind_files(rt: HostRuntime) {
    for (text, fault) in REFUSED {
        assert_eq!(rt; told(rt.alloc(), text.as_bytes()), Some(*fault), "{text}");
    }
}
