//! How a run ends.

use crate::outcome::{Fault, Stop};

/// Why a link was refused.
#[derive(Clone, Copy, PartialEq, Eq, Debug)]
pub enum LinkCode {
    /// The word is not a link of a section that is laid in the ring.
    L1,
    /// The link names a segment, and the search finds none with this name.
    L2,
    /// The link names an entry that is not defined: the segment found is plain data or its object
    /// does not define it; or, for a link of type 5, its own object does not.
    L3,
    /// The ring is above those that may use the segment found.
    L4,
    /// The segment found is an object or a gate by its catalog line, but its file is not an object.
    /// The number is the code with which the object is refused.
    L5(u8),
    /// The linkage segment has no room for the linkage section: its place and its length, in words.
    L6(u32, u32),
}

/// What ended a run.
#[derive(Clone, Copy, PartialEq, Eq)]
pub enum End {
    Fault(Fault),
    Stop(Stop),
    Link(LinkCode),
    Console,
}
