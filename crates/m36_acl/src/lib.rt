//! Access control lists: what each user may do with a segment, parsed from a text.
//!
//! ```text
//! segment DIR NAME      any number of these, each followed by
//! term TERM MODE        0 to 16 of these
//! ```
//!
//! A user is `Person.Project.tag`. A term has the same form, but each of its components may be `*`.
//! A term matches a user if each of its components is `*` or equal to that of the user.
//!
//! `Acl::read` returns the lists that a text describes, or the first line that has a code, C1 or
//! C2, with the least code of that line. It fails with `NoMemory` if memory runs out. In lists that
//! were read, each segment occurs once, and each term once in the list of its segment. `mode_for`
//! returns the mode of the first term in the list of a segment that matches a user, and which term
//! that is. If no term matches, or the segment has no list, it returns no right and no term. A mode
//! that is printed is parsed as the same mode. `grant` gives the segments of a catalog these rights
//! and changes nothing else. `first_unknown` returns the first line whose segment is not in the
//! catalog. `User::read` accepts exactly the texts that have the form of a user.
//!
//! Users are not authenticated.
//!
//! Source: access control lists, their terms and their order are those of the Multics Programmers'
//! Manual AG91 (access control). The format of the text is this project's own.
#![tactic(auto)]

mod above;
pub mod acl;
pub mod denied;
pub mod fault;
mod forms;
mod granting;
pub mod laws;
mod matching;
pub mod policy;
mod reading;
pub mod segment;
pub mod user;
mod writing;

pub use acl::Acl;
pub use denied::DeniedLines;
pub use fault::AclFault;
pub use laws::policy_laws;
pub use policy::Decision;
pub use segment::{AclSegment, Term};
pub use user::User;
