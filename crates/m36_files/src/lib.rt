//! Readers of files, as programs.
//!
//! A reader reads a file over any world, and returns what it parses from it, or refuses the file:
//!
//! | Reader | Program in `specs/` | Returns | Refuses with |
//! |---|---|---|---|
//! | [`read_words`] | `file_words` | the words of a file | F1, F2, then T3, T4, F3 |
//! | [`read_object`] | `file_object` | its object | as `read_words`, then O1 to O8 |
//! | [`read_catalog`] | `boot_catalog` | the catalog of the boot text | F1, F2, D1 to D6 |
//! | [`read_lists`] | `access_lists` | the access lists for a catalog | F1, F2, C1 to C3 |
//! | [`read_access`] | `catalog_access` | the catalog with a user's rights | as the two before |
//!
//! A folder has a boot text, the file `boot`, which describes a catalog: its segments with their
//! names, modes and brackets. It may have access lists, the file `acl`. For a user the segments of
//! the catalog get the rights that the lists give to that user ([`Access`]). Without a user they
//! keep those of the boot text, and `acl` is not read. `specs/CatalogRules.antt` defines what is
//! refused and in which order, and the catalog that results. Access lists are those of the Multics
//! Programmers' Manual AG91; both texts are this project's own.
//!
//! Each has the clause `(may : May) → Performs {may = may} (..) result ..`, so any command may use
//! it, also one that writes files. `read_each` (`specs/EachFile.antt`) is the program that reads
//! something for each item of a list, one after another. `proofs/EachLaws.antt` has the lemmas for
//! a loop that performs it.
//!
//! A computation from the bytes of a file, without a read, is a rule: it yields a value or a
//! refusal, and memory may run out in it (`rule_program`). [`refusal_as_status`] turns its result
//! into the result of a call.
//!
//! Each reader only reads files, so what it ends with follows from the files (`IsReader` and
//! `reader_result` of `m36_program`, `proofs/AreReaders.antt`), and it is alike to itself
//! (`proofs/AlikeReaders.antt`).
#![tactic(auto)]

pub mod access;
pub mod boot_refusal;
pub mod catalogs;
pub mod deciding;
pub mod objects;

pub use access::Access;
pub use catalogs::{read_access, read_catalog, read_lists};
pub use deciding::refusal_as_status;
pub use objects::{read_object, read_words};
