//! Compares the answers of a folder's reads with expected ones.

use m36_outside::{Folder, ReadAnswer};
use std::alloc::Global;

/// The expected answer of a read.
#[derive(Clone, Copy)]
pub enum Expected<'a> {
    Content(&'a [u8]),
    Absent,
    TooLarge,
    Failed,
}

fn has_content(answer: &ReadAnswer, content: &[u8]) -> bool {
    match answer {
        ReadAnswer::Read(text) => text.bytes() == content,
        _ => false,
    }
}

pub fn is_expected(answer: &ReadAnswer, due: Expected) -> bool {
    match due {
        Expected::Content(content) => has_content(answer, content),
        Expected::Absent => matches!(answer, ReadAnswer::Absent),
        Expected::TooLarge => matches!(answer, ReadAnswer::TooLarge),
        Expected::Failed => matches!(answer, ReadAnswer::Failed),
    }
}

/// Whether a read of the file `name` gives the expected answer.
pub fn reads<F: Folder>(folder: &mut F, alloc: Global, name: &[u8], due: Expected) -> bool {
    let answer = folder.read(alloc, name);
    let told = is_expected(&answer, due);
    // Dropped by a call, so that the drop is proved once for its type; also in the other files.
    drop(answer);
    told
}
