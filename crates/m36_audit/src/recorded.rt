//! Which number was recorded for each core word: none, one, or several.

ghost use Rattle.std.specs.Prelude.{◌≡◌, ◌<◌, IfOk, replicate, slice_index, vec_len};
ghost use Rattle.m36_audit.specs.RecordedNumbers.{with_number, with_number_at};

use crate::run::zeros;
use m36_word::NoMemory;
use std::alloc::Global;

/// The value of a word for which different numbers were recorded.
pub(crate) const SEVERAL: u32 = 0xffff_ffff;

/// For each core word the number that was recorded for it: 0 if none was, and `SEVERAL` if
/// different ones were.
#[derive(Drop)]
pub(crate) struct RecordedNumbers {
    pub(crate) values: Vec<u32>,
}

/// The value of a word after one more number was recorded for it.
#[tactic(auto, unfolding(crate::specs::RecordedNumbers::with_number))]
fn with_number(seen: u32, table_number: u32) -> u32
    ensures { result ≡ with_number seen table_number }
{
    if seen == 0 || seen == table_number {
        table_number
    } else {
        SEVERAL
    }
}

impl RecordedNumbers {
    /// Nothing is recorded. Fails only if memory runs out.
    pub(crate) fn new(alloc: Global, size: u32) -> Result<RecordedNumbers, NoMemory>
        ensures { IfOk result (λ t. t.values.items ≡ replicate size 0) }
    {
        let values = zeros(alloc, size)?;
        Ok(RecordedNumbers { values })
    }

    /// Records a number for a core word. A word past the end of core is ignored.
    pub(crate) fn record_number(&mut self, a: u32, table_number: u32)
        ensures { self.new.values.items ≡ with_number_at self.old.values.items a table_number }
    {
        let index = a as usize;
        if index < self.values.len() {
            self.values[index] = with_number(self.values[index], table_number);
        }
    }

    /// The value of a core word.
    pub(crate) fn at(&self, a: u32) -> u32
        requires { a < vec_len self.now.values }
        ensures { result ≡ slice_index self.now.values.items a }
    {
        self.values[a as usize]
    }
}
