//! Refuses files, and computes the words and the object of the bytes of a file.

ghost use Rattle.std.specs.Prelude.{◌≤◌, ◌<◌, ◌^◌, length, IfOk};
ghost use Rattle.m36_outside.specs.ReadAnswer.{file_limit};
ghost use Rattle.m36_text.specs.Packing.{unpacked};
ghost use Rattle.obj36_parts.specs.ObjectSegment.{segment_limit};
ghost use Rattle.obj36.specs.ObjectOf.{object_of};
ghost use Rattle.m36_status.specs.Refusing.{IsRuleResult, IsRuleRefusal};
ghost use Rattle.m36_status.specs.Rules.{file_refusal, check_word_count, file_refusal_at};
ghost use Rattle.m36_status.specs.Rules.{words_or_refusal, object_refusal, object_or_refusal};

use crate::refusal::Refusal;
use crate::status::{Bad, Code};
use m36_outside::Text;
use m36_text::{PackFault, unpack};
use m36_word::{Word, Words};
use obj36::{Object, ObjectFault};
use obj36_parts::sections::SEGMENT_LIMIT;
use std::alloc::Global;

/// Refuses a file with a code, at a place and a column of it. The refusal is NoMemory if there is
/// no memory for the name.
pub fn refuse_at(alloc: Global, name: &[u8], code: Code, at: u32, column: u32) -> Refusal
    ensures { IsRuleRefusal result (file_refusal_at name.now code at column) }
{
    match Text::from_bytes(alloc, name) {
        Ok(name) => Refusal::BadFile(Bad {
            name,
            code,
            at,
            column,
        }),
        Err(_) => Refusal::NoMemory,
    }
}

/// As `refuse_at`, for a file without columns: the column is 0.
pub fn refuse(alloc: Global, name: &[u8], code: Code, at: u32) -> Refusal
    ensures { IsRuleRefusal result (file_refusal name.now code at) }
{
    refuse_at(alloc, name, code, at, 0)
}

// F3 if there are more words than a segment can have.
#[tactic(auto, using(crate::proofs::RuleLaws::sizes))]
fn check_word_count(alloc: Global, name: &[u8], words: Words) -> Result<Words, Refusal>
    ensures gives { IsRuleResult result (check_word_count name.now words) }
    ensures few { IfOk result (λ words. length words ≤ segment_limit) }
{
    if words.slice().len() > SEGMENT_LIMIT as usize {
        return Err(refuse(alloc, name, Code::F3, 0));
    }
    Ok(words)
}

/// Unpacks the bytes of a file, at most 16 MiB, into words: T3 or T4 if they are no packed words,
/// F3 if there are more than 2^18 words.
#[tactic(auto, using(crate::proofs::RuleLaws::unpacking))]
pub fn words_in(alloc: Global, name: &[u8], bytes: &[u8]) -> Result<Words, Refusal>
    requires { length bytes.now ≤ file_limit }
    ensures gives { IsRuleResult result (words_or_refusal name.now (unpacked bytes.now)) }
    ensures few { IfOk result (λ words. length words ≤ segment_limit) }
{
    match unpack(alloc, bytes) {
        Ok(words) => check_word_count(alloc, name, words),
        Err(PackFault::T3(count)) => Err(refuse(alloc, name, Code::T3, count as u32)),
        Err(PackFault::T4(place)) => Err(refuse(alloc, name, Code::T4, place as u32)),
        Err(PackFault::NoMemory) => Err(Refusal::NoMemory),
    }
}

// O1 to O8, for words that are no object.
fn refuse_object(alloc: Global, name: &[u8], fault: ObjectFault) -> Refusal
    ensures { IsRuleRefusal result (object_refusal name.now fault) }
{
    match fault {
        ObjectFault::O1(at) => refuse(alloc, name, Code::O1, at),
        ObjectFault::O2(at) => refuse(alloc, name, Code::O2, at),
        ObjectFault::O3(at) => refuse(alloc, name, Code::O3, at),
        ObjectFault::O4(at) => refuse(alloc, name, Code::O4, at),
        ObjectFault::O5(at) => refuse(alloc, name, Code::O5, at),
        ObjectFault::O6(at) => refuse(alloc, name, Code::O6, at),
        ObjectFault::O7(at) => refuse(alloc, name, Code::O7, at),
        ObjectFault::O8(at) => refuse(alloc, name, Code::O8, at),
        ObjectFault::NoMemory => Refusal::NoMemory,
    }
}

/// The object that the words of a file encode, fewer than 2^32 words: O1 to O8 if they encode none.
pub fn object_in(alloc: Global, name: &[u8], words: &[Word]) -> Result<Object, Refusal>
    requires { length words.now < 2 ^ 32 }
    ensures { IsRuleResult result (object_or_refusal name.now (object_of words.now)) }
{
    match Object::read(alloc, words) {
        Ok(object) => Ok(object),
        Err(fault) => Err(refuse_object(alloc, name, fault)),
    }
}
