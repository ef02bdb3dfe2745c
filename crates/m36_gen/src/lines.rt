//! Lines at the end of a text, and names of segments.

ghost use Rattle.std.specs.Prelude.{◌≡◌, ◌≤◌, [], ◌∷◌, ◌++◌, length, OnOk};
ghost use Rattle.m36_text.specs.Texts.{name_limit};
ghost use Rattle.m36_gen.specs.Lines.{line, line_with_number, segment_name, source_name};

use arrayvec::ArrayVec;
use m36_outside::Text;
use m36_text::{Name, decimal};
use m36_word::NoMemory;

/// Adds a line: these bytes and a line feed.
#[tactic(auto, unfolding(crate::specs::Lines::line))]
pub fn put_line(text: &mut Text, bytes: &[u8]) -> Result<(), NoMemory>
    ensures { OnOk result (text.new ≡ text.old ++ line bytes.now) }
{
    text.append(bytes)?;
    text.push(b'\n')
}

/// Adds a line with a number in decimal between two texts.
#[tactic(auto, using(crate::proofs::Parts::numbered_put))]
pub fn put_line_with_number(
    text: &mut Text,
    before: &[u8],
    n: u64,
    behind: &[u8],
) -> Result<(), NoMemory>
    ensures { OnOk result (text.new ≡ text.old ++ line_with_number before.now n behind.now) }
{
    text.append(before)?;
    text.append(decimal(n).as_str().as_bytes())?;
    put_line(text, behind)
}

/// Adds a line with a name between two texts.
#[tactic(auto, using(crate::proofs::Parts::named_put))]
pub fn put_line_with_name(
    text: &mut Text,
    before: &[u8],
    name: &[u8],
    behind: &[u8],
) -> Result<(), NoMemory>
    ensures { OnOk result (text.new ≡ text.old ++ line (before.now ++ name.now ++ behind.now)) }
{
    text.append(before)?;
    text.append(name)?;
    put_line(text, behind)
}

/// The name with these bytes, at most 32.
pub fn name_of(bytes: &[u8]) -> Name
    requires { length bytes.now ≤ name_limit }
    ensures { result ≡ bytes.now }
{
    match Name::new(bytes) {
        Some(name) => name,
        None => unreachable!(),
    }
}

/// The name of the segment of program `i`.
#[tactic(auto, unfolding(crate::specs::Lines::segment_name))]
pub fn segment_name(i: u64) -> Name
    ensures name { result ≡ segment_name i }
    ensures fits { length result ≤ 21 }
{
    let digits = decimal(i);
    let mut name: ArrayVec<u8, 32> = ArrayVec::new();
    let _ = name.try_extend_from_slice(b"g");
    let _ = name.try_extend_from_slice(digits.as_str().as_bytes());
    name_of(name.as_slice())
}

/// The name of the source of program `i`.
#[tactic(auto, unfolding(crate::specs::Lines::source_name))]
pub fn source_name(i: u64) -> Name
    ensures { result ≡ source_name i }
{
    let segment = segment_name(i);
    let mut name: ArrayVec<u8, 32> = ArrayVec::new();
    let _ = name.try_extend_from_slice(segment.bytes());
    let _ = name.try_extend_from_slice(b".alm");
    name_of(name.as_slice())
}
