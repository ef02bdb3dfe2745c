//! The order of the lines of a boot text, and the code of a line, which depends on the lines above
//! it.

ghost use Rattle.std.specs.Prelude.{◌≡◌, ◌+◌, ◌<◌, ◌≤◌, ◌^◌, [], Some, count_by};
ghost use Rattle.std.specs.List.{list_any};
ghost use Rattle.m36_dir.specs.BootLine.{parsed_line};
ghost use Rattle.m36_dir.specs.BootOrder.{is_frames, is_library, is_segment, is_work_or_library};
ghost use Rattle.m36_dir.specs.BootOrder.{is_segment_or_name, may_follow, is_in_order_after};
ghost use Rattle.m36_dir.specs.BootOrder.{is_same_entry, entry, directory_after, directory_at_end};
ghost use Rattle.m36_dir.specs.BootOrder.{entries_of_line, has_entry, is_repeated, is_in_directory};
ghost use Rattle.m36_dir.specs.BootOrder.{is_parsed_line_in_directory, has_directory};
ghost use Rattle.m36_dir.specs.BootOrder.{names_no_directory, is_no_gate, brackets_in_order};
ghost use Rattle.m36_dir.specs.BootOrder.{has_wrong_brackets, name_count_after, name_count_at_end};
ghost use Rattle.m36_dir.specs.BootOrder.{is_too_many, code_of, has_start_at_end};
ghost use Rattle.m36_dir.specs.BootOrder.{well_formed_lines};
ghost use Rattle.m36_text.specs.Lines.{last_of};

use crate::boot_code::BootCode;
use crate::boot_line::{BootLine, SegmentLine};
use crate::forms::read_line;
use crate::segment::SegKind;
use m36_text::first_line;

// The maximal number of segments of a catalog.
const MOST_SEGMENTS: usize = 512;

// The maximal number of names that a segment has besides the first.
const MOST_FURTHER_NAMES: usize = 7;

// The maximal number of libraries.
const MOST_LIBRARIES: usize = 16;

// Whether it is a `frames` line.
fn is_frames(line: &BootLine) -> bool
    ensures { result ≡ is_frames line.now }
{
    matches!(line, BootLine::Frames(_))
}

// Whether it is a `library` line.
fn is_library(line: &BootLine) -> bool
    ensures { result ≡ is_library line.now }
{
    matches!(line, BootLine::Library(_))
}

// Whether it is a `segment` line.
fn is_segment(line: &BootLine) -> bool
    ensures { result ≡ is_segment line.now }
{
    matches!(line, BootLine::Segment(_))
}

// Whether it is a `work` or `library` line.
fn is_work_or_library(line: &BootLine) -> bool
    ensures { result ≡ is_work_or_library line.now }
{
    matches!(line, BootLine::Work(_) | BootLine::Library(_))
}

// Whether it is a `segment` or `name` line.
fn is_segment_or_name(line: &BootLine) -> bool
    ensures { result ≡ is_segment_or_name line.now }
{
    matches!(line, BootLine::Segment(_) | BootLine::Name(_))
}

// Whether a line may come directly after the line `above`. The order is: frames, work, libraries,
// segments with their further names, start.
fn may_follow(above: &BootLine, line: &BootLine) -> bool
    ensures { result ≡ may_follow above.now line.now }
{
    match line {
        BootLine::Frames(_) => false,
        BootLine::Work(_) => is_frames(above),
        BootLine::Library(_) => is_work_or_library(above),
        BootLine::Segment(_) => is_work_or_library(above) || is_segment_or_name(above),
        BootLine::Name(_) => is_segment_or_name(above),
        BootLine::Start(_) => is_work_or_library(above) || is_segment_or_name(above),
    }
}

// Whether a line may follow the lines above.
fn is_in_order(above: &[BootLine], line: &BootLine) -> bool
    ensures { result ≡ is_in_order_after (last_of above.now) line.now }
{
    match above.last() {
        None => is_frames(line),
        Some(last) => may_follow(last, line),
    }
}

// The directory of the last segment line after one more line; `dir` is that before it.
fn directory_after<'a>(dir: &'a [u8], line: &'a BootLine) -> &'a [u8]
    ensures { result.now ≡ directory_after dir.now line.now }
{
    match line {
        BootLine::Segment(given) => given.dir.bytes(),
        _ => dir,
    }
}

// The directory of the last segment line; empty if there is none.
fn last_directory(lines: &[BootLine]) -> &[u8]
    ensures { result.now ≡ directory_at_end [] lines.now }
{
    let mut dir: &[u8] = &[];
    for line in lines {
        dir = directory_after(dir, line);
    }
    dir
}

// Whether a line puts this name into this directory. `behind` is the directory of the last segment
// line above it.
fn is_line_of_entry(behind: &[u8], line: &BootLine, dir: &[u8], name: &[u8]) -> bool
    ensures { result ≡ list_any (is_same_entry (entry dir.now name.now))
        (entries_of_line behind.now line.now) }
{
    match line {
        BootLine::Segment(given) => given.dir.bytes() == dir && given.name.bytes() == name,
        BootLine::Name(further) => behind == dir && further.bytes() == name,
        _ => false,
    }
}

// Whether one of the lines puts this name into this directory.
#[tactic(auto, unfolding(crate::specs::BootOrder::has_entry), using(crate::proofs::LineLoops::entry_found, crate::proofs::LineLoops::entry_more, crate::proofs::LineLoops::entry_all))]
fn has_entry(lines: &[BootLine], dir: &[u8], name: &[u8]) -> bool
    ensures { result ≡ has_entry lines.now dir.now name.now }
{
    let mut behind: &[u8] = &[];
    for line in lines {
        if is_line_of_entry(behind, line, dir, name) {
            return true;
        }
        behind = directory_after(behind, line);
    }
    false
}

// D2: whether a line puts a name into a directory that has it already.
fn is_repeated(above: &[BootLine], line: &BootLine) -> bool
    ensures { result ≡ is_repeated above.now line.now }
{
    match line {
        BootLine::Segment(given) => has_entry(above, given.dir.bytes(), given.name.bytes()),
        BootLine::Name(name) => has_entry(above, last_directory(above), name.bytes()),
        _ => false,
    }
}

// Whether a line puts a segment into this directory.
fn is_in_directory(dir: &[u8], line: &BootLine) -> bool
    ensures { result ≡ is_in_directory dir.now line.now }
{
    match line {
        BootLine::Segment(given) => given.dir.bytes() == dir,
        _ => false,
    }
}

// Whether a line is a segment line of a directory.
fn is_line_in_directory(dir: &[u8], line: &[u8]) -> bool
    ensures { result ≡ is_parsed_line_in_directory dir.now (parsed_line (Some line.now)) }
{
    match read_line(line) {
        Some(line) => is_in_directory(dir, &line),
        None => false,
    }
}

// Whether a segment line of the text has this directory.
#[tactic(auto, using(crate::proofs::TextLoops::text_found, crate::proofs::TextLoops::text_more, crate::proofs::TextLoops::text_all))]
fn has_directory(text: &[u8], dir: &[u8]) -> bool
    ensures { result ≡ has_directory (well_formed_lines text.now) dir.now }
{
    let mut rest = text;
    while let Some((line, behind)) = first_line(rest) {
        if is_line_in_directory(dir, line) {
            return true;
        }
        rest = behind;
    }
    false
}

// D3: whether a `work` or `library` line names a directory that has no segment in the whole text.
fn names_no_directory(text: &[u8], line: &BootLine) -> bool
    ensures { result ≡ names_no_directory (well_formed_lines text.now) line.now }
{
    match line {
        BootLine::Work(dir) => !has_directory(text, dir.bytes()),
        BootLine::Library(dir) => !has_directory(text, dir.bytes()),
        _ => false,
    }
}

// Whether a segment is declared a gate but cannot be one: it may not be executed, or no outer ring
// may call it.
fn is_no_gate(given: &SegmentLine) -> bool
    ensures { result ≡ is_no_gate given.now.kind given.now }
{
    match given.kind {
        SegKind::Gate => !given.mode.executable || given.r2 == given.r3,
        _ => false,
    }
}

// Whether R1 <= R2 <= R3.
fn brackets_in_order(given: &SegmentLine) -> bool
    ensures { result ≡ brackets_in_order given.now }
{
    given.r1 <= given.r2 && given.r2 <= given.r3
}

// D4: whether the brackets of a segment line are refused.
fn has_wrong_brackets(line: &BootLine) -> bool
    ensures { result ≡ has_wrong_brackets line.now }
{
    match line {
        BootLine::Segment(given) => !brackets_in_order(given) || is_no_gate(given),
        _ => false,
    }
}

// The number of `name` lines at the end after one more line, if there were `names` before it.
fn name_count_after(names: usize, line: &BootLine) -> usize
    requires { names < 2 ^ 63 }
    ensures value { result ≡ name_count_after names line.now }
    ensures bound { result ≤ names + 1 }
{
    match line {
        BootLine::Name(_) => names + 1,
        _ => 0,
    }
}

// The number of `name` lines at the end of these lines.
#[tactic(auto, using(crate::proofs::LineLoops::names_more, crate::proofs::LineLoops::names_all))]
fn name_count_at_end(lines: &[BootLine]) -> usize
    ensures { result ≡ name_count_at_end 0 lines.now }
{
    let mut names = 0;
    for line in lines {
        names = name_count_after(names, line);
    }
    names
}

// The number of `segment` lines.
fn count_segments(lines: &[BootLine]) -> usize
    ensures { result ≡ count_by is_segment lines.now }
{
    lines.iter().filter(|line| is_segment(line)).count()
}

// The number of `library` lines.
fn count_libraries(lines: &[BootLine]) -> usize
    ensures { result ≡ count_by is_library lines.now }
{
    lines.iter().filter(|line| is_library(line)).count()
}

// D5: whether there are already as many lines of this kind above as there may be. Further names are
// counted for each segment.
fn is_too_many(above: &[BootLine], line: &BootLine) -> bool
    ensures { result ≡ is_too_many above.now line.now }
{
    match line {
        BootLine::Segment(_) => count_segments(above) >= MOST_SEGMENTS,
        BootLine::Name(_) => name_count_at_end(above) >= MOST_FURTHER_NAMES,
        BootLine::Library(_) => count_libraries(above) >= MOST_LIBRARIES,
        _ => false,
    }
}

/// The code of a line of a text, which depends on the lines above it. None if it has none.
#[tactic(auto, unfolding(crate::specs::BootOrder::code_of, m36_text::specs::Lines::first_true_case))]
pub(crate) fn code_of(text: &[u8], above: &[BootLine], line: &BootLine) -> Option<BootCode>
    ensures { result ≡ code_of (well_formed_lines text.now) above.now line.now }
{
    if !is_in_order(above, line) {
        return Some(BootCode::D1);
    }
    if is_repeated(above, line) {
        return Some(BootCode::D2);
    }
    if names_no_directory(text, line) {
        return Some(BootCode::D3);
    }
    if has_wrong_brackets(line) {
        return Some(BootCode::D4);
    }
    if is_too_many(above, line) {
        return Some(BootCode::D5);
    }
    None
}

/// Whether the last line is the start line.
pub(crate) fn has_start_line_at_end(lines: &[BootLine]) -> bool
    ensures { result ≡ has_start_at_end (last_of lines.now) }
{
    match lines.last() {
        Some(BootLine::Start(_)) => true,
        _ => false,
    }
}
