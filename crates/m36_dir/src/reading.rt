//! Parses the lines of a boot text in order, up to the first that has a code.

ghost use Rattle.std.specs.Prelude.{◌≡◌, ◌<◌, ◌^◌, [], ◌∷◌, ◌++◌, length, Some, None, IfOk, IfErr};
ghost use Rattle.std.specs.Prelude.{OnOk};
ghost use Rattle.m36_dir.specs.BootLine.{parsed_line};
ghost use Rattle.m36_dir.specs.BootOrder.{code_of_rest, ChecksLine, well_formed_lines, first_code};
ghost use Rattle.m36_dir.specs.Catalog.{catalog_in, catalog_of, RefusesWith};
ghost use Rattle.m36_dir.specs.IsCatalog.{IsCatalog};

use crate::boot_code::{BootCode, fault_at};
use crate::boot_line::BootLine;
use crate::fault::CatalogFault;
use crate::forms::read_line;
use crate::order::{code_of, has_start_line_at_end};
use m36_text::first_line;
use m36_word::NoMemory;
use std::alloc::Global;

// The parsed line, or its code.
fn check_line(text: &[u8], above: &[BootLine], line: &[u8]) -> Result<BootLine, BootCode>
    ensures { ChecksLine (well_formed_lines text.now) above.now
        (parsed_line (Some line.now)) result }
{
    let Some(line) = read_line(line) else {
        return Err(BootCode::D1);
    };
    match code_of(text, above, &line) {
        None => Ok(line),
        Some(code) => Err(code),
    }
}

// The code of what follows the last whole line: D1 for a line that lacks its line feed, D6 for the
// end of a text that has no `start` line.
fn code_of_rest(above: &[BootLine], rest: &[u8]) -> Option<BootCode>
    ensures { result ≡ code_of_rest above.now rest.now }
{
    if !rest.is_empty() {
        return Some(BootCode::D1);
    }
    if has_start_line_at_end(above) {
        None
    } else {
        Some(BootCode::D6)
    }
}

// Adds a line at the end.
fn add_line(lines: &mut Vec<BootLine>, line: BootLine) -> Result<(), NoMemory>
    ensures { OnOk result (lines.new.items ≡ lines.old.items ++ line ∷ []) }
{
    lines.push(line)?;
    Ok(())
}

/// All lines of a text, parsed, if none has a code. Otherwise the first line that has one, with its
/// code, or `NoMemory`.
pub(crate) fn read_lines(alloc: Global, text: &[u8]) -> Result<Vec<BootLine>, CatalogFault>
    requires { length text.now < 2 ^ 32 }
    ensures lines { IfOk result (λ lines. lines.items ≡ well_formed_lines text.now) }
    ensures none { IfOk result (λ lines. first_code text.now ≡ None) }
    ensures kept { IfOk result (λ lines. IsCatalog (catalog_in lines.items)) }
    ensures told { IfErr result (λ told. RefusesWith told (catalog_of text.now)) }
{
    let mut above = Vec::new(alloc);
    let mut rest = text;
    let mut number: u32 = 1;
    while let Some((line, behind)) = first_line(rest) {
        match check_line(text, &above, line) {
            Ok(line) => add_line(&mut above, line)?,
            Err(code) => return Err(fault_at(number, code)),
        }
        rest = behind;
        number += 1;
    }
    match code_of_rest(&above, rest) {
        None => Ok(above),
        Some(code) => Err(fault_at(number, code)),
    }
}
