//! The codes with which lines of a boot text are refused.

ghost use Rattle.std.specs.Prelude.{◌≡◌};
ghost use Rattle.m36_dir.specs.Catalog.{fault_at};

use crate::fault::CatalogFault;

// A code without the number of its line.
#[derive(Clone, Copy)]
pub(crate) enum BootCode {
    D1,
    D2,
    D3,
    D4,
    D5,
    D6,
}

// The fault with this code at this line.
pub(crate) fn fault_at(line: u32, code: BootCode) -> CatalogFault
    ensures { result ≡ fault_at line code }
{
    match code {
        BootCode::D1 => CatalogFault::D1(line),
        BootCode::D2 => CatalogFault::D2(line),
        BootCode::D3 => CatalogFault::D3(line),
        BootCode::D4 => CatalogFault::D4(line),
        BootCode::D5 => CatalogFault::D5(line),
        BootCode::D6 => CatalogFault::D6(line),
    }
}
