//! Reads the catalog of the boot text, and the access lists.

ghost use Rattle.std.specs.Prelude.{◌≤◌, Ok, Some, length};
ghost use Rattle.m36_outside.specs.ReadAnswer.{file_limit};
ghost use Rattle.m36_dir.specs.Catalog.{catalog_of};
ghost use Rattle.m36_acl.specs.AccessLists.{lists_of};
ghost use Rattle.m36_acl.specs.Granted.{first_unknown};
ghost use Rattle.m36_status.specs.Refusing.{IsRuleResult, IsRuleRefusal};
ghost use Rattle.m36_files.specs.CatalogRules.{catalog_refusal, catalog_or_refusal, acl_refusal};
ghost use Rattle.m36_files.specs.CatalogRules.{lists_refusal, lists_if_known, lists_or_refusal};
ghost use Rattle.m36_files.specs.CatalogRules.{for_user};
ghost use Rattle.m36_program.specs.Performs.{Performs};
ghost use Rattle.m36_program.specs.Program.{May};
ghost use Rattle.m36_files.specs.Catalogs.{boot_catalog, access_lists, catalog_with_rights};
ghost use Rattle.m36_files.specs.Catalogs.{catalog_access};

use crate::access::Access;
use crate::boot_refusal::refuse_boot;
use crate::deciding::refusal_as_status;
use m36_acl::{Acl, AclFault, User};
use m36_dir::{Catalog, CatalogFault};
use m36_program::read_bytes;
use m36_status::{Code, Refusal, Status, refuse};
use m36_world::World;
use std::alloc::Global;

// The refusal of a boot text that is no catalog: D1 to D6.
fn refuse_catalog(alloc: Global, fault: CatalogFault) -> Refusal
    ensures { IsRuleRefusal result (catalog_refusal fault) }
{
    match fault {
        CatalogFault::D1(line) => refuse_boot(alloc, Code::D1, line),
        CatalogFault::D2(line) => refuse_boot(alloc, Code::D2, line),
        CatalogFault::D3(line) => refuse_boot(alloc, Code::D3, line),
        CatalogFault::D4(line) => refuse_boot(alloc, Code::D4, line),
        CatalogFault::D5(line) => refuse_boot(alloc, Code::D5, line),
        CatalogFault::D6(line) => refuse_boot(alloc, Code::D6, line),
        CatalogFault::NoMemory => Refusal::NoMemory,
    }
}

// Parses the catalog from the bytes of a boot text, at most 16 MiB.
#[tactic(auto, using(crate::proofs::CatalogRuleLaws::catalogs))]
fn catalog_in(alloc: Global, bytes: &[u8]) -> Result<Catalog, Refusal>
    requires { length bytes.now ≤ file_limit }
    ensures { IsRuleResult result (catalog_or_refusal (catalog_of bytes.now)) }
{
    match Catalog::read(alloc, bytes) {
        Ok(catalog) => Ok(catalog),
        Err(fault) => Err(refuse_catalog(alloc, fault)),
    }
}

/// Reads the boot text, and parses its catalog. An error is the status of the command.
pub fn read_catalog<W: World>(alloc: Global, world: &mut W) -> Result<Catalog, Status>
    ensures { (may : May) → Performs {may = may} boot_catalog result
        (W.seen world.old) (W.seen world.new) }
{
    match read_bytes(alloc, b"boot", world) {
        Ok(text) => {
            let given = catalog_in(alloc, text.bytes());
            drop(text);
            refusal_as_status(given)
        }
        Err(status) => Err(status),
    }
}

// The refusal of the access lists, with a code and a line.
fn refuse_acl(alloc: Global, code: Code, at: u32) -> Refusal
    ensures { IsRuleRefusal result (acl_refusal code at) }
{
    refuse(alloc, b"acl", code, at)
}

// The refusal of a text that has no access lists: C1 or C2.
fn refuse_lists(alloc: Global, fault: AclFault) -> Refusal
    ensures { IsRuleRefusal result (lists_refusal fault) }
{
    match fault {
        AclFault::C1(line) => refuse_acl(alloc, Code::C1, line),
        AclFault::C2(line) => refuse_acl(alloc, Code::C2, line),
        AclFault::NoMemory => Refusal::NoMemory,
    }
}

// The access lists, or C3 if they name a segment that is not in the catalog.
fn check_known(alloc: Global, catalog: &Catalog, lists: Acl) -> Result<Acl, Refusal>
    ensures { IsRuleResult result (lists_if_known lists (first_unknown catalog.now lists)) }
{
    match lists.first_unknown(catalog) {
        None => Ok(lists),
        Some(line) => Err(refuse_acl(alloc, Code::C3, line)),
    }
}

// Parses the access lists for a catalog from the bytes of a text, at most 16 MiB.
#[tactic(auto, using(crate::proofs::CatalogRuleLaws::lists_said))]
fn lists_in(alloc: Global, catalog: &Catalog, bytes: &[u8]) -> Result<Acl, Refusal>
    requires { length bytes.now ≤ file_limit }
    ensures { IsRuleResult result (lists_or_refusal catalog.now (lists_of bytes.now)) }
{
    match Acl::read(alloc, bytes) {
        Ok(lists) => check_known(alloc, catalog, lists),
        Err(fault) => Err(refuse_lists(alloc, fault)),
    }
}

/// Reads and parses the access lists for a catalog. An error is the status of the command.
pub fn read_lists<W: World>(alloc: Global, catalog: &Catalog, world: &mut W) -> Result<Acl, Status>
    ensures { (may : May) → Performs {may = may} (access_lists catalog.now) result
        (W.seen world.old) (W.seen world.new) }
{
    match read_bytes(alloc, b"acl", world) {
        Ok(text) => {
            let given = lists_in(alloc, catalog, text.bytes());
            drop(text);
            refusal_as_status(given)
        }
        Err(status) => Err(status),
    }
}

// The catalog with the rights that the lists give to a user.
fn access_with_lists(
    alloc: Global,
    user: &User,
    catalog: Catalog,
    lists: &Acl,
) -> Result<Access, Refusal>
    ensures { IsRuleResult result (Ok (for_user user.now catalog lists.now)) }
{
    Ok(Access::for_user(alloc, user, catalog, lists)?)
}

// Reads the access lists, and returns the catalog with the rights of a user.
fn read_for_user<W: World>(
    alloc: Global,
    user: &User,
    catalog: Catalog,
    world: &mut W,
) -> Result<Access, Status>
    ensures { (may : May) → Performs {may = may}
        (catalog_with_rights (Some user.now) catalog) result
        (W.seen world.old) (W.seen world.new) }
{
    match read_lists(alloc, &catalog, world) {
        Ok(lists) => {
            let given = access_with_lists(alloc, user, catalog, &lists);
            drop(lists);
            refusal_as_status(given)
        }
        Err(status) => Err(status),
    }
}

// The catalog with the rights of a user; without a user, with those of the boot text.
#[tactic(auto, using(crate::proofs::CatalogLaws::rights))]
fn read_rights<W: World>(
    alloc: Global,
    user: &Option<User>,
    catalog: Catalog,
    world: &mut W,
) -> Result<Access, Status>
    ensures { (may : May) → Performs {may = may} (catalog_with_rights user.now catalog) result
        (W.seen world.old) (W.seen world.new) }
{
    match user {
        Some(user) => read_for_user(alloc, user, catalog, world),
        None => Ok(Access::with_boot_text_rights(alloc, catalog)),
    }
}

/// Reads the boot text, and the access lists if there is a user. An error is the status of the
/// command.
#[tactic(auto, using(crate::proofs::CatalogLaws::accesses))]
pub fn read_access<W: World>(
    alloc: Global,
    user: &Option<User>,
    world: &mut W,
) -> Result<Access, Status>
    ensures { (may : May) → Performs {may = may} (catalog_access user.now) result
        (W.seen world.old) (W.seen world.new) }
{
    match read_catalog(alloc, world) {
        Ok(catalog) => read_rights(alloc, user, catalog, world),
        Err(status) => Err(status),
    }
}
