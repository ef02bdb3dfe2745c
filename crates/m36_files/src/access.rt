//! A catalog with the rights of a user.

ghost use Rattle.std.specs.Prelude.{◌≡◌, IfOk};
ghost use Rattle.m36_files.specs.CatalogRules.{with_boot_text_rights, for_user};

use m36_acl::{Acl, DeniedLines, User};
use m36_dir::Catalog;
use m36_word::NoMemory;
use std::alloc::Global;

/// A catalog with the rights that count for a run.
#[derive(Drop)]
pub struct Access {
    pub catalog: Catalog,
    /// For each segment the line `denied` that is printed if a run ends because a right to it was
    /// missing. There are no lines if the rights are those of the boot text.
    pub denied: DeniedLines,
}

impl Access {
    /// A catalog with the rights of its boot text.
    pub fn with_boot_text_rights(alloc: Global, catalog: Catalog) -> Access
        ensures { result ≡ with_boot_text_rights catalog }
    {
        Access {
            catalog,
            denied: DeniedLines::new(alloc),
        }
    }

    /// A catalog with the rights that access lists give to a user. Fails only with `NoMemory`.
    pub fn for_user(
        alloc: Global,
        user: &User,
        mut catalog: Catalog,
        lists: &Acl,
    ) -> Result<Access, NoMemory>
        ensures { IfOk result (λ access. access ≡ for_user user.now catalog lists.now) }
    {
        let denied = lists.denied_lines(alloc, &catalog, user)?;
        lists.grant(&mut catalog, user);
        Ok(Access { catalog, denied })
    }
}
