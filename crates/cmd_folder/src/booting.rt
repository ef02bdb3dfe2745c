//! Boots the catalog of a folder with the files of its segments.

ghost use Rattle.std.specs.Prelude.{ℕ, ◌≡◌, ◌≤◌, List, [], ◌∷◌, ◌++◌, Ok, length, IfOk};
ghost use Rattle.obj36_parts.specs.ObjectSegment.{segment_limit};
ghost use Rattle.m36_status.specs.Refusing.{RuleResult, IsRuleResult, IsRuleRefusal};
ghost use Rattle.cmd_folder.specs.Folder.{folder_with, refusal_of_fault, boot_result};
ghost use Rattle.cmd_folder.specs.BootedSystems.{IsFresh, folder_result};

use crate::files::SegmentFiles;
use m36_acl::DeniedLines;
use m36_boot::BootFault;
use m36_dir::Catalog;
use m36_files::boot_refusal::refuse_boot;
use m36_status::{Code, Refusal};
use m36_super::Super;
use m36_word::Words;
use std::alloc::Global;

/// A booted folder.
#[derive(Drop)]
pub struct BootedFolder {
    pub system: Super,
    /// For each segment of the catalog the line `denied` that is printed if a run ends because a
    /// right to it was missing; no lines without a user.
    pub denied: DeniedLines,
}

/// Adds the words of a file to those read before. Fails only with `NoMemory`.
pub fn with_file(mut files: SegmentFiles, words: Words) -> Result<SegmentFiles, Refusal>
    requires { length words ≤ segment_limit }
    ensures gives { IsRuleResult result
        (let more : RuleResult (List (List ℕ)) = Ok (files ++ words ∷ []) in more) }
    ensures more { IfOk result (λ more. more ≡ files ++ words ∷ []) }
{
    files.push(words)?;
    Ok(files)
}

// The refusal of a catalog and files that do not boot: U1 to U4, of which U2 and U4 have the number
// of the segment as their place.
fn refuse_fault(alloc: Global, fault: BootFault) -> Refusal
    ensures { IsRuleRefusal result (refusal_of_fault fault) }
{
    match fault {
        BootFault::U1 => refuse_boot(alloc, Code::U1, 0),
        BootFault::U2(segment) => refuse_boot(alloc, Code::U2, segment as u32),
        BootFault::U3 => refuse_boot(alloc, Code::U3, 0),
        BootFault::U4(segment) => refuse_boot(alloc, Code::U4, segment as u32),
        BootFault::NoMemory => Refusal::NoMemory,
    }
}

/// Boots a catalog with the words of the files of its segments. Refuses them with U1 to U4 if they
/// do not boot.
#[tactic(auto, using(crate::proofs::FolderBoots::booting))]
pub fn boot_files(
    alloc: Global,
    catalog: Catalog,
    denied: DeniedLines,
    files: SegmentFiles,
) -> Result<BootedFolder, Refusal>
    requires { length files ≡ length catalog.segments }
    ensures gives { IsRuleResult (folder_result result)
        (boot_result (folder_with record { catalog = catalog; denied = denied } files)) }
    ensures booted { IfOk result (λ booted. IsFresh booted.system) }
{
    match Super::boot(alloc, catalog, files.items) {
        Ok(system) => Ok(BootedFolder { system, denied }),
        Err(fault) => {
            drop(denied);
            Err(refuse_fault(alloc, fault))
        }
    }
}
