//! Reads the boot text of a folder and the files of its segments, and boots the system.

ghost use Rattle.std.specs.Prelude.{◌≡◌, ◌+◌, [], length, IfOk};
ghost use Rattle.cmd_folder.specs.BootedSystems.{IsFresh};
ghost use Rattle.m36_program.specs.Performs.{Performs};
ghost use Rattle.m36_program.specs.Program.{May};
ghost use Rattle.m36_files.specs.EachFile.{read_and_append, read_each};
ghost use Rattle.m36_files.specs.FileReaders.{file_words};
ghost use Rattle.cmd_folder.specs.FolderProgram.{segment_words, files_booted, folder_given};
ghost use Rattle.cmd_folder.specs.Systems.{folder_result};

use crate::booting::{BootedFolder, boot_files, with_file};
use crate::files::SegmentFiles;
use m36_acl::User;
use m36_dir::Catalog;
use m36_files::{Access, read_access, read_words, refusal_as_status};
use m36_status::Status;
use m36_world::World;
use std::alloc::Global;

// Reads the file of a segment, and appends its words to those of the files before it.
fn read_file<W: World>(
    alloc: Global,
    name: &[u8],
    world: &mut W,
    files: SegmentFiles,
) -> Result<SegmentFiles, Status>
    ensures performs { (may : May) → Performs {may = may}
        (read_and_append file_words files name.now)
        result (W.seen world.old) (W.seen world.new) }
    ensures more { IfOk result (λ more. length more ≡ length files + 1) }
{
    match read_words(alloc, name, world) {
        Ok(words) => refusal_as_status(with_file(files, words)),
        Err(status) => {
            // Dropped by a call, so that the drop is proved once for its type.
            drop(files);
            Err(status)
        }
    }
}

// Reads the file of each segment of a catalog, in order. A file is checked (F1, F2, T3, T4, F3)
// before the next one is read.
fn read_files<W: World>(
    alloc: Global,
    catalog: &Catalog,
    world: &mut W,
) -> Result<SegmentFiles, Status>
    ensures performs { (may : May)
        → Performs {may = may} (read_each segment_words [] catalog.now.segments) result
        (W.seen world.old) (W.seen world.new) }
    ensures each { IfOk result (λ files. length files ≡ length catalog.now.segments) }
{
    let mut files = SegmentFiles::new(alloc);
    for i in 0..catalog.count() {
        match read_file(alloc, catalog.segment(i).file.bytes(), world, files) {
            Ok(more) => files = more,
            Err(status) => return Err(status),
        }
    }
    Ok(files)
}

// Reads the files of the catalog's segments, and boots the system from them.
fn read_files_and_boot<W: World>(
    alloc: Global,
    access: Access,
    world: &mut W,
) -> Result<BootedFolder, Status>
    ensures performs { (may : May) → Performs {may = may} (files_booted access)
        (folder_result result)
        (W.seen world.old) (W.seen world.new) }
    ensures booted { IfOk result (λ booted. IsFresh booted.system) }
{
    match read_files(alloc, &access.catalog, world) {
        Ok(files) => refusal_as_status(boot_files(alloc, access.catalog, access.denied, files)),
        Err(status) => {
            drop(access);
            Err(status)
        }
    }
}

/// Reads a folder and boots it, with the rights of `user` if there is one. An error is the status
/// of the command.
pub fn read_system<W: World>(
    alloc: Global,
    user: &Option<User>,
    world: &mut W,
) -> Result<BootedFolder, Status>
    ensures performs { (may : May) → Performs {may = may} (folder_given user.now)
        (folder_result result)
        (W.seen world.old) (W.seen world.new) }
    ensures booted { IfOk result (λ booted. IsFresh booted.system) }
{
    match read_access(alloc, user, world) {
        Ok(access) => read_files_and_boot(alloc, access, world),
        Err(status) => Err(status),
    }
}
