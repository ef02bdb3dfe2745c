//! The commands.

use cmd_folder::FolderCommand;
use cmd_image::BareRun;
use cmd_tools::{AlmFiles, BindFiles};
use m36_acl::User;
use m36_text::Name;

/// What the words of the command line ask for.
#[derive(Drop)]
pub enum Command {
    /// `bare FILE`: audits the machine of a bare image, and runs it.
    Bare(Name, BareRun),
    /// `audit FILE`: audits the machine of a bare image.
    Audit(Name),
    /// `audit`, `run` and `trace`: boots the folder, with the rights of a user if one is given,
    /// audits its core, and may run it.
    Booted(FolderCommand, Option<User>),
    /// `procs FILE`: audits several processes on one core, and runs them by their schedule if the
    /// audit passes or the Boolean (`--unaudited`) is true.
    Procs(Name, bool),
    /// `access USER`: prints what a user may do with each segment.
    Access(User),
    /// `print NAME`: prints an object.
    Print(Name),
    /// `alm NAME`: assembles a source, writes the object, and then prints the listing.
    Alm(AlmFiles),
    /// `bind NAME`: binds the components of a bind file, writes the object, and then prints it.
    Bind(BindFiles),
    /// `debug`: boots the folder, and holds a session over it.
    DebugFolder,
    /// `debug FILE`: holds a session over the machine of a bare image.
    DebugImage(Name),
    /// `make SEED`: makes a folder from a seed, writes it, boots it, audits its core, and runs it
    /// if the audit passes.
    Make(u64),
}
