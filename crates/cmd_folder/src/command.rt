//! What is done with a folder that is booted.

/// A run of a booted system.
#[derive(Clone, Copy)]
pub struct FolderRun {
    /// The limit of steps; at most 10,000,000 from a command line.
    pub steps: u32,
    /// Whether the system is run even if its audit fails.
    pub unaudited: bool,
}

/// What a run prints before its end line.
#[derive(Clone, Copy)]
pub enum RunOutput {
    /// The characters of the console, as they are.
    Console,
    /// A line for each step and each service.
    Trace,
}

/// What is done with a folder that is booted.
#[derive(Clone, Copy)]
pub enum FolderCommand {
    /// `audit`: audits the core of the booted system.
    Audit,
    /// `run`: audits it, and runs the system with its console.
    Run(FolderRun),
    /// `trace`: audits it, and runs the system with a trace.
    Trace(FolderRun),
}
