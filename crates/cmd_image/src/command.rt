//! What is done with a bare image.

/// The options of `bare FILE`.
#[derive(Clone, Copy)]
pub struct BareRun {
    /// The limit of steps; at most 10,000,000 from a command line.
    pub steps: u32,
    /// Whether the machine is run even if its audit fails.
    pub unaudited: bool,
}

/// What is done with a bare image.
#[derive(Clone, Copy)]
pub enum ImageCommand {
    /// `bare FILE`: audits the machine of an image, and runs it if the audit passes or
    /// `--unaudited` is given.
    Bare(BareRun),
    /// `audit FILE`: audits the machine of an image.
    Audit,
}
