//! How a run ends.

use m36_model::End;

/// How a run finished.
#[derive(Clone, Copy)]
pub enum Finish {
    /// It ended by a stop, a fault, a refused link or a refused console service.
    Over(End),
    /// It used up its limit of steps, and another step would follow.
    Limit,
}
