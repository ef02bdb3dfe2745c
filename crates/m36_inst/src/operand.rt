//! How instructions reference their operands.

/// What an instruction does with its final address.
#[derive(Clone, Copy, PartialEq, Eq)]
pub enum Operand {
    /// Reads a word.
    R,
    /// Reads a pair of words.
    R2,
    /// Reads a block of 16 words.
    R16,
    /// Writes a word.
    W,
    /// Writes a pair of words.
    W2,
    /// Writes a block of 16 words.
    W16,
    /// Writes the left half of a word.
    Wl,
    /// Writes the right half of a word.
    Wr,
    /// Reads a word, then writes it.
    Rw,
    /// Reads a word, then writes its left half.
    Rwl,
    /// Uses only the address.
    A,
    /// Transfers to the address.
    T,
    /// Forms no address.
    N,
    /// Calls the address; execution may continue in a lower ring.
    Call6,
}
