//! Short texts that are spelled directly into the memory of a block.

ghost use Rattle.std.specs.Prelude.{ℕ, List, ◌≡◌, ◌≤◌, ◌+◌, ◌++◌, length, take};

/// The maximum length of a short text, in bytes.
pub const SHORT: usize = 112;

/// A text of at most 112 bytes that writes itself into a buffer.
///
/// The buffer always has 112 bytes, so `spell` may write more than the text: it writes parts of
/// fixed lengths by [`put_at`], one after the other, and each overwrites the surplus of the one
/// before it.
pub trait Spelled {
    /// The text.
    ghost text: { Self → List ℕ };

    /// Writes the text to the beginning of `into`, and returns its length. The bytes after it may
    /// change too.
    fn spell(&self, into: &mut [u8]) -> usize
        requires { length into.old ≡ SHORT }
        ensures bound { result ≤ SHORT }
        ensures text { take result into.new ≡ text self.now };
}

/// Writes an array of bytes at an index. What is before that index is unchanged.
#[inline(always)]
#[tactic(auto, using(crate::proofs::Fronts::front_put))]
pub fn put_at<const N: usize>(into: &mut [u8], place: usize, bytes: &[u8; N])
    requires { place + N ≤ length into.old }
    ensures { (count : ℕ) → count ≤ N
        → take (place + count) into.new ≡ take place into.old ++ take count bytes.now }
{
    put_all(&mut into[place..place + N], bytes);
}

// Copies the bytes as an array, which takes only a few instructions.
#[inline(always)]
fn put_all<const N: usize>(into: &mut [u8], bytes: &[u8; N])
    requires { length into.old ≡ N }
    ensures { into.new ≡ bytes.now }
{
    match into.as_mut_array() {
        Some(all) => *all = *bytes,
        None => unreachable!(),
    }
}
