//! Appends bytes to a line.

ghost use Rattle.std.specs.Prelude.{◌≡◌, ◌+◌, ◌≤◌, ◌++◌, length};

use arrayvec::ArrayVec;

/// Appends bytes to a line that has room for them.
pub fn append<const N: usize>(line: &mut ArrayVec<u8, N>, bytes: &[u8])
    requires { length line.old.items + length bytes.now ≤ N }
    ensures text { line.new.items ≡ line.old.items ++ bytes.now }
    ensures len { length line.new.items ≡ length line.old.items + length bytes.now }
{
    match line.try_extend_from_slice(bytes) {
        Ok(()) => {}
        Err(_) => unreachable!(),
    }
}
