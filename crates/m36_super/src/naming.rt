//! The text of a link.

ghost use Rattle.std.specs.Prelude.{◌≡◌, ◌+◌, ◌≤◌, ◌++◌, length, option_copied};
ghost use Rattle.m36_super.specs.Services.{link_text};

use arrayvec::ArrayVec;
use obj36::Link;
use obj36::reference::{entry, subject};

// Appends bytes to a text that has room for them.
fn put(text: &mut ArrayVec<u8, 65>, bytes: &[u8])
    requires { length text.old.items + length bytes.now ≤ 65 }
    ensures { text.new.items ≡ text.old.items ++ bytes.now }
{
    match text.try_extend_from_slice(bytes) {
        Ok(()) => {}
        Err(_) => unreachable!(),
    }
}

/// The text of a link: `segment$entry`, `segment$`, `*section$` or `*section$entry`; `?` if there
/// is no link.
#[tactic(auto, unfolding(obj36::specs::References::reference_text))]
pub(crate) fn link_text(link: Option<&Link>) -> ArrayVec<u8, 65>
    ensures { result.items ≡ link_text (option_copied link.entry) }
{
    let mut text = ArrayVec::new();
    match link {
        Some(link) => {
            put(&mut text, subject(link));
            put(&mut text, b"$");
            put(&mut text, entry(link));
        }
        None => put(&mut text, b"?"),
    }
    text
}
