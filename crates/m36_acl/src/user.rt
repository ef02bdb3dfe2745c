//! Users.

ghost use Rattle.std.specs.Prelude.{◌≡◌, ◌≤◌, length};
ghost use Rattle.m36_acl.specs.Users.{user_of, user_limit};

use crate::matching::is_user;
use arrayvec::ArrayVec;
use std::marker::Model;

/// A user: `Person.Project.tag`, where Person and Project are 1 to 32 letters, digits and `_`, and
/// the tag is a lower-case letter. The text is held in place, so nothing is allocated. The model is
/// the text.
#[derive(Drop)]
pub struct User {
    text: ArrayVec<u8, 67>,
}

impl Model for User {
    ghost use Rattle.std.specs.Prelude.{ℕ, List};

    ghost Value = { List ℕ };

    ghost view = { λ u. u.text.items };
}

// A copy of a text of at most 67 bytes, which is held in place.
pub(crate) fn copied_in_place(text: &[u8]) -> ArrayVec<u8, 67>
    requires { length text.now ≤ user_limit }
    ensures { result.items ≡ text.now }
{
    let mut items = ArrayVec::new();
    match items.try_extend_from_slice(text) {
        Ok(()) => items,
        Err(_) => unreachable!(),
    }
}

impl User {
    /// Parses a user. None exactly if the text does not have the form of a user.
    pub fn read(t: &[u8]) -> Option<User>
        ensures { result ≡ user_of t.now }
    {
        if is_user(t) {
            Some(User {
                text: copied_in_place(t),
            })
        } else {
            None
        }
    }

    /// The text of the user, at most 67 bytes.
    pub fn bytes(&self) -> &[u8]
        ensures value { result.now ≡ self.now }
        ensures fits { length self.now ≤ user_limit }
    {
        self.text.as_slice()
    }
}
