//! Operands, and names of files.

ghost use Rattle.std.specs.Prelude.{◌≡◌, ◌≤◌, ◌++◌, length, Some};
ghost use Rattle.m36_text.specs.FileNames.{source_of_object, bindfile_of_object};
ghost use Rattle.m36_top.specs.Words.{operand_or_none, operand_of, made_name_limit};

use arrayvec::ArrayVec;
use m36_acl::User;
use m36_dir::words::name_of;
use m36_text::Name;

/// An operand, read both as a name of a file and as a user. Some texts are both, and none is
/// neither.
#[derive(Drop)]
pub struct Operand {
    pub file: Option<Name>,
    pub user: Option<User>,
}

// An operand that is the name of a file, a user, or both; None if it is neither.
fn operand_or_none(file: Option<Name>, user: Option<User>) -> Option<Operand>
    ensures { result ≡ operand_or_none file user }
{
    if file.is_none() && user.is_none() {
        return None;
    }
    Some(Operand { file, user })
}

/// A word as an operand; None if it is neither the name of a file nor a user.
pub fn operand_of(word: &[u8]) -> Option<Operand>
    ensures { result ≡ operand_of word.now }
{
    operand_or_none(name_of(word), User::read(word))
}

/// The name of the source of an object: NAME.alm. The name of the object has at most 27 characters.
pub fn source_of(object: &[u8]) -> Option<Name>
    requires { length object.now ≤ made_name_limit }
    ensures { result ≡ Some (source_of_object object.now) }
{
    let mut name: ArrayVec<u8, 32> = ArrayVec::new();
    let _ = name.try_extend_from_slice(object);
    let _ = name.try_extend_from_slice(b".alm");
    Name::new(name.as_slice())
}

/// The name of the bind file of an object: NAME.bind. The name of the object has at most 27
/// characters.
pub fn bindfile_of(object: &[u8]) -> Option<Name>
    requires { length object.now ≤ made_name_limit }
    ensures { result ≡ Some (bindfile_of_object object.now) }
{
    let mut name: ArrayVec<u8, 32> = ArrayVec::new();
    let _ = name.try_extend_from_slice(object);
    let _ = name.try_extend_from_slice(b".bind");
    Name::new(name.as_slice())
}
