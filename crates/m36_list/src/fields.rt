//! Fields of lines, which are added at the end of a text.

ghost use Rattle.std.specs.Prelude.{[], ◌∷◌, ◌++◌, ◌≡◌, ◌^◌, ◌<◌, OnOk};
ghost use Rattle.m36_text.specs.Digits.{half_text};
ghost use Rattle.m36_text.specs.Lines.{as_line};

use m36_outside::Text;
use m36_text::octal;
use m36_word::NoMemory;

/// Adds a field that is not the last of its line.
pub fn put_field(text: &mut Text, field: &[u8]) -> Result<(), NoMemory>
    ensures { OnOk result (text.new ≡ text.old ++ (field.now ++ 32 ∷ [])) }
{
    text.append(field)?;
    text.push(b' ')
}

/// Adds the last field of a line.
pub fn put_last(text: &mut Text, field: &[u8]) -> Result<(), NoMemory>
    ensures { OnOk result (text.new ≡ text.old ++ as_line field.now) }
{
    text.append(field)?;
    text.push(b'\n')
}

/// Adds a number of six octal digits as a field that is not the last of its line.
pub fn put_number(text: &mut Text, v: u64) -> Result<(), NoMemory>
    requires { v < 2 ^ 18 }
    ensures { OnOk result (text.new ≡ text.old ++ (half_text v ++ 32 ∷ [])) }
{
    put_field(text, octal(v, 6).as_str().as_bytes())
}

/// Adds a number of six octal digits as the last field of a line.
pub fn put_last_number(text: &mut Text, v: u64) -> Result<(), NoMemory>
    requires { v < 2 ^ 18 }
    ensures { OnOk result (text.new ≡ text.old ++ as_line (half_text v)) }
{
    put_last(text, octal(v, 6).as_str().as_bytes())
}
