//! The bytes of an object.

ghost use Rattle.std.specs.Prelude.{◌≡◌, IfOk};
ghost use Rattle.cmd_tools.specs.Assemblies.{object_bytes};

use m36_outside::Text;
use m36_text::pack;
use m36_word::NoMemory;
use obj36::Object;
use std::alloc::Global;

/// The bytes of an object: its words, packed. Fails only with `NoMemory`.
pub fn object_bytes(alloc: Global, object: &Object) -> Result<Text, NoMemory>
    ensures { IfOk result (λ bytes. bytes ≡ object_bytes object.now) }
{
    let words = object.write(alloc)?;
    let packed = pack(alloc, words.slice())?;
    Ok(packed)
}
