//! Classes of bytes.

ghost use Rattle.std.specs.Prelude.{◌≡◌};
ghost use Rattle.alm_tokens.specs.Bytes.{is_blank, begins_symbol, is_sign, is_placeable_character};
ghost use Rattle.alm_tokens.specs.Bytes.{is_source_byte};

use m36_text::{is_letter, is_name_character};

/// Whether a byte is a space or a tab.
pub fn is_blank(byte: u8) -> bool
    ensures { result ≡ is_blank byte }
{
    matches!(byte, b' ' | b'\t')
}

/// Whether a byte can begin a symbol: a letter or `_`.
pub fn begins_symbol(byte: u8) -> bool
    ensures { result ≡ begins_symbol byte }
{
    is_letter(byte) || byte == b'_'
}

/// Whether a byte is `+` or `-`.
pub fn is_sign(byte: u8) -> bool
    ensures { result ≡ is_sign byte }
{
    matches!(byte, b'+' | b'-')
}

/// Whether a byte can be placed by `aci`: octal 40 to 176.
pub fn is_placeable_character(byte: u8) -> bool
    ensures { result ≡ is_placeable_character byte }
{
    matches!(byte, 0o40..=0o176)
}

/// Whether a source can have this byte outside comments and outside the characters of `aci`, up to
/// its operation `end`.
#[tactic(auto, unfolding(crate::specs::Bytes::is_source_byte))]
pub fn is_source_byte(byte: u8) -> bool
    ensures { result ≡ is_source_byte byte }
{
    is_blank(byte)
        || is_name_character(byte)
        || matches!(
            byte,
            b'\n' | b'|' | b':' | b'+' | b'-' | b'*' | b'$' | b',' | b'"'
        )
}
