//! The names of registers and modifiers.

ghost use Rattle.std.specs.Prelude.{◌≡◌, ◌<◌, IfSome};
ghost use Rattle.m36_text.specs.Numbers.{octal_in};
ghost use Rattle.alm_tokens.specs.Modifiers.{without_x, register_tag, pr_number_by_digit};
ghost use Rattle.alm_tokens.specs.Modifiers.{pr_number_by_name, pr_number, single_tag};
ghost use Rattle.alm_tokens.specs.Modifiers.{indirect_first_modifier, indirect_last_modifier};
ghost use Rattle.alm_tokens.specs.Modifiers.{tag_of};

use m36_text::{is_text, octal_in};

// Parses a text that is one octal digit.
fn octal_digit(bytes: &[u8]) -> Option<u8>
    ensures value { result ≡ octal_in 1 bytes.now }
    ensures below { IfSome result (λ n. n < 8) }
{
    let digit = octal_in(bytes, 1)?;
    Some(digit as u8)
}

// A text without the `x` that may be at its beginning, as in the names of index registers.
fn without_x(bytes: &[u8]) -> &[u8]
    ensures { result.now ≡ without_x bytes.now }
{
    match bytes {
        [b'x', rest @ ..] => rest,
        _ => bytes,
    }
}

/// The tag of a register that modifies an address, 0 to 15. `n` is no register, and a digit alone
/// is an index register.
#[tactic(auto, unfolding(crate::specs::Modifiers::register_tag))]
pub fn register_tag(bytes: &[u8]) -> Option<u8>
    ensures value { result ≡ register_tag bytes.now }
    ensures below { IfSome result (λ n. n < 16) }
{
    if is_text(b"n", bytes) {
        return Some(0);
    }
    if is_text(b"au", bytes) {
        return Some(1);
    }
    if is_text(b"qu", bytes) {
        return Some(2);
    }
    if is_text(b"du", bytes) {
        return Some(3);
    }
    if is_text(b"ic", bytes) {
        return Some(4);
    }
    if is_text(b"al", bytes) {
        return Some(5);
    }
    if is_text(b"ql", bytes) {
        return Some(6);
    }
    if is_text(b"dl", bytes) {
        return Some(7);
    }
    let index = octal_digit(without_x(bytes))?;
    Some(8 + index)
}

// The number of a pointer register that is written `pr0` to `pr7`.
fn pr_number_by_digit(bytes: &[u8]) -> Option<u8>
    ensures value { result ≡ pr_number_by_digit bytes.now }
    ensures below { IfSome result (λ n. n < 8) }
{
    match bytes {
        [b'p', b'r', rest @ ..] => octal_digit(rest),
        _ => None,
    }
}

// The number of a pointer register that is written by its name, `ap` to `sb`.
#[tactic(auto, unfolding(crate::specs::Modifiers::pr_number_by_name))]
fn pr_number_by_name(bytes: &[u8]) -> Option<u8>
    ensures value { result ≡ pr_number_by_name bytes.now }
    ensures below { IfSome result (λ n. n < 8) }
{
    if is_text(b"ap", bytes) {
        return Some(0);
    }
    if is_text(b"ab", bytes) {
        return Some(1);
    }
    if is_text(b"bp", bytes) {
        return Some(2);
    }
    if is_text(b"bb", bytes) {
        return Some(3);
    }
    if is_text(b"lp", bytes) {
        return Some(4);
    }
    if is_text(b"lb", bytes) {
        return Some(5);
    }
    if is_text(b"sp", bytes) {
        return Some(6);
    }
    if is_text(b"sb", bytes) {
        return Some(7);
    }
    None
}

/// The number of a pointer register: `pr0` to `pr7`, or one of the eight names `ap` to `sb`.
#[tactic(auto, unfolding(crate::specs::Modifiers::pr_number))]
pub fn pr_number(bytes: &[u8]) -> Option<u8>
    ensures value { result ≡ pr_number bytes.now }
    ensures below { IfSome result (λ n. n < 8) }
{
    match pr_number_by_digit(bytes) {
        Some(number) => Some(number),
        None => pr_number_by_name(bytes),
    }
}

// The tag of `*` or a tally modifier.
#[tactic(auto, unfolding(crate::specs::Modifiers::single_tag))]
fn single_tag(bytes: &[u8]) -> Option<u8>
    ensures value { result ≡ single_tag bytes.now }
    ensures below { IfSome result (λ n. n < 64) }
{
    if is_text(b"*", bytes) {
        return Some(0o20);
    }
    if is_text(b"sd", bytes) {
        return Some(0o44);
    }
    if is_text(b"i", bytes) {
        return Some(0o51);
    }
    if is_text(b"ad", bytes) {
        return Some(0o53);
    }
    if is_text(b"di", bytes) {
        return Some(0o54);
    }
    if is_text(b"id", bytes) {
        return Some(0o56);
    }
    None
}

// The tag of `*` before a register.
fn indirect_first_modifier(bytes: &[u8]) -> Option<u8>
    ensures value { result ≡ indirect_first_modifier bytes.now }
    ensures below { IfSome result (λ n. n < 64) }
{
    match bytes {
        [b'*', rest @ ..] => {
            let register = register_tag(rest)?;
            Some(0o60 + register)
        }
        _ => None,
    }
}

// The tag of `*` after a register.
fn indirect_last_modifier(bytes: &[u8]) -> Option<u8>
    ensures value { result ≡ indirect_last_modifier bytes.now }
    ensures below { IfSome result (λ n. n < 64) }
{
    if bytes.is_empty() {
        return None;
    }
    let last = bytes.len() - 1;
    if bytes[last] != b'*' {
        return None;
    }
    let register = register_tag(&bytes[..last])?;
    Some(0o20 + register)
}

/// The tag of a modifier, six bits. None if the text is not a modifier.
#[tactic(auto, unfolding(crate::specs::Modifiers::tag_of))]
pub fn tag_of(bytes: &[u8]) -> Option<u8>
    ensures value { result ≡ tag_of bytes.now }
    ensures below { IfSome result (λ n. n < 64) }
{
    if let Some(tag) = single_tag(bytes) {
        return Some(tag);
    }
    if let Some(tag) = register_tag(bytes) {
        return Some(tag);
    }
    if let Some(tag) = indirect_first_modifier(bytes) {
        return Some(tag);
    }
    indirect_last_modifier(bytes)
}
