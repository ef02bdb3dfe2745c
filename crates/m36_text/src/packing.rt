//! Packing words into bytes, and unpacking them.

ghost use Rattle.std.specs.Prelude.{◌≡◌, ◌+◌, ◌-◌, ◌*◌, ◌/◌, ◌%◌, ◌^◌, ◌<◌, ◌≤◌, ◌⊎◌, [], ◌∷◌};
ghost use Rattle.std.specs.Prelude.{◌++◌, length, drop, IfOk, IfErr, OnOk};
ghost use Rattle.m36_text.specs.Digits.{digits};
ghost use Rattle.m36_text.specs.Packing.{packed, number_of_bytes, last_word, words_of, unpacked};
ghost use Rattle.m36_text.specs.Packing.{UnpackResult, IsFaultOfCount, UnpacksWhatWasPacked};
ghost use Rattle.m36_text.specs.Packing.{PacksWhatWasUnpacked, UnpacksIntoWords};
ghost use Rattle.m36_text.specs.declared.packing.PackFault.TheVariants as fault;

use m36_outside::Text;
use m36_word::{NoMemory, Pair, Word, Words};
use std::alloc::Global;

/// Why bytes could not be unpacked.
#[derive(Clone, Copy, PartialEq, Eq)]
pub enum PackFault {
    /// The number of bytes is not that of packed words: modulo 9 it is neither 0 nor 5. Has that
    /// number.
    T3(usize),
    /// The last four bits, which follow a last single word, are not zero. Has the index of the last
    /// byte, counted from 0.
    T4(usize),
    /// Out of memory.
    NoMemory,
}

impl From<NoMemory> for PackFault {
    ghost from_gives = { λ _ given. given ≡ fault.NoMemory };

    fn from(_cause: NoMemory) -> PackFault {
        PackFault::NoMemory
    }
}

/// Packs the words in order, most significant bit first. An odd number of words is followed by four
/// zero bits. Fails only with `NoMemory`.
pub fn pack(alloc: Global, w: &[Word]) -> Result<Text, NoMemory>
    ensures { IfOk result (λ text. text ≡ packed w.now) }
{
    let mut text = Text::new(alloc);
    let mut rest = w;
    while rest.len() >= 2 {
        text.append(&nine_bytes(first_pair(rest)))?;
        rest = &rest[2..];
    }
    append_last(&mut text, rest)?;
    Ok(text)
}

// Appends the last word, if there is one, in five bytes.
#[tactic(auto, using(crate::proofs::PackingLaws::nothing_packed, crate::proofs::PackingLaws::packed_one))]
fn append_last(text: &mut Text, words: &[Word]) -> Result<(), NoMemory>
    requires { length words.now < 2 }
    ensures { OnOk result (text.new ≡ text.old ++ packed words.now) }
{
    if words.is_empty() {
        return Ok(());
    }
    text.append(&five_bytes(words[0].value() * 16))
}

// The first two words as one number of 72 bits.
#[tactic(auto, using(crate::proofs::PackingLaws::packed_pair))]
fn first_pair(words: &[Word]) -> u128
    requires { 2 ≤ length words.now }
    ensures { packed words.now ≡ digits 256 9 result ++ packed (drop 2 words.now) }
{
    let pair = Pair {
        even: words[0],
        odd: words[1],
    };
    pair.value()
}

// The low 72 bits of a number as nine bytes, the most significant byte first.
#[tactic(auto, unfolding(crate::specs::Digits::digits))]
fn nine_bytes(bits: u128) -> [u8; 9]
    ensures { result ≡ digits 256 9 bits }
{
    [
        ((bits >> 64) % 256) as u8,
        ((bits >> 56) % 256) as u8,
        ((bits >> 48) % 256) as u8,
        ((bits >> 40) % 256) as u8,
        ((bits >> 32) % 256) as u8,
        ((bits >> 24) % 256) as u8,
        ((bits >> 16) % 256) as u8,
        ((bits >> 8) % 256) as u8,
        (bits % 256) as u8,
    ]
}

// The low 40 bits of a number as five bytes, the most significant byte first.
#[tactic(auto, unfolding(crate::specs::Digits::digits))]
fn five_bytes(bits: u64) -> [u8; 5]
    ensures { result ≡ digits 256 5 bits }
{
    [
        ((bits >> 32) % 256) as u8,
        ((bits >> 24) % 256) as u8,
        ((bits >> 16) % 256) as u8,
        ((bits >> 8) % 256) as u8,
        (bits % 256) as u8,
    ]
}

/// Unpacks bytes into words. The error is T3 exactly if the number of bytes modulo 9 is neither 0
/// nor 5, T4 exactly if it is 5 and the last four bits are not zero, or it is `NoMemory`.
#[tactic(auto, unfolding(crate::specs::Packing::unpacked))]
pub fn unpack(alloc: Global, t: &[u8]) -> Result<Words, PackFault>
    ensures says { UnpackResult result (unpacked t.now) }
    ensures place { IfErr result (IsFaultOfCount (length t.now)) }
{
    match t.len() % 9 {
        0 => {}
        5 => {
            let last = t.len() - 1;
            if t[last] % 16 != 0 {
                return Err(PackFault::T4(last));
            }
        }
        _ => return Err(PackFault::T3(t.len())),
    }
    Ok(unpack_words(alloc, t)?)
}

// The words of bytes whose number is that of packed words.
fn unpack_words(alloc: Global, t: &[u8]) -> Result<Words, NoMemory>
    requires { (length t.now % 9 ≡ 0) ⊎ (length t.now % 9 ≡ 5) }
    ensures { IfOk result (λ words. words ≡ words_of (length t.now / 9) t.now) }
{
    let mut words = Words::new(alloc);
    let mut rest = t;
    while rest.len() >= 9 {
        push_group(&mut words, rest)?;
        rest = &rest[9..];
    }
    push_last(&mut words, rest)?;
    Ok(words)
}

// Adds the word that is packed alone in the last five bytes, if there are any. Their last four bits
// are no part of it.
fn push_last(words: &mut Words, bytes: &[u8]) -> Result<(), NoMemory>
    requires { (length bytes.now ≡ 0) ⊎ (length bytes.now ≡ 5) }
    ensures { OnOk result (words.new ≡ words.old ++ last_word bytes.now) }
{
    if bytes.is_empty() {
        return Ok(());
    }
    words.push(Word::low((number(bytes) / 16) as u64))
}

// Adds the two words that are packed in the first nine bytes.
fn push_group(words: &mut Words, bytes: &[u8]) -> Result<(), NoMemory>
    requires { 9 ≤ length bytes.now }
    ensures { OnOk result (words.new ++ words_of (length (drop 9 bytes.now) / 9) (drop 9 bytes.now)
        ≡ words.old ++ words_of (length bytes.now / 9) bytes.now) }
{
    push_pair(words, number(&bytes[..9]))?;
    Ok(())
}

// Adds the two words that 72 bits hold, the more significant one first.
fn push_pair(words: &mut Words, bits: u128) -> Result<(), NoMemory>
    requires { bits < 2 ^ 72 }
    ensures { OnOk result (words.new ≡ words.old ++ bits / 2 ^ 36 ∷ bits % 2 ^ 36 ∷ []) }
{
    let pair = Pair::of_value(bits);
    words.push(pair.even)?;
    words.push(pair.odd)?;
    Ok(())
}

// The number that the bytes represent, the most significant byte first.
#[tactic(auto, using(crate::proofs::PackingLaws::bits_none, crate::proofs::PackingLaws::bits_more, crate::proofs::PackingLaws::fits_more))]
fn number(bytes: &[u8]) -> u128
    requires { length bytes.now ≤ 9 }
    ensures value { result ≡ number_of_bytes bytes.now }
    ensures bound { result < 256 ^ length bytes.now }
{
    let mut value = 0;
    for byte in bytes {
        value = value * 256 + *byte as u128;
    }
    value
}

/// The laws of packing. Unpacking packed words yields those words. If bytes can be unpacked, the
/// results are 36-bit words, and packing these yields the same bytes.
pub fn packing_laws()
    ensures unpack { UnpacksWhatWasPacked }
    ensures pack { PacksWhatWasUnpacked }
    ensures words { UnpacksIntoWords }
{}
