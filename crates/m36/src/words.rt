//! Reads the words of the command line.

use m36_outside::Text;
use m36_word::NoMemory;
use std::alloc::Global;
use std::env::{Env, FillError};

/// The length of the first buffer for a word, in bytes.
const FIRST_LENGTH: usize = 256;

/// Reads the words after the program's name, each as its bytes.
pub fn read_words(env: &impl Env, alloc: Global) -> Result<Vec<Text>, NoMemory> {
    let mut words = Vec::new(alloc);
    for number in 1..usize::MAX {
        match read_word(env, alloc, number)? {
            Some(word) => words.push(word)?,
            None => return Ok(words),
        }
    }
    Ok(words)
}

/// Reads the word with this number; 0 is the program's name. None if there is no such word, or no
/// buffer could hold it. The buffer is doubled until the word fits.
fn read_word(env: &impl Env, alloc: Global, number: usize) -> Result<Option<Text>, NoMemory> {
    let mut buffer = vec![in alloc; 0u8; FIRST_LENGTH]?;
    for _turn in 0..usize::BITS {
        match env.arg(number, buffer.as_mut_slice()) {
            Ok(count) => {
                let word = Text::from_bytes(alloc, &buffer.as_slice()[..count])?;
                return Ok(Some(word));
            }
            Err(FillError::NotPresent) => return Ok(None),
            Err(FillError::TooLong) => double(&mut buffer)?,
        }
    }
    Ok(None)
}

/// Doubles the length of a buffer.
fn double(buffer: &mut Vec<u8>) -> Result<(), NoMemory> {
    let length = buffer.len();
    buffer.resize(length.saturating_add(length), 0)?;
    Ok(())
}
