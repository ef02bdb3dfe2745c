//! The files that a seed makes.

ghost use Rattle.std.specs.Prelude.{◌≡◌, ◌<◌, ◌≤◌, ◌++◌, [], ◌∷◌, length, IfOk, OnOk};
ghost use Rattle.m36_text.specs.Packing.{packed};
ghost use Rattle.m36_text.specs.Texts.{name_limit};
ghost use Rattle.m36_gen.specs.Folder.{file, source_files, data_words, zeros, sources_of};
ghost use Rattle.m36_gen.specs.Folder.{fixed_files, files_of};
ghost use Rattle.m36_gen.specs.Lines.{program_count, source_name};
ghost use Rattle.m36_gen.specs.Sources.{source_text};

use crate::catalog::boot_text;
use crate::draws::{Draws, Sequence};
use crate::files::{File, Files};
use crate::lines::{name_of, source_name};
use crate::programs::{PROGRAMS, source, stop_source};
use m36_outside::Text;
use m36_text::pack;
use m36_word::{NoMemory, Word, Words};
use std::alloc::Global;

// The number of words of the data segment.
#[tactic(auto, unfolding(crate::specs::Folder::data_words))]
fn data_words() -> u64
    ensures { result ≡ data_words }
{
    65_792
}

// This many zero words.
#[tactic(auto, unfolding(crate::specs::Folder::zeros))]
fn zeros(alloc: Global, count: u64) -> Result<Words, NoMemory>
    ensures { IfOk result (λ words. words ≡ zeros count) }
{
    let mut words = Words::new(alloc);
    for _ in 0..count {
        words.push(Word::ZERO)?;
    }
    Ok(words)
}

// The content of the data file: its zero words, packed.
fn packed_data(alloc: Global) -> Result<Text, NoMemory>
    ensures { IfOk result (λ text. text ≡ packed (zeros data_words)) }
{
    let words = zeros(alloc, data_words())?;
    pack(alloc, words.slice())
}

// Adds the source of program `i`.
fn add_source(alloc: Global, files: &mut Files, i: u64, draws: Draws) -> Result<(), NoMemory>
    requires { i < program_count }
    ensures { OnOk result
        (files.new ≡ files.old ++ file (source_name i) (source_text i draws) ∷ []) }
{
    let content = source(alloc, i, draws)?;
    files.push(File {
        name: source_name(i),
        content,
    })
}

// Adds a file with a name of at most 32 bytes.
fn add_file(files: &mut Files, name: &[u8], content: Text) -> Result<(), NoMemory>
    requires { length name.now ≤ name_limit }
    ensures { OnOk result (files.new ≡ files.old ++ file name.now content ∷ []) }
{
    files.push(File {
        name: name_of(name),
        content,
    })
}

// The sources of the first `count` programs.
#[tactic(auto, using(crate::proofs::OneMore::of_sources))]
fn program_sources(alloc: Global, seed: u64, count: u64) -> Result<Files, NoMemory>
    requires { count ≤ program_count }
    ensures { IfOk result (λ files. files ≡ source_files seed count) }
{
    let mut files = Files::new(alloc);
    let mut sequence = Sequence::new(seed);
    for i in 0..count {
        let draws = sequence.draws();
        add_source(alloc, &mut files, i, draws)?;
    }
    Ok(files)
}

/// The sources that a seed makes: those of 64 programs, and then that of the gate. Fails only with
/// `NoMemory`.
pub fn sources(alloc: Global, seed: u64) -> Result<Files, NoMemory>
    ensures { IfOk result (λ files. files ≡ sources_of seed) }
{
    let mut files = program_sources(alloc, seed, PROGRAMS)?;
    let stop = stop_source(alloc)?;
    add_file(&mut files, b"stop_.alm", stop)?;
    Ok(files)
}

/// Adds the files that are the same for each seed: the data and the boot text. Fails only with
/// `NoMemory`.
#[tactic(auto, unfolding(crate::specs::Folder::fixed_files))]
pub fn add_fixed_files(alloc: Global, files: &mut Files) -> Result<(), NoMemory>
    ensures { OnOk result (files.new ≡ files.old ++ fixed_files) }
{
    let words = packed_data(alloc)?;
    let text = boot_text(alloc)?;
    add_file(files, b"d_", words)?;
    add_file(files, b"boot", text)
}

/// The files of the folder that a seed makes: the sources, the data and the boot text, in this
/// order. Fails only with `NoMemory`.
#[tactic(auto, unfolding(crate::specs::Folder::files_of))]
pub fn make(alloc: Global, seed: u64) -> Result<Files, NoMemory>
    ensures { IfOk result (λ files. files ≡ files_of seed) }
{
    let mut files = sources(alloc, seed)?;
    add_fixed_files(alloc, &mut files)?;
    Ok(files)
}
