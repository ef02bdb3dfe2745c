//! Boots a catalog and its files.

ghost use Rattle.std.specs.Prelude.{◌≡◌, length, IfOk, Ok, true};
ghost use Rattle.std.specs.List.{list_all};
ghost use Rattle.m36_boot.specs.Segments.{is_short, AreShort};
ghost use Rattle.m36_boot.specs.Image.{IsRunnable};
ghost use Rattle.m36_boot.specs.Start.{start_answer};
ghost use Rattle.m36_link.specs.Known.{nothing_known};
ghost use Rattle.m36_link.specs.Accepted.{known_after};
ghost use Rattle.m36_link.specs.Laws.{IsConsistent};
ghost use Rattle.m36_page.specs.Residence.{AgreesWithCore};
ghost use Rattle.m36_super.specs.BootResult.{BootResult, system_at_start};

use crate::booted::Super;
use m36_boot::{BootFault, Image, lay};
use m36_dir::Catalog;
use m36_link::{File, Known, Snap, link_laws};
use m36_step::Machine;
use m36_word::{NoMemory, Words};
use obj36_parts::sections::SEGMENT_LIMIT;
use std::alloc::Global;

// Whether a file has at most 2^18 words.
fn is_short(file: &Words) -> bool
    ensures { result ≡ is_short file.now }
{
    file.slice().len() <= SEGMENT_LIMIT as usize
}

/// Whether each file has at most 2^18 words, as a segment can have.
pub fn are_short(files: &[Words]) -> bool
    ensures value { result ≡ list_all is_short files.now }
    ensures short { result ≡ true → AreShort files.now }
{
    files.iter().all(|file| is_short(file))
}

/// The files; each is read as an object once. Fails only with `NoMemory`.
pub fn files_of(alloc: Global, words: Vec<Words>) -> Result<Vec<File>, NoMemory>
    requires { AreShort words.items }
    ensures { IfOk result (λ files. files.items ≡ words.items) }
{
    let mut files = Vec::with_capacity(alloc, words.len())?;
    for file in words {
        files.push(File::read(alloc, file)?)?;
    }
    Ok(files)
}

// What the ring of the start knows after the answer to its link.
#[tactic(auto, using(crate::proofs::BootTurns::start_laid, crate::proofs::BootTurns::start_made))]
fn known_of(
    alloc: Global,
    catalog: &Catalog,
    files: &[File],
    snap: &Snap,
) -> Result<Known, NoMemory>
    requires { start_answer catalog.now files.now ≡ Ok snap.now }
    ensures known { IfOk result (λ known. known ≡ known_after nothing_known snap.now) }
    ensures made { IfOk result (IsConsistent catalog.now files.now) }
{
    link_laws();
    let mut known = Known::new(alloc, catalog)?;
    known.accept(snap)?;
    Ok(known)
}

// The system that an image starts, with the names and sections that the answer to its link makes
// known.
#[tactic(auto, using(crate::proofs::BootTurns::image_runs))]
fn system_of_image(
    alloc: Global,
    catalog: Catalog,
    files: Vec<File>,
    image: Image,
) -> Result<Super, NoMemory>
    requires files { length files.items ≡ length catalog.segments }
    requires answer { start_answer catalog files.items ≡ Ok image.snap }
    requires runnable { IsRunnable catalog.frames image }
    requires reads { AgreesWithCore image.pager image.core }
    ensures { IfOk result
        (λ s. s ≡ system_at_start (record { catalog = catalog; files = files.items }) image) }
{
    let known = known_of(alloc, &catalog, files.as_slice(), &image.snap)?;
    let Image {
        core,
        pager,
        regs,
        ..
    } = image;
    let machine = Machine::start(core, regs);
    Ok(Super::system_at_start(alloc, machine, pager, known, catalog, files))
}

impl Super {
    /// Boots a catalog with the words of the file of each of its segments, in the order of the
    /// catalog. The error is the first of the faults U1 to U4 that applies, or `NoMemory`.
    #[tactic(auto, using(crate::proofs::BootTurns::booted))]
    pub fn boot(alloc: Global, catalog: Catalog, words: Vec<Words>) -> Result<Super, BootFault>
        requires files { length words.items ≡ length catalog.segments }
        requires short { AreShort words.items }
        ensures says { BootResult (record { catalog = catalog; files = words.items }) result }
    {
        let files = files_of(alloc, words)?;
        let image = lay(alloc, &catalog, files.as_slice())?;
        Ok(system_of_image(alloc, catalog, files, image)?)
    }
}
