//! The booted image.

ghost use Rattle.std.specs.Prelude.{◌≡◌, ◌<◌, ◌≤◌, length, None, Ok, IfOk};
ghost use Rattle.m36_page.specs.Residence.{AgreesWithCore, HasFrames};
ghost use Rattle.m36_boot.specs.Segments.{AreShort};
ghost use Rattle.m36_boot.specs.Start.{start_answer};
ghost use Rattle.m36_boot.specs.Refusals.{least_frames, AreLimits, first_gate_fault};
ghost use Rattle.m36_boot.specs.Image.{IsImage, IsRunnable, LayResult};

use crate::core_words::put_descriptors;
use crate::fault::BootFault;
use crate::limits::limits_of;
use crate::start::{regs_of, section_of, start_of};
use crate::tables::booted_tables;
use m36_core::Core;
use m36_dir::Catalog;
use m36_link::{File, Snap, link_laws};
use m36_model::Regs;
use m36_page::Pager;
use m36_word::NoMemory;
use std::alloc::Global;

// The least number of pageable frames. With these an instruction that is retried finds a frame that
// it does not refer to.
const LEAST_FRAMES: u32 = 24;

// The number of frames of the descriptor segment and the page tables, which are never paged.
const WIRED_FRAMES: u32 = 146;

/// A booted image: core, the pages, and the registers at the start.
#[derive(Drop)]
pub struct Image {
    pub core: Core,
    /// The pages of all segments. None of them is in a frame yet.
    pub pager: Pager,
    pub regs: Regs,
    /// The answer to the link to the start, with the linkage section that was laid.
    pub snap: Snap,
}

// The image for this answer to the link to the start.
fn image_at(
    alloc: Global,
    catalog: &Catalog,
    files: &[File],
    limits: &[u16],
    snap: Snap,
) -> Result<Image, NoMemory>
    requires files { length files.now ≡ length catalog.now.segments }
    requires short { AreShort files.now }
    requires limits { AreLimits catalog.now files.now (length catalog.now.segments) limits.now }
    requires frames { least_frames ≤ catalog.now.frames }
    requires snap { start_answer catalog.now files.now ≡ Ok snap }
    ensures image { IfOk result (λ image. IsImage catalog.now files.now image.snap image) }
    ensures snap { IfOk result (λ image. image.snap ≡ snap) }
    ensures runnable { IfOk result (IsRunnable catalog.now.frames) }
    ensures reads { IfOk result (λ image. AgreesWithCore image.pager image.core) }
    ensures frames { IfOk result (λ image. HasFrames image.pager image.core) }
{
    link_laws();
    let _ = catalog.count();
    let tables = booted_tables(alloc, catalog, files, limits, section_of(&snap))?;
    let frames = catalog.frames();
    let pager = Pager::new(alloc, WIRED_FRAMES, frames, tables.as_slice())?;
    let mut core = Core::new(alloc, WIRED_FRAMES + frames)?;
    put_descriptors(&mut core, catalog, files, limits);
    pager.lay(&mut core);
    Ok(Image {
        core,
        pager,
        regs: regs_of(catalog, &snap),
        snap,
    })
}

// The image of a catalog whose gates have no fault; `limits` has the call limiter of each segment.
// The error is the first fault of the start, or `NoMemory`.
fn image_without_gate_faults(
    alloc: Global,
    catalog: &Catalog,
    files: &[File],
    limits: &[u16],
) -> Result<Image, BootFault>
    requires files { length files.now ≡ length catalog.now.segments }
    requires short { AreShort files.now }
    requires limits { AreLimits catalog.now files.now (length catalog.now.segments) limits.now }
    requires frames { least_frames ≤ catalog.now.frames }
    requires gates { first_gate_fault catalog.now files.now 0 (length catalog.now.segments) ≡ None }
    ensures says { LayResult catalog.now files.now result }
    ensures answer { IfOk result (λ image. start_answer catalog.now files.now ≡ Ok image.snap) }
    ensures runnable { IfOk result (IsRunnable catalog.now.frames) }
    ensures reads { IfOk result (λ image. AgreesWithCore image.pager image.core) }
    ensures frames { IfOk result (λ image. HasFrames image.pager image.core) }
{
    match start_of(alloc, catalog, files) {
        Ok(snap) => Ok(image_at(alloc, catalog, files, limits, snap)?),
        Err(fault) => Err(fault),
    }
}

/// Lays the booted image of a catalog, with the files of its segments in the order of the catalog.
/// The error is the first of the faults U1 to U4 that applies, or `NoMemory`.
#[tactic(auto, using(crate::proofs::LayAnswers::answers))]
pub fn lay(alloc: Global, catalog: &Catalog, files: &[File]) -> Result<Image, BootFault>
    requires files { length files.now ≡ length catalog.now.segments }
    requires short { AreShort files.now }
    ensures says { LayResult catalog.now files.now result }
    ensures answer { IfOk result (λ image. start_answer catalog.now files.now ≡ Ok image.snap) }
    ensures runnable { IfOk result (IsRunnable catalog.now.frames) }
    ensures reads { IfOk result (λ image. AgreesWithCore image.pager image.core) }
    ensures frames { IfOk result (λ image. HasFrames image.pager image.core) }
{
    if catalog.frames() < LEAST_FRAMES {
        return Err(BootFault::U1);
    }
    match limits_of(alloc, catalog, files) {
        Ok(limits) => image_without_gate_faults(alloc, catalog, files, limits.as_slice()),
        Err(fault) => Err(fault),
    }
}
