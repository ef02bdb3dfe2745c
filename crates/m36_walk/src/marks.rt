//! The marks that a reference sets in the page table words through which it has passed.

ghost use Rattle.std.specs.Prelude.{◌≡◌, ◌/◌, ◌<◌, ◌^◌, Ok, length};
ghost use Rattle.m36_associative.specs.Right.{AreCoherent};
ghost use Rattle.m36_model.specs.Place.{directory_at, page_at, with_marks, directory_marks};
ghost use Rattle.m36_model.specs.Place.{page_marks, marks_by};
ghost use Rattle.m36_tables.specs.Tables.{TableWordIsInCore};

use m36_associative::{Memories, mark};
use m36_core::Core;
use m36_desc::{Dbr, Sdw};
use m36_tables::{directory_at, page_at};

/// Marks the descriptor segment's page table word for a segment as used.
#[inline(always)]
#[tactic(auto, unfolding(m36_model::specs::Place::with_marks))]
fn mark_directory(core: &mut Core, memories: &mut Memories, dbr: Dbr, seg: u16)
    requires seg { seg < 2 ^ 15 }
    requires table { TableWordIsInCore (length core.old) dbr.unpaged (directory_at dbr seg) }
    requires right { AreCoherent core.old dbr memories.old }
    ensures marked { core.new ≡ with_marks core.old (directory_marks dbr seg) }
    ensures len { length core.new ≡ length core.old }
    ensures right { AreCoherent core.new dbr memories.new }
{
    if dbr.unpaged {
        return;
    }
    mark(core, &dbr, memories, directory_at(dbr, seg), false);
}

/// Marks the page table word for a word of a segment as used and, for a write, as modified.
#[inline(always)]
#[tactic(auto, unfolding(m36_model::specs::Place::with_marks))]
fn mark_page(core: &mut Core, memories: &mut Memories, dbr: Dbr, sdw: &Sdw, word: u32, write: bool)
    requires word { word < 2 ^ 18 }
    requires table { TableWordIsInCore (length core.old) sdw.now.unpaged
        (page_at sdw.now (word / 1024)) }
    requires right { AreCoherent core.old dbr memories.old }
    ensures marked { core.new ≡ with_marks core.old (page_marks write word (Ok sdw.now)) }
    ensures len { length core.new ≡ length core.old }
    ensures right { AreCoherent core.new dbr memories.new }
{
    if sdw.unpaged {
        return;
    }
    mark(core, &dbr, memories, page_at(sdw, word / 1024), write);
}

/// Sets the marks of a reference to a word of a segment.
#[inline(always)]
#[tactic(auto, using(crate::proofs::MarksInOrder::marks_in_order))]
pub(crate) fn set_marks(
    core: &mut Core,
    memories: &mut Memories,
    dbr: Dbr,
    sdw: &Sdw,
    seg: u16,
    word: u32,
    write: bool,
)
    requires seg { seg < 2 ^ 15 }
    requires word { word < 2 ^ 18 }
    requires directory { TableWordIsInCore (length core.old) dbr.unpaged (directory_at dbr seg) }
    requires page { TableWordIsInCore (length core.old) sdw.now.unpaged
        (page_at sdw.now (word / 1024)) }
    requires right { AreCoherent core.old dbr memories.old }
    ensures marked { core.new ≡ with_marks core.old (marks_by dbr seg write word (Ok sdw.now)) }
    ensures len { length core.new ≡ length core.old }
    ensures right { AreCoherent core.new dbr memories.new }
{
    mark_directory(core, memories, dbr, seg);
    mark_page(core, memories, dbr, sdw, word, write);
}
