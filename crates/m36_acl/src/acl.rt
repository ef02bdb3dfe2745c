//! Access lists.

ghost use Rattle.std.specs.Prelude.{◌≡◌, ◌<◌, ◌^◌, length, slice_get, IfOk, IfSome};
ghost use Rattle.m36_acl.specs.AccessLists.{lists_of, AccessListsResult};
ghost use Rattle.m36_acl.specs.Policy.{terms_of, policy};
ghost use Rattle.m36_acl.specs.Granted.{first_unknown, decision_on, granted_catalog};
ghost use Rattle.m36_acl.specs.AccessText.{access_text, denied_lines};

use crate::denied::DeniedLines;
use crate::fault::AclFault;
use crate::granting::{decision_on, first_unknown, grant_all};
use crate::policy::{Decision, first_match_decision, terms_in};
use crate::reading::segments_in;
use crate::segment::{AclSegment, Term};
use crate::user::User;
use crate::writing::{access_text, denied_lines};
use m36_dir::Catalog;
use m36_outside::Text;
use m36_word::NoMemory;
use std::alloc::Global;
use std::marker::Model;

/// Access lists. The model is the list of the segments in the order of their lines, each with its
/// terms.
#[derive(Drop)]
pub struct Acl {
    segments: Vec<AclSegment>,
}

impl Model for Acl {
    ghost use Rattle.std.specs.Prelude.{List};
    ghost use Rattle.m36_acl.specs.Fields.{AclSegmentFields};

    ghost Value = { List AclSegmentFields };

    ghost view = { λ a. a.segments.items };
}

impl Acl {
    /// Parses access lists. The error is the first line that has a code, counted from 1, with the
    /// least code of that line, or `NoMemory`. The text has fewer than 2^32 bytes.
    #[tactic(auto, unfolding(crate::specs::AccessLists::lists_of))]
    pub fn read(alloc: Global, text: &[u8]) -> Result<Acl, AclFault>
        requires { length text.now < 2 ^ 32 }
        ensures { AccessListsResult result (lists_of text.now) }
    {
        let segments = segments_in(alloc, text)?;
        Ok(Acl { segments })
    }

    /// The segments of the `segment` lines, in the order of the lines.
    pub fn segments(&self) -> &[AclSegment]
        ensures { result.now ≡ self.now }
    {
        self.segments.as_slice()
    }

    /// The access list of a segment, in the order of its lines. Empty if no `segment` line names
    /// the segment.
    pub fn terms(&self, dir: &[u8], name: &[u8]) -> &[Term]
        ensures { result.now ≡ terms_of self.now dir.now name.now }
    {
        terms_in(self.segments(), dir, name)
    }

    /// What a user may do with a segment: the mode of the first term in its list that matches the
    /// user, with the index of that term. If no term matches, there is no right and no term.
    #[tactic(auto, unfolding(crate::specs::Policy::policy))]
    pub fn mode_for(&self, dir: &[u8], name: &[u8], user: &User) -> Decision
        ensures { result ≡ policy self.now dir.now name.now user.now }
    {
        first_match_decision(self.terms(dir, name), user)
    }

    /// The number of the first `segment` line that names no segment of the catalog. Segments are
    /// compared by their directories and their first names, which are those of their segment lines
    /// in the boot text.
    pub fn first_unknown(&self, catalog: &Catalog) -> Option<u32>
        ensures { result ≡ first_unknown catalog.now self.now }
    {
        first_unknown(self.segments(), catalog)
    }

    /// What a user may do with segment `i` of a catalog, counted from 0: `mode_for` of its
    /// directory and its first name.
    pub fn decision_on(&self, catalog: &Catalog, i: usize, user: &User) -> Decision
        requires { i < length catalog.now.segments }
        ensures { IfSome (slice_get catalog.now.segments i)
            (λ s. result ≡ decision_on self.now user.now catalog.now.directories s) }
    {
        decision_on(self, catalog, catalog.segment(i), user)
    }

    /// Gives each segment of a catalog the rights of a user. Nothing else in the catalog changes.
    pub fn grant(&self, catalog: &mut Catalog, user: &User)
        ensures { catalog.new ≡ granted_catalog self.now user.now catalog.old }
    {
        grant_all(self, catalog, user);
    }

    /// What a user may do with each segment of a catalog: a line `DIR NAME MODE TERM` for each,
    /// where TERM is the term that decides, or `none`. Fails only with `NoMemory`.
    pub fn access_text(
        &self,
        alloc: Global,
        catalog: &Catalog,
        user: &User,
    ) -> Result<Text, NoMemory>
        ensures { IfOk result (λ text. text ≡ access_text self.now user.now catalog.now) }
    {
        access_text(alloc, self, catalog, user)
    }

    /// A line `denied DIR NAME TERM` for each segment of a catalog. That of a segment is printed if
    /// a run ends because the user lacks a right to it. Fails only with `NoMemory`.
    pub fn denied_lines(
        &self,
        alloc: Global,
        catalog: &Catalog,
        user: &User,
    ) -> Result<DeniedLines, NoMemory>
        ensures { IfOk result (λ lines. lines ≡ denied_lines self.now user.now catalog.now) }
    {
        denied_lines(alloc, self, catalog, user)
    }
}
