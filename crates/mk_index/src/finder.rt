//! What is known of a document that is edited, so that an edit's line is found without a walk.
//!
//! For one edit alone an index costs more than a walk, and a walk over a short document takes no
//! longer than the rest of an edit. If a word stands in nearly every block, going through its chain
//! would take longer than a walk, so the index tells nothing of it. Edits make chains longer, since
//! a line that is written anew has its keys listed again; an index that has grown that much is made
//! anew.
ghost use Rattle.std.specs.Prelude.{◌≡◌, None, Some, List, ℕ, IfSome, false};
ghost use Rattle.mk_class.specs.ClassedLines.{classed_lines};
ghost use Rattle.mk_tree.specs.Documents.{IsFaithful};
ghost use Rattle.mk_tree.specs.LocatedLines.{LocatedLine, located_text};
ghost use Rattle.mk_tree.specs.UnreadPrefixes.{IsEndOf};
ghost use Rattle.mk_edit_language.specs.EditViews.{each_edit_of, edit_of, site_of};
ghost use Rattle.mk_edit_parts.specs.AddressViews.{address_seen};
ghost use Rattle.mk_edit_parts.specs.Seeking.{IsKnownOf, IsLineKnown, IsSought};
ghost use Rattle.mk_edit_parts.specs.Windows.{AreWindows, IsKnown, concerns, concerns_each, concerns_name, concerns_rename, concerns_site, first_place};
ghost use Rattle.mk_edit_language.specs.Edits as edits;
ghost use Rattle.mk_edit_language.specs.Edits.{ChangeValue, EachLine, Every, ExchangeLines, RenameTarget};
ghost use Rattle.mk_patch.specs.Moves.{FitMoves, after_moves};
ghost use Rattle.mk_index.specs.Effects.{IsBehind, IsKnownFor, ListsNoTexts};

use crate::index::Index;
use crate::keys::{Expected, Scope};
use mk_edit_language::{EachEdit, Edit, Site};
use mk_edit_parts::address::{Address, address_of};
use mk_edit_parts::seek::{Found, Sought, seek};
use mk_edit_parts::window::{Known, Window};
use mk_patch::Patch;
use mk_tree::end::sets_prefix_unread;
use mk_tree::{Doc, DocEnd};
use std::alloc::{Allocator, Global};
use std::marker::Model;

// A document of fewer lines gets no index: a walk over them takes no longer than the rest of an
// edit.
const FEWEST_LINES: usize = 1_024;

/// What is known of a document that is edited: an index, once one is worth its making, and where the
/// document ends. Contracts see both.
#[derive(Drop)]
pub struct Finder<A: Allocator = Global> {
    index: Option<Index<A>>,
    end: Option<DocEnd>,
    // Whether the next edit that asks for an index makes it (an edit with an address, a rename, a change
    // of all values of a name, an exchange of whole lines, or an edit of the lines of a name or a target):
    // the last one made do with a walk, or more edits are expected.
    is_due: bool,
    // Which words the next index lists, and the index that there is: those that edits have asked for, or
    // will as far as is expected.
    scope: Scope,
}

impl<A: Allocator> Model for Finder<A> {
    ghost use Rattle.mk_index.specs.Effects.{Known};

    ghost Value = { Known };

    ghost view = { λ f. record { index = f.index; end = f.end } };
}

impl<A: Allocator + Copy> Finder<A> {
    /// A finder of a document that was just read. It knows where the document ends. It takes no walk
    /// and no memory.
    pub fn over(doc: &Doc<A>, end: DocEnd) -> Finder<A>
        requires { IsEndOf doc.now end }
        ensures known { IsKnownFor doc.now result }
        ensures end { result.end ≡ Some end }
    {
        Finder {
            index: None,
            end: Some(end),
            is_due: false,
            scope: Scope::none(),
        }
    }

    /// What is known before an edit is planned. The first edit makes do with a walk over the document,
    /// unless more edits are expected. The second one makes an index, unless the document has fewer
    /// than 1,024 lines. A growth that is refused leaves the finder without an index, and is no refusal
    /// of the edit. An edit without an address, which goes to the top or the end, needs only where the
    /// document ends, and makes do or makes an index in the same way where that is not known.
    pub fn known(&mut self, alloc: A, doc: &Doc<A>, edit: &Edit<A>) -> Known<A>
        requires faithful { IsFaithful doc.now }
        requires right { IsKnownFor doc.now self.old }
        ensures known { IsKnown (edit_of edit.now) doc.now result }
        ensures right { IsKnownFor doc.now self.new }
    {
        if let Edit::RenameTarget { from, to } = edit {
            self.ask_for_renames();
            self.make_due(alloc, doc);
            return windows_known(self.for_rename(alloc, doc, from, to));
        }
        if let Edit::ChangeValues { name, .. } = edit {
            return windows_known(self.for_asked(alloc, doc, Address::Variable(None, name)));
        }
        if let Edit::EachLine(each) = edit {
            return windows_known(self.for_each_line(alloc, doc, each));
        }
        if let Edit::ExchangeLines { site, .. } = edit {
            self.ask_for_site(site);
            self.make_due(alloc, doc);
            return windows_known(self.for_site(alloc, doc, site));
        }
        let address = address_of(edit);
        if address.is_some() {
            self.ask_for(address);
            self.make_due(alloc, doc);
            return line_known(self.by_index(alloc, doc, address));
        }
        self.find_end(alloc, doc);
        line_known(self.at_end(doc))
    }

    /// Lets the next edit that asks for an index make one, since more edits are to come: an edit with an
    /// address, a rename, a change of all values of a name, an exchange of whole lines, or an edit of the
    /// lines of a name or a target. The index lists what the expected edits ask for: renames targets and
    /// prerequisites, those of whole lines what lines say, others names and targets. One that does not is
    /// dropped. This call walks over nothing and takes no memory.
    pub fn expect_edits(&mut self, expected: Expected)
        ensures end { self.new.end ≡ self.old.end }
        ensures right { (lines : List LocatedLine) → IsKnownFor lines self.old
            → IsKnownFor lines self.new }
    {
        self.is_due = true;
        self.widen(Scope::of(expected));
    }

    // Has the next index list the words by which edits with an address find their line, unless those of
    // this address are listed.
    fn ask_for(&mut self, address: Option<Address>)
        ensures end { self.new.end ≡ self.old.end }
        ensures right { (lines : List LocatedLine) → IsKnownFor lines self.old
            → IsKnownFor lines self.new }
    {
        if !self.scope.lists(address) {
            self.widen(Scope::of(Expected {
                renames: false,
                lines: false,
                others: true,
            }));
        }
    }

    // Has the next index list the words that renames and other edits ask for, unless those of renames are
    // listed.
    fn ask_for_renames(&mut self)
        ensures end { self.new.end ≡ self.old.end }
        ensures right { (lines : List LocatedLine) → IsKnownFor lines self.old
            → IsKnownFor lines self.new }
    {
        if !self.scope.lists_renames() {
            self.widen(Scope::of(Expected {
                renames: true,
                lines: false,
                others: true,
            }));
        }
    }

    // Has the next index list that by which the lines of a site are found, unless it does.
    fn ask_for_site(&mut self, site: &Site<A>)
        ensures end { self.new.end ≡ self.old.end }
        ensures right { (lines : List LocatedLine) → IsKnownFor lines self.old
            → IsKnownFor lines self.new }
    {
        if !self.scope.lists_site(site) {
            let has_address = matches!(site, Site::AtPlace(_) | Site::OfRule { .. });
            self.widen(Scope::of(Expected {
                renames: false,
                lines: !has_address,
                others: has_address,
            }));
        }
    }

    // Has the next index list these words too, and drops one that does not.
    fn widen(&mut self, scope: Scope)
        ensures end { self.new.end ≡ self.old.end }
        ensures right { (lines : List LocatedLine) → IsKnownFor lines self.old
            → IsKnownFor lines self.new }
    {
        if !self.scope.has(scope) {
            self.scope = self.scope.with(scope);
            self.index = None;
        }
    }

    // Finds where the document ends, by the index or by a walk over all lines, unless that is known. It makes
    // an index if one is due.
    fn find_end(&mut self, alloc: A, doc: &Doc<A>)
        requires faithful { IsFaithful doc.now }
        requires right { IsKnownFor doc.now self.old }
        ensures { IsKnownFor doc.now self.new }
    {
        if self.end.is_none() {
            self.make_due(alloc, doc);
            let sought = self.walk_to_end(alloc, doc);
            self.end = Some(end_of(sought));
        }
    }

    // What the document has for no address, by the index or by a walk over all lines.
    fn walk_to_end(&mut self, alloc: A, doc: &Doc<A>) -> Sought
        requires faithful { IsFaithful doc.now }
        requires right { IsKnownFor doc.now self.old }
        ensures sought { IsSought (classed_lines (located_text doc.now)) None result }
        ensures right { IsKnownFor doc.now self.new }
    {
        match self.by_index(alloc, doc, None) {
            Some(sought) => sought,
            None => seek(doc, None),
        }
    }

    // What the document has for no address, if it is known where it ends.
    fn at_end(&self, doc: &Doc<A>) -> Option<Sought>
        requires faithful { IsFaithful doc.now }
        requires right { IsKnownFor doc.now self.now }
        ensures { IsKnownOf None doc.now result }
    {
        match self.end {
            Some(end) => Some(sought_at(doc, end)),
            None => None,
        }
    }

    // Makes an index if one is due and there is none, and otherwise lets the next edit make it.
    fn make_due(&mut self, alloc: A, doc: &Doc<A>)
        requires { IsKnownFor doc.now self.old }
        ensures { IsKnownFor doc.now self.new }
    {
        if self.index.is_some() || doc.len() < FEWEST_LINES {
            return;
        }
        if self.is_due {
            self.index = Index::new(alloc, doc, self.scope).ok();
        } else {
            self.is_due = true;
        }
    }

    // What the index tells of an address. A growth that is refused drops the index, and so does a word
    // that it listed too often to tell anything: the next edit makes another one.
    fn by_index(&mut self, alloc: A, doc: &Doc<A>, address: Option<Address>) -> Option<Sought>
        requires faithful { IsFaithful doc.now }
        requires right { IsKnownFor doc.now self.old }
        ensures known { IsKnownOf (address_seen address.entry) doc.now result }
        ensures right { IsKnownFor doc.now self.new }
    {
        let mut index = self.index.take()?;
        index.refresh(doc).ok()?;
        let sought = index.sought(alloc, doc, address);
        if sought.is_some() || !index.is_worn() {
            self.index = Some(index);
        }
        sought
    }

    // The windows that the index tells for a rename. The index is dropped where one is dropped that
    // tells of an address.
    fn for_rename(
        &mut self,
        alloc: A,
        doc: &Doc<A>,
        old: &[u8],
        new: &[u8],
    ) -> Option<Vec<Window, A>>
        requires faithful { IsFaithful doc.now }
        requires right { IsKnownFor doc.now self.old }
        ensures windows { IfSome result (λ windows.
            AreWindows (concerns_rename old.now new.now) first_place doc.now windows.items) }
        ensures right { IsKnownFor doc.now self.new }
    {
        let mut index = self.index.take()?;
        index.refresh(doc).ok()?;
        let windows = index.for_rename(alloc, doc, old, new);
        if windows.is_some() || !index.is_worn() {
            self.index = Some(index);
        }
        windows
    }

    // The windows that the index tells for a site. The index is dropped where one is dropped that tells of
    // an address.
    fn for_site(&mut self, alloc: A, doc: &Doc<A>, site: &Site<A>) -> Option<Vec<Window, A>>
        requires faithful { IsFaithful doc.now }
        requires right { IsKnownFor doc.now self.old }
        ensures windows { IfSome result (λ windows.
            AreWindows (concerns_site (site_of site.now)) first_place doc.now windows.items) }
        ensures right { IsKnownFor doc.now self.new }
    {
        let mut index = self.index.take()?;
        index.refresh(doc).ok()?;
        let windows = index.for_site(alloc, doc, site);
        if windows.is_some() || !index.is_worn() {
            self.index = Some(index);
        }
        windows
    }

    /// Whether there is an index that lists what lines say.
    pub(crate) fn lists_lines(&self) -> bool
        ensures { result ≡ false → ListsNoTexts self.now }
    {
        match &self.index {
            Some(index) => index.lists_lines(),
            None => false,
        }
    }

    /// Whether there is an index.
    pub(crate) fn is_indexed(&self) -> bool {
        self.index.is_some()
    }

    // The windows that the index tells for an edit of several lines, if it has an address.
    fn for_each_line(
        &mut self,
        alloc: A,
        doc: &Doc<A>,
        edit: &EachEdit<A>,
    ) -> Option<Vec<Window, A>>
        requires faithful { IsFaithful doc.now }
        requires right { IsKnownFor doc.now self.old }
        ensures windows { IfSome result (λ windows.
            AreWindows (concerns_each (each_edit_of edit.now)) first_place doc.now windows.items) }
        ensures right { IsKnownFor doc.now self.new }
    {
        match edit {
            EachEdit::ChangeEach { name, .. } => {
                self.for_asked(alloc, doc, Address::Variable(None, name))
            }
            EachEdit::SubstRecipe { nth, target, .. } => {
                self.for_asked(alloc, doc, Address::Rule(*nth, target))
            }
            EachEdit::SubstValues { .. } | EachEdit::SubstRecipes { .. } => None,
        }
    }

    // The windows that the index tells for an address, which it is to list from now on. It is made if one is
    // due.
    fn for_asked(&mut self, alloc: A, doc: &Doc<A>, address: Address<'_>) -> Option<Vec<Window, A>>
        requires faithful { IsFaithful doc.now }
        requires right { IsKnownFor doc.now self.old }
        ensures windows { IfSome result (λ windows. AreWindows
            (concerns (address_seen (Some address.entry))) first_place doc.now windows.items) }
        ensures right { IsKnownFor doc.now self.new }
    {
        self.ask_for(Some(address));
        self.make_due(alloc, doc);
        self.for_address(alloc, doc, address)
    }

    /// The windows that the index tells for an address. The index is dropped where one is dropped that tells
    /// what a document has for an address.
    pub(crate) fn for_address(
        &mut self,
        alloc: A,
        doc: &Doc<A>,
        address: Address<'_>,
    ) -> Option<Vec<Window, A>>
        requires faithful { IsFaithful doc.now }
        requires right { IsKnownFor doc.now self.old }
        ensures windows { IfSome result (λ windows. AreWindows
            (concerns (address_seen (Some address.entry))) first_place doc.now windows.items) }
        ensures right { IsKnownFor doc.now self.new }
    {
        let mut index = self.index.take()?;
        index.refresh(doc).ok()?;
        let windows = index.for_address(alloc, doc, Some(address));
        if windows.is_some() || !index.is_worn() {
            self.index = Some(index);
        }
        windows
    }

    /// Follows a patch that is made of the document next: the index is kept, and where the document
    /// ends is forgotten. Takes no memory.
    pub fn follow(&mut self, patch: &Patch<A>)
        ensures { (lines : List LocatedLine) → IsKnownFor lines self.old → FitMoves patch.now lines
            → IsKnownFor (after_moves patch.now lines) self.new }
    {
        self.end = None;
        let Some(mut index) = self.index.take() else {
            return;
        };
        if index.follow(patch) {
            self.index = Some(index);
        }
    }

    /// Follows a patch of a planned edit, which is made of the document next, as [`Finder::follow`] does.
    /// Where the patch only exchanges lines for others of the same kind, no block is stale then, and where
    /// the document ends stays known. This takes memory; a growth that is refused drops the index.
    pub fn follow_planned(&mut self, doc: &Doc<A>, patch: &Patch<A>)
        requires faithful { IsFaithful doc.now }
        requires faithful_after { IsFaithful (after_moves patch.now doc.now) }
        requires fit { FitMoves patch.now doc.now }
        requires right { IsKnownFor doc.now self.old }
        ensures { IsKnownFor (after_moves patch.now doc.now) self.new }
    {
        let end = self.end.take();
        let Some(mut index) = self.index.take() else {
            return;
        };
        match index.keep(doc, patch) {
            Ok(true) => {
                self.index = Some(index);
                self.end = end;
            }
            Ok(false) => {
                self.index = Some(index);
                self.follow(patch);
            }
            Err(_) => {}
        }
    }

    /// Where the document ends, if that is known. Takes no memory.
    pub fn end(&self) -> Option<DocEnd>
        ensures { result ≡ self.now.end }
    {
        self.end
    }

    /// Notes where the document ends, which is one line further down than before. Takes no memory.
    pub fn append(&mut self, doc: &Doc<A>, end: DocEnd)
        requires faithful { IsFaithful doc.now }
        requires right { IsKnownFor doc.now self.old }
        requires behind { IsBehind doc.now end }
        ensures { IsKnownFor doc.now self.new }
    {
        // The contract of `iter` says that each line may stand where it stands.
        let _lines = doc.iter();
        let last = doc.line(doc.len() - 1);
        let class = last.class();
        let is_unread = sets_prefix_unread(last, &class);
        self.end = Some(DocEnd {
            context: end.context.step(&class),
            has_unread_prefix: end.has_unread_prefix | is_unread,
        });
    }
}

// What is known by what is sought, if it is.
fn line_known<A: Allocator>(sought: Option<Sought>) -> Known<A>
    ensures { (edit : edits.Edit) (lines : List LocatedLine) → IsLineKnown edit lines sought
        → IsKnown edit lines result }
{
    match sought {
        Some(sought) => Known::Line(sought),
        None => Known::Nothing,
    }
}

// What is known by the windows for a rename, a change of all values of a name, an exchange of whole lines,
// or an edit of several lines, if there are any.
fn windows_known<A: Allocator>(windows: Option<Vec<Window, A>>) -> Known<A>
    ensures rename { (old new : List ℕ) (lines : List LocatedLine)
        → IfSome windows (λ w. AreWindows (concerns_rename old new) first_place lines w.items)
        → IsKnown (RenameTarget old new) lines result }
    ensures values { (name : List ℕ) (change : edits.ValueChange) (lines : List LocatedLine)
        → IfSome windows (λ w. AreWindows (concerns_name name) first_place lines w.items)
        → IsKnown (ChangeValue Every name change) lines result }
    ensures site { (site : edits.Site) (block : List (List ℕ)) (lines : List LocatedLine)
        → IfSome windows (λ w. AreWindows (concerns_site site) first_place lines w.items)
        → IsKnown (ExchangeLines site block) lines result }
    ensures several { (edit : edits.EachEdit) (lines : List LocatedLine)
        → IfSome windows (λ w. AreWindows (concerns_each edit) first_place lines w.items)
        → IsKnown (EachLine edit) lines result }
{
    match windows {
        Some(windows) => Known::Windows(windows),
        None => Known::Nothing,
    }
}

// Where a document ends, by what is sought for no address.
fn end_of(sought: Sought) -> DocEnd
    ensures { result
        ≡ record { context = sought.end.context; has_unread_prefix = sought.has_unread_prefix } }
{
    DocEnd {
        context: sought.end.context,
        has_unread_prefix: sought.has_unread_prefix,
    }
}

// What a document that ends so has for no address.
fn sought_at<A: Allocator>(doc: &Doc<A>, end: DocEnd) -> Sought
    requires faithful { IsFaithful doc.now }
    requires end { IsEndOf doc.now end }
    ensures { IsSought (classed_lines (located_text doc.now)) None result }
{
    Sought {
        count: 0,
        found: None,
        has_unread_prefix: end.has_unread_prefix,
        end: Found {
            at: doc.len(),
            context: end.context,
        },
    }
}
