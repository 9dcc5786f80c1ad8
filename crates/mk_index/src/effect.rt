//! What the making of a patch means for what is known of a document.
ghost use Rattle.std.specs.Prelude.{IsTrue};
ghost use Rattle.mk_tree.specs.Documents.{IsFaithful};
ghost use Rattle.mk_tree.specs.Trees.{line_view};
ghost use Rattle.mk_edit_parts.specs.LocatedParts.{IsClassed};
ghost use Rattle.mk_patch.specs.Moves.{FitMoves, after_moves};
ghost use Rattle.mk_index.specs.Effects.{AssignSame, IsEffect};

use mk_class::Class;
use mk_edit_parts::text::is_same_text;
use mk_patch::{Patch, Step};
use mk_tree::part::{part, text_of_line};
use mk_tree::{Doc, Line};
use std::alloc::Allocator;

/// What the making of a patch means for what is known of a document.
#[derive(Clone, Copy)]
pub enum Effect {
    /// All that is known stays right, but for an index that lists what lines say.
    Same,
    /// One more line stands at the end.
    Appends,
    /// Anything else.
    Other,
}

/// What the making of a patch means for what is known of the document. To be asked before the patch
/// is made. Takes no memory.
pub fn effect_of<A: Allocator>(doc: &Doc<A>, patch: &Patch<A>) -> Effect
    requires faithful { IsFaithful doc.now }
    requires faithful_after { IsFaithful (after_moves patch.now doc.now) }
    requires fit { FitMoves patch.now doc.now }
    ensures { IsEffect result doc.now (after_moves patch.now doc.now) }
{
    match patch.only_step() {
        Some(Step::PutIn(at, _)) if *at == doc.len() => Effect::Appends,
        Some(Step::Exchange(at, line)) if assign_same(doc.line(*at), line) => Effect::Same,
        _ => Effect::Other,
    }
}

// Whether two lines assign the same variable, and neither sets the recipe prefix.
fn assign_same<A: Allocator>(old: &Line<A>, new: &Line<A>) -> bool
    requires old { IsClassed (line_view old.now) }
    requires new { IsClassed (line_view new.now) }
    ensures { IsTrue result → AssignSame (line_view old.now) (line_view new.now) }
{
    match (old.class(), new.class()) {
        (Class::Assign(was, None), Class::Assign(is, None)) => is_same_text(
            part(text_of_line(old), was.name),
            part(text_of_line(new), is.name),
        ),
        _ => false,
    }
}
