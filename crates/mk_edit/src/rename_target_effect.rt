//! What a rename finds among the lines of a document and does to them, seen by one walk.
ghost use Rattle.std.specs.Prelude.{◌≡◌, ◌+◌, ◌<◌, ◌≤◌, ◌^◌, IfSome, drop, length, map};
ghost use Rattle.mk_lines.specs.Limits.{max_text};
ghost use Rattle.mk_class.specs.Contexts.{start};
ghost use Rattle.mk_tree.specs.Admissions.{AreAdmitted};
ghost use Rattle.mk_tree.specs.Documents.{IsFaithful};
ghost use Rattle.mk_tree.specs.Origins.{lines_between};
ghost use Rattle.mk_tree.specs.Trees.{line_view};
ghost use Rattle.mk_edit_parts.specs.Windows.{AreWindows, below_all, concerns_rename, first_place};
ghost use Rattle.mk_edit.specs.RenameTargetEffects.{IsEffectTo, effect_of_line, effect_on, joined, no_effect};
ghost use Rattle.mk_edit.specs.RenameTargetPatches.{AreHeldTo, HasFewWords, held_places, held_view, is_turn_of, tally_of};

use crate::rename_target_places::{Held, noted};
use mk_class::{Class, Context};
use mk_edit_parts::lean::begins_with;
use mk_edit_parts::line_test::has_target;
use mk_edit_parts::seek::Found;
use mk_edit_parts::tally::{Tally, count_words, has_parts};
use mk_edit_parts::window::Window;
use mk_tree::end::sets_prefix_unread;
use mk_tree::{Doc, Line};
use std::alloc::Allocator;

/// The turns in which the lines of a rename are exchanged.
#[derive(Clone, Copy)]
pub(crate) enum Turn {
    /// The lines that get no longer.
    NoLonger,
    /// The lines that get longer.
    Longer,
}

/// What a rename finds among some lines, and what it does to them.
#[derive(Clone, Copy)]
pub(crate) struct Effect {
    /// Whether a line sets the recipe prefix in a way that is not read.
    pub has_unread_prefix: bool,
    /// Whether the old word is a target.
    pub is_there: bool,
    /// Whether a line would begin with the recipe prefix in force there: a word at its very front
    /// is replaced, and the new word begins with this prefix.
    pub begins_line: bool,
    /// Whether the new word is a target.
    pub is_taken: bool,
    /// How many words it replaces.
    pub words: usize,
    /// How many bytes these words have in the lines as they stand.
    pub bytes: usize,
    /// How many lines it exchanges that get no longer.
    pub no_longer: usize,
    /// How many lines it exchanges that get longer.
    pub longer: usize,
}

/// What the walk that decides a rename has seen.
#[derive(Drop)]
pub(crate) struct Survey<'a, A: Allocator> {
    /// What the rename finds among the lines, and what it does to them.
    pub effect: Effect,
    /// The places of the lines that hold the old word, in their order, each with the count of its
    /// words and the line itself. `None` if a growth was refused.
    pub places: Option<Vec<Held<'a, A>, A>>,
}

/// What a rename finds among the lines of a document, what it does to them, and where the lines
/// stand that it exchanges. The call walks once over the lines of the windows, outside of which no
/// line concerns the rename, and reads no line anew. It takes time linear in the number of these
/// lines, and goes one way down the tree for each window. It takes memory for the places alone, and
/// goes on without it.
pub(crate) fn rename_target_effect<'a, A: Allocator + Copy>(
    alloc: A,
    doc: &'a Doc<A>,
    windows: &[Window],
    from: &[u8],
    to: &[u8],
) -> Survey<'a, A>
    requires faithful { IsFaithful doc.now }
    requires windows { AreWindows (concerns_rename from.now to.now) first_place doc.now windows.now }
    ensures effect { result.effect ≡ effect_on from.now to.now start doc.now }
    ensures few_bytes { result.effect.bytes ≤ max_text }
    ensures places { IfSome result.places (λ places.
        map held_view places.items ≡ held_places from.now doc.now) }
{
    // The contract of `size` says that the text is within the limit, and so are its words; that of
    // `iter` says that each line is admitted where it stands.
    let _size = doc.size();
    let _lines = doc.iter();
    let mut survey = Survey {
        effect: no_effect(),
        places: Some(Vec::new(alloc)),
    };
    'windows: for window in windows {
        survey = surveyed(doc, *window, from, to, survey);
    }
    survey
}

// A survey with the lines of one more window.
fn surveyed<'a, A: Allocator>(
    doc: &'a Doc<A>,
    window: Window,
    from: &[u8],
    to: &[u8],
    survey: Survey<'a, A>,
) -> Survey<'a, A>
    requires faithful { IsFaithful doc.now }
    requires in_range { window.place.at + window.count ≤ length doc.now }
    requires admitted { AreAdmitted window.place.context (drop window.place.at doc.now) }
    requires effect { IsEffectTo from.now to.now doc.now window.place survey.effect }
    requires places { IfSome survey.places (λ places.
        AreHeldTo from.now doc.now window.place (map held_view places.items)) }
    ensures effect { IsEffectTo from.now to.now doc.now
        (below_all window.place (lines_between window.place.at window.count doc.now))
        result.effect }
    ensures places { IfSome result.places (λ places. AreHeldTo from.now doc.now
        (below_all window.place (lines_between window.place.at window.count doc.now))
        (map held_view places.items)) }
{
    // The contract of `size` says that the text is within the limit, and so are its words.
    let _size = doc.size();
    let Survey {
        mut effect,
        mut places,
    } = survey;
    let mut context = window.place.context;
    let mut at = window.place.at;
    let end = at + window.count;
    // The notes keep references to the lines. The prover follows that in a loop over the lines, and
    // not where each line is asked for by a call of `next`.
    'lines: for line in doc.lines_from(at) {
        if at == end {
            break;
        }
        // Most lines tell one thing at most, and their class is not kept.
        if has_parts(&line.class()) {
            let class = line.class();
            let tally = count_words(line, &class, from);
            if tally.words > 0 {
                let of_line = effect_of_line(line, &class, tally, context, from, to);
                effect = joined(effect, of_line);
                let place = Found { at, context };
                places = noted(places, Held { place, tally, line });
            } else {
                effect.is_taken |= has_target(line, &class, to);
            }
        } else {
            effect.has_unread_prefix |= sets_prefix_unread(line, &line.class());
        }
        at += 1;
        context = context.step(&line.class());
    }
    Survey { effect, places }
}

// The effect on no lines.
fn no_effect() -> Effect
    ensures { result ≡ no_effect }
{
    Effect {
        has_unread_prefix: false,
        is_there: false,
        begins_line: false,
        is_taken: false,
        words: 0,
        bytes: 0,
        no_longer: 0,
        longer: 0,
    }
}

// The effect on a line of this class that stands in this context. The tally counts its words that
// are replaced.
fn effect_of_line<A: Allocator>(
    line: &Line<A>,
    class: &Class,
    tally: Tally,
    context: Context,
    from: &[u8],
    to: &[u8],
) -> Effect
    requires few_words { HasFewWords from.now (line_view line.now) }
    requires class { class.now ≡ (line_view line.now).class }
    requires tally { tally ≡ tally_of from.now (line_view line.now) }
    ensures { result ≡ effect_of_line from.now to.now context (line_view line.now) }
{
    Effect {
        has_unread_prefix: sets_prefix_unread(line, class),
        is_there: has_target(line, class, from),
        begins_line: tally.at_front && begins_with(to, context.prefix()),
        is_taken: has_target(line, class, to),
        words: tally.words,
        bytes: tally.bytes,
        no_longer: usize::from(is_of_turn(tally, to.len(), Turn::NoLonger)),
        longer: usize::from(is_of_turn(tally, to.len(), Turn::Longer)),
    }
}

// The effect on some lines and on other lines together.
fn joined(effect: Effect, other: Effect) -> Effect
    requires few_words { effect.words + other.words < 2 ^ 32 }
    requires few_bytes { effect.bytes + other.bytes < 2 ^ 32 }
    requires few_no_longer { effect.no_longer + other.no_longer < 2 ^ 32 }
    requires few_longer { effect.longer + other.longer < 2 ^ 32 }
    ensures { result ≡ joined effect other }
{
    Effect {
        has_unread_prefix: effect.has_unread_prefix || other.has_unread_prefix,
        is_there: effect.is_there || other.is_there,
        begins_line: effect.begins_line || other.begins_line,
        is_taken: effect.is_taken || other.is_taken,
        words: effect.words + other.words,
        bytes: effect.bytes + other.bytes,
        no_longer: effect.no_longer + other.no_longer,
        longer: effect.longer + other.longer,
    }
}

/// Whether a line is exchanged in a turn, by the count of its words that are replaced. Each new
/// word has `new_length` bytes.
pub(crate) fn is_of_turn(tally: Tally, new_length: usize, turn: Turn) -> bool
    requires { tally.bytes ≤ 2 ^ 32 }
    ensures { result ≡ is_turn_of turn tally.words tally.bytes new_length }
{
    // The new words alone may have more bytes than a number can say. Then the line gets longer.
    let is_longer = tally.bytes < tally.words.saturating_mul(new_length);
    match turn {
        Turn::NoLonger => tally.words > 0 && !is_longer,
        Turn::Longer => is_longer,
    }
}
