//! The caveat of each line of a document.
//!
//! The query in words and that of [`json_format`](crate::json_format) both follow this walk, so they list the same lines.
//! Whether a rule adds nothing depends on another line, which may stand anywhere: that takes a walk
//! for each such rule, so the bytes of these walks are bounded.
ghost use Rattle.std.specs.Prelude.{◌≡◌, length};
ghost use Rattle.mk_tree.specs.Documents.{IsFaithful};

use crate::bare_rule::{bare_target, has_recipe_for};
use crate::caveat::Caveat;
use crate::listing::Rules;
use crate::make_word::make_word;
use crate::seen::{Seen, is_led, is_other_class, is_rule};
use mk_class::{Class, Context, Meter, class_of_plain_line};
use mk_lines::after_first_unit;
use mk_lines::source::MAX_TEXT;
use mk_tree::{ContextedLines, Doc, Line};
use std::alloc::{Allocator, Global};
use std::marker::Model;

/// The caveats of the lines of a document that are not yet given: of each line in order, if it has
/// one. Contracts see how many are left.
///
/// It borrows the document and takes no memory. It reads each opaque line once more. To go through
/// all of them takes linear time: all lines are gone through once more for each bare rule that is
/// looked at, and these looks together go through no more bytes than the largest text has.
#[derive(Drop)]
pub struct LineCaveats<'a, A: Allocator = Global> {
    doc: &'a Doc<A>,
    lines: ContextedLines<'a, A>,
    // The rules whose lines are ahead.
    rules: Rules<'a, A>,
    // The bytes through which looks for recipes may still go.
    left: usize,
    seen: Seen,
}

impl<'a, A: Allocator> Model for LineCaveats<'a, A> {
    ghost use Rattle.std.specs.Prelude.{ℕ, length};

    ghost Value = { ℕ };

    ghost view = { λ caveats. length caveats.lines.lines };
}

/// The caveat of each line of a document, in order; none of a line that make reads alike, as far as
/// its class, its first word and the lines above show it. [`caveats`](crate::caveats) writes them.
///
/// It asks for a faithful document.
pub fn line_caveats<A: Allocator>(doc: &Doc<A>) -> LineCaveats<'_, A>
    requires { IsFaithful doc.now }
    ensures { result ≡ length doc.now }
{
    LineCaveats {
        doc,
        lines: doc.lines_with_contexts(),
        rules: crate::listing::rule_lines(doc),
        left: MAX_TEXT,
        seen: Seen::start(),
    }
}

impl<'a, A: Allocator> Iterator for LineCaveats<'a, A> {
    type Item = Option<Caveat>;

    ghost use Rattle.std.specs.Prelude.{◌≡◌, ◌+◌, MatchOption};
    ghost use Rattle.std.specs.Iterator.{at_most};

    ghost next_gives = { λ left given rest. MatchOption given (left ≡ 0) (λ caveat. rest + 1 ≡ left) };

    ghost remaining = { λ left. at_most left };

    fn next(&mut self) -> Option<Option<Caveat>> {
        let Some(standing) = self.lines.next() else {
            return None;
        };
        let (context, line) = standing;
        let class = line.class();
        let caveat = match class {
            Class::Header(_) => rule_caveat(self.doc, &mut self.rules, &mut self.left),
            _ => caveat_of(context, self.seen, &class, line),
        };
        self.seen = self.seen.below(context, &class, line);
        Some(caveat)
    }
}

// The caveat of the next rule. If it is bare and a look may still go through the document, another rule
// with a recipe for its target is looked for; `left` is the bytes through which looks may go.
fn rule_caveat<A: Allocator>(
    doc: &Doc<A>,
    rules: &mut Rules<'_, A>,
    left: &mut usize,
) -> Option<Caveat> {
    let rule = rules.next()?;
    let size = doc.size();
    if *left < size {
        return None;
    }
    let target = bare_target(&rule)?;
    *left -= size;
    if has_recipe_for(doc, target) {
        Some(Caveat::BareRule)
    } else {
        None
    }
}

// The caveat of a line of this class that stands in a context, below lines that leave these flags.
fn caveat_of<A: Allocator>(
    context: Context,
    seen: Seen,
    class: &Class,
    line: &Line<A>,
) -> Option<Caveat> {
    recipe_caveat(context, seen, class, line)
        .or(word_caveat(context, seen, class, line))
        .or(assignment_caveat(class, line))
}

// The caveat of a line of this class as a recipe line.
fn recipe_caveat<A: Allocator>(
    context: Context,
    seen: Seen,
    class: &Class,
    line: &Line<A>,
) -> Option<Caveat> {
    if !is_led(context, line) {
        None
    } else if matches!(class, Class::Opaque) && is_rule(seen.for_make) {
        Some(Caveat::AfterEmpty)
    } else if is_other_class(class) && context.conds() == 0 && is_rule(seen.outside) {
        Some(Caveat::AfterConditional)
    } else {
        None
    }
}

// The caveat of a line of this class by its first word. In most lines no word is read.
fn word_caveat<A: Allocator>(
    context: Context,
    seen: Seen,
    class: &Class,
    line: &Line<A>,
) -> Option<Caveat> {
    let may_be_skipped = 0 < context.conds() && !is_rule(seen.outside);
    match class {
        Class::Opaque => match make_word(line.text()) {
            b"define" => Some(Caveat::Define),
            word => conditional_caveat(word),
        },
        Class::Recipe if may_be_skipped => conditional_caveat(make_word(line.text())),
        _ => None,
    }
}

// The caveat of a line that make may obey, if its first word is one of a conditional.
fn conditional_caveat(word: &[u8]) -> Option<Caveat> {
    match word {
        b"ifeq" | b"ifneq" | b"ifdef" | b"ifndef" | b"else" | b"endif" => {
            Some(Caveat::Conditional)
        }
        _ => None,
    }
}

// The caveat of a line of this class as an assignment.
fn assignment_caveat<A: Allocator>(class: &Class, line: &Line<A>) -> Option<Caveat> {
    if matches!(class, Class::Opaque) {
        return if is_unread_assignment(line) {
            Some(Caveat::Assignment)
        } else {
            None
        };
    }
    let assignment = line.assignment()?;
    match assignment.name() {
        [b'\x0b' | b'\x0c', ..] => Some(Caveat::Assignment),
        [b'$', ..] if is_one_unit(assignment.name()) && assignment.value().len() == 1 => {
            Some(Caveat::Prefix)
        }
        _ => None,
    }
}

// Whether a name is one unit, such as one reference.
fn is_one_unit(name: &[u8]) -> bool {
    after_first_unit(name).is_empty()
}

// Whether an opaque line would be an assignment as the first line of a text. A readable line is one
// if its joined text is.
fn is_unread_assignment<A: Allocator>(line: &Line<A>) -> bool {
    !line.is_unreadable()
        && matches!(
            class_of_plain_line(line.text(), Context::start(), &mut Meter::new()),
            Ok((Class::Assign(..), _))
        )
}
