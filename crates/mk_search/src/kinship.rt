//! How alike two lines are.

use crate::text::{SeenLine, after, without_end};
use mk_class::Class;

// What lines weigh that are equal, apart from their bytes.
const EQUAL: usize = 16;
// What blank lines weigh.
const BLANK: usize = 6;
// What lines weigh that assign the same variable, or are of the same rule.
const NAMESAKES: usize = 24;
// What lines weigh that agree in more than half of their bytes, apart from these.
const ALIKE: usize = 4;
// The most bytes that count.
const MOST: usize = 48;

/// How much it counts that a line stays, or becomes another one: 0 if it does not become that.
pub(crate) fn kinship(old: SeenLine<'_>, new: SeenLine<'_>) -> usize {
    if old.bytes() == new.bytes() {
        weight(old)
    } else if old.is_blank() || new.is_blank() {
        0
    } else if are_namesakes(old, new) || are_switched(old, new) {
        NAMESAKES
    } else if may_become(old.class(), new.class()) {
        likeness(without_end(old.bytes()), without_end(new.bytes()))
    } else {
        0
    }
}

// What it counts that a line stays.
fn weight(seen: SeenLine<'_>) -> usize {
    if seen.is_blank() {
        return BLANK;
    }
    EQUAL.saturating_add(seen.bytes().len().min(MOST))
}

// Whether two lines assign the same variable, or are the lines of rules for the same target.
fn are_namesakes(old: SeenLine<'_>, new: SeenLine<'_>) -> bool {
    match (old.name(), new.name()) {
        (Some(name), Some(other)) => return name == other,
        (None, None) => {}
        _ => return false,
    }
    match (old.target(), new.target()) {
        (Some(target), Some(other)) => target == other,
        _ => false,
    }
}

/// Whether one line may become another by an edit that finds it by a name: both assign the same variable, one
/// of them in a comment perhaps, or are lines of rules for the same target, or recipe lines.
pub(crate) fn have_one_name(old: SeenLine<'_>, new: SeenLine<'_>) -> bool {
    match (old.recipe_target(), new.recipe_target()) {
        (Some(_), Some(_)) => true,
        _ => are_namesakes(old, new) || are_switched(old, new),
    }
}

// Whether a line of one class may become one of the other by what it says: a line that assigns a variable does
// not become one that assigns another.
fn may_become(old: Class, new: Class) -> bool {
    match old {
        Class::Assign(..) => false,
        Class::Recipe => matches!(new, Class::Recipe),
        Class::Header(_) => matches!(new, Class::Header(_)),
        Class::TargetAssign(_) => matches!(new, Class::TargetAssign(_)),
        _ => is_other(new),
    }
}

// Whether a line of a class is no recipe line, no assignment and no line of a rule.
fn is_other(class: Class) -> bool {
    !matches!(
        class,
        Class::Recipe | Class::Assign(..) | Class::Header(_) | Class::TargetAssign(_)
    )
}

// Whether one of two lines assigns a variable, and the other is that line with the sign of a comment before it.
fn are_switched(old: SeenLine<'_>, new: SeenLine<'_>) -> bool {
    match (old.name(), new.name()) {
        (Some(_), None) => uncommented(new.bytes()) == old.bytes(),
        (None, Some(_)) => uncommented(old.bytes()).trim_ascii_start() == new.bytes(),
        _ => false,
    }
}

// A line without the sign of a comment at its front; nothing if it has none.
fn uncommented(line: &[u8]) -> &[u8] {
    match line {
        [b'#', text @ ..] => text,
        _ => &[],
    }
}

// How much two texts agree at their front and at their end: nothing if that is less than half of them.
fn likeness(old: &[u8], new: &[u8]) -> usize {
    let front = common_front(old, new);
    let end = common_end(after(old, front), after(new, front));
    let same = front.saturating_add(end);
    let length = old.len().max(new.len());
    if same < length.saturating_sub(same) {
        return 0;
    }
    ALIKE.saturating_add(same.min(NAMESAKES))
}

// How many bytes two texts have in common at their front.
fn common_front(old: &[u8], new: &[u8]) -> usize {
    let mut same = 0usize;
    for (byte, other) in old.iter().zip(new.iter()) {
        if byte != other {
            return same;
        }
        same = same.saturating_add(1);
    }
    same
}

// How many bytes two texts have in common at their end.
fn common_end(old: &[u8], new: &[u8]) -> usize {
    let mut same = 0usize;
    for (byte, other) in old.iter().rev().zip(new.iter().rev()) {
        if byte != other {
            return same;
        }
        same = same.saturating_add(1);
    }
    same
}
