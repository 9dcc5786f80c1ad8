//! What the lines above tell of rules, where make passes some of them.

use crate::make_word::make_word;
use mk_class::{Class, Context, RuleFlag};
use mk_tree::Line;
use std::alloc::Allocator;

/// The flags that the lines above leave, where some of them are left out.
#[derive(Clone, Copy)]
pub(crate) struct Seen {
    /// Without the opaque lines that make takes for empty.
    pub for_make: RuleFlag,
    /// Without the lines inside of conditionals.
    pub outside: RuleFlag,
}

impl Seen {
    /// Above the first line nothing is left out, and no rule is open.
    pub(crate) fn start() -> Seen {
        Seen {
            for_make: RuleFlag::Off,
            outside: RuleFlag::Off,
        }
    }

    /// The flags below a line of this class, which stands in a context.
    pub(crate) fn below<A: Allocator>(
        self,
        context: Context,
        class: &Class,
        line: &Line<A>,
    ) -> Seen {
        if is_other_class(class) && is_led(context, line) {
            return self;
        }
        Seen {
            for_make: if is_empty_for_make(class, line) {
                self.for_make
            } else {
                self.for_make.after(class)
            },
            outside: if context.conds() == 0 {
                self.outside.after(class)
            } else {
                self.outside
            },
        }
    }
}

/// Whether a flag says that a rule is open.
pub(crate) fn is_rule(flag: RuleFlag) -> bool {
    matches!(flag, RuleFlag::Rule)
}

/// Whether a line begins with the recipe prefix of its context.
pub(crate) fn is_led<A: Allocator>(context: Context, line: &Line<A>) -> bool {
    line.bytes().first() == Some(&context.prefix())
}

/// Whether a line of this class, which begins with the recipe prefix, is no recipe line, no line of
/// a define, no blank and no comment.
pub(crate) fn is_other_class(class: &Class) -> bool {
    matches!(
        class,
        Class::Opaque | Class::Assign(..) | Class::DefineHead(_) | Class::If | Class::Directive
    )
}

// Whether make takes a line of this class, which is opaque, for empty: it finds no word, or one that
// begins a comment.
fn is_empty_for_make<A: Allocator>(class: &Class, line: &Line<A>) -> bool {
    matches!(class, Class::Opaque) && matches!(make_word(line.text()), [] | [b'#', ..])
}
