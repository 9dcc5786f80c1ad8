//! The classes of lines.

use crate::assignment::{Assignment, TargetAssignment};
use crate::context::Nesting;
use crate::rule::Header;

/// What a logical line is. The offsets are those of its joined text, in bytes from 0.
///
/// The class of a line is the first that fits, in the order of the table in docs/LANGUAGE.md. That
/// table says what each class is and where it comes from.
#[derive(Clone, Copy, Debug, PartialEq, Eq)]
pub enum Class {
    /// The line `endef` that ends a define.
    Endef,
    /// A line in a define, which is kept raw.
    Body(Nesting),
    /// A recipe line, whose first byte is the recipe prefix.
    Recipe,
    /// A line that is kept and not read inside.
    Opaque,
    /// A line of blanks, or of nothing.
    Blank,
    /// A line of blanks and a comment.
    Comment,
    /// An assignment, with the recipe prefix that it sets, if it sets one.
    Assign(Assignment, Option<u8>),
    /// The line that begins a define, and whether it defines the recipe prefix.
    DefineHead(bool),
    /// A line that opens a conditional: `ifeq`, `ifneq`, `ifdef` or `ifndef`.
    If,
    /// An `else` in a conditional.
    Else,
    /// The line `endif` that ends a conditional.
    Endif,
    /// Another directive, such as `include`.
    Directive,
    /// An assignment for targets.
    TargetAssign(TargetAssignment),
    /// The line of a rule that is not read inside.
    Rough,
    /// The line of a rule.
    Header(Header),
}

impl Class {
    ghost use Rattle.std.specs.Prelude.{◌≡◌};
    ghost use Rattle.mk_class.specs.LocatedClasses.{leaves_flag_located};

    /// Whether a line of this class leaves the flag as it is: whether a rule is open after it is
    /// what it was before. So do blank lines, comments and the lines of conditionals.
    pub fn leaves_flag(&self) -> bool
        ensures { result ≡ leaves_flag_located self.now }
    {
        matches!(
            self,
            Class::Blank | Class::Comment | Class::If | Class::Else | Class::Endif
        )
    }
}
