//! Rules: their separators, and where the parts of their lines stand.
ghost use Rattle.std.specs.Prelude.{◌≡◌};
ghost use Rattle.mk_class.specs.OperatorTexts.{separator_text};

/// What stands between the targets and the prerequisites of a rule.
///
/// POSIX.1-2024 make has `:`; the others are the GNU make manual's (sections "Double-Colon Rules"
/// and "Multiple Targets in a Rule").
#[derive(Clone, Copy, Debug, PartialEq, Eq)]
pub enum Separator {
    /// `:`.
    SingleColon,
    /// `::`: a rule of its own among those for its target.
    DoubleColon,
    /// `&:`: one recipe makes all the targets at once.
    GroupedColon,
    /// `&::`: as `::` and `&:` together.
    GroupedDoubleColon,
}

impl Separator {
    /// The separator, as a makefile has it.
    pub fn text(self) -> &'static str
        ensures { result.now ≡ separator_text self }
    {
        match self {
            Separator::SingleColon => ":",
            Separator::DoubleColon => "::",
            Separator::GroupedColon => "&:",
            Separator::GroupedDoubleColon => "&::",
        }
    }
}

/// Where the parts of a header, the line of a rule, stand, as offsets in the line's joined text, in
/// bytes from 0.
///
/// They follow one another: the targets; the separator; a pattern and a second `:`, if there is
/// one; the normal prerequisites; a `|` and the order-only prerequisites, if there is a `|`; and
/// after the head a `;` with an inline recipe, or a `#` with a comment, or nothing.
///
/// POSIX.1-2024 make, Makefile Syntax ("Target Rules"); GNU make manual, "Rule Syntax", "Static
/// Pattern Rules", "Types of Prerequisites".
#[derive(Clone, Copy, Debug, PartialEq, Eq)]
pub struct Header {
    /// What ends the targets.
    pub separator: Separator,
    /// Whether a pattern and a second `:` stand after the separator.
    pub has_pattern: bool,
    /// Whether a `|` stands after the normal prerequisites.
    pub has_order_only: bool,
    /// Whether a `;` ends the head. The inline recipe follows it, and may be empty.
    pub has_recipe: bool,
    /// The end of the targets, which begin at 0: the offset of the separator.
    pub targets_end: usize,
    /// The start of the normal prerequisites: the end of the separator, or of the second `:`.
    pub normal_start: usize,
    /// The end of the normal prerequisites: the offset of the `|`, if there is one.
    pub normal_end: usize,
    /// The end of the head: the offset of a `;` or `#`, or the length of the joined text.
    pub head_end: usize,
}
