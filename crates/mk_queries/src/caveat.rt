//! What make may read in a line otherwise than it is read here.

/// What make may read in a line otherwise than it is read here.
#[derive(Clone, Copy, Debug, PartialEq, Eq)]
pub enum Caveat {
    /// A recipe line, since make takes an opaque line above for empty.
    AfterEmpty,
    /// A recipe line, since make may skip the lines of the conditional above.
    AfterConditional,
    /// A line of a conditional.
    Conditional,
    /// The line that begins a define.
    Define,
    /// An assignment that no edit finds.
    Assignment,
    /// An assignment of the recipe prefix.
    Prefix,
    /// A rule that has one target and nothing else, where another one has a recipe for the target.
    BareRule,
}

impl Caveat {
    /// What is said of it, as [`caveats`](crate::caveats) writes it behind the number of the line.
    pub fn sentence(self) -> &'static str {
        match self {
            Caveat::AfterEmpty => {
                "make may take this for a recipe line: an opaque line above is empty for make"
            }
            Caveat::AfterConditional => {
                "make may take this for a recipe line: it may skip the conditional above"
            }
            Caveat::Conditional => "make may obey this as a line of a conditional",
            Caveat::Define => "make may begin a define here",
            Caveat::Assignment => "make may set a variable here that no edit finds",
            Caveat::Prefix => "make may set the recipe prefix here",
            Caveat::BareRule => {
                "make may take nothing from this rule: another one has the recipe of its target"
            }
        }
    }
}
