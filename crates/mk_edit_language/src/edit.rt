//! The edits, those of several lines, the changes of values and of lines, the places of new lines, the
//! sites of whole lines, and the separators of new rules.
//!
//! An edit owns its texts. Contracts see it as a value of the definitions (`edit_of`). `==` compares
//! edits, places, sites and changes, and `clone` copies their texts: it answers
//! [`AllocError`](std::alloc::AllocError) if there is no memory for one.
//!
//! `nth` is the number of a line among the lines of the same name or target, from 1, in the order
//! of the file; without it, an edit means the only such line. `number` is the number of a recipe
//! line of its rule, from 1.
//!
//! A *block* is the text of whole lines: the lines without their line ends, with LF between them.

use mk_class::Flavor;
use std::alloc::{Allocator, Global};

/// The separator of a new rule.
///
/// POSIX.1-2024 make has `:`, the GNU make manual has `::` too (section "Double-Colon Rules"). That
/// no rule is added with one of its grouped separators is this project's profile.
#[derive(Clone, Copy, Debug, PartialEq, Eq)]
pub enum RuleSeparator {
    /// `:`.
    Single,
    /// `::`.
    Double,
}

/// Where a new line goes.
#[derive(Drop)]
#[derive_where(Clone; A)]
#[derive_where(Debug, PartialEq, Eq)]
pub enum Place<A: Allocator = Global> {
    /// The start of the file.
    Top,
    /// The end of the file.
    Bottom,
    /// Before the line of an assignment.
    BeforeVar {
        /// Which of the assignments of this name, from 1.
        nth: Option<u32>,
        /// The name of the variable.
        name: Vec<u8, A>,
    },
    /// After the line of an assignment.
    AfterVar {
        /// Which of the assignments of this name, from 1.
        nth: Option<u32>,
        /// The name of the variable.
        name: Vec<u8, A>,
    },
    /// After the last line that assigns a variable.
    AfterLastVar {
        /// The name of the variable.
        name: Vec<u8, A>,
    },
    /// Before the line of a rule.
    BeforeRule {
        /// Which of the rules for this target, from 1.
        nth: Option<u32>,
        /// One of the rule's targets.
        target: Vec<u8, A>,
    },
    /// After the last recipe line of a rule, or after the line of the rule if it has no recipe line.
    AfterRule {
        /// Which of the rules for this target, from 1.
        nth: Option<u32>,
        /// One of the rule's targets.
        target: Vec<u8, A>,
    },
}

/// Where whole lines go, or which lines go for them.
///
/// Lines are found by what they say: a run of lines says a block where its physical lines, without
/// their line ends, are those of the block. `nth` is the number of such a run, from 1. A rule is found
/// by its target.
#[derive(Drop)]
#[derive_where(Clone; A)]
#[derive_where(Debug, PartialEq, Eq)]
pub enum Site<A: Allocator = Global> {
    /// A place of a new line.
    AtPlace(Place<A>),
    /// Before lines.
    BeforeLines {
        /// Which of the runs that say the block, from 1.
        nth: Option<u32>,
        /// What the lines say: a block.
        old: Vec<u8, A>,
    },
    /// After lines.
    AfterLines {
        /// Which of the runs that say the block, from 1.
        nth: Option<u32>,
        /// What the lines say: a block.
        old: Vec<u8, A>,
    },
    /// In the place of lines, which go.
    OfLines {
        /// Which of the runs that say the block, from 1.
        nth: Option<u32>,
        /// What the lines say: a block.
        old: Vec<u8, A>,
    },
    /// In the place of a rule and its recipe, which go with the conditionals in the recipe.
    OfRule {
        /// Which of the rules for this target, from 1.
        nth: Option<u32>,
        /// The rule's target.
        target: Vec<u8, A>,
    },
}

/// What an edit does to each value of a name.
#[derive(Drop)]
#[derive_where(Clone; A)]
#[derive_where(Debug, PartialEq, Eq)]
pub enum ValueChange<A: Allocator = Global> {
    /// Gives each assignment this value, which may be empty, as [`Edit::SetValue`] does with one.
    Set(Vec<u8, A>),
    /// Gives each assignment that has one value another, as [`Edit::SetValueIf`] does with one.
    SetIf {
        /// The value that an assignment has to have, which may be empty.
        old: Vec<u8, A>,
        /// The new value, which may be empty.
        value: Vec<u8, A>,
    },
    /// Puts this text, which is not empty, after each value, as [`Edit::AppendValue`] does with one.
    Append(Vec<u8, A>),
    /// Puts this word after each value that does not have it, as [`Edit::AddWord`] does with one.
    Add(Vec<u8, A>),
    /// Takes this word out of each value that has it, as [`Edit::RemoveWord`] does with one.
    Remove(Vec<u8, A>),
}

/// On which side of a word a new one goes.
#[derive(Clone, Copy, Debug, PartialEq, Eq)]
pub enum Side {
    /// Before the word.
    Before,
    /// After the word.
    After,
}

/// What an edit that is checked by reading does to the line of an assignment. It is refused as
/// `Misread` if the new line is not read as the edit says.
#[derive(Drop)]
#[derive_where(Clone; A)]
#[derive_where(Debug, PartialEq, Eq)]
pub enum LineChange<A: Allocator = Global> {
    /// Puts this text, which is not empty, before the value, with a space between them if the value
    /// is not empty.
    Prepend(Vec<u8, A>),
    /// Puts a text in the place of a word of the value, wherever it stands there.
    ReplaceWord {
        /// The word.
        word: Vec<u8, A>,
        /// The text in its place, which is not empty.
        value: Vec<u8, A>,
    },
    /// Puts a word beside another one of the value, with what separates that one from its neighbour
    /// between them: a fold, if each word stands on a line of its own. The other word stands once in
    /// the value, and the new one does not stand there yet.
    InsertWord {
        /// On which side of the other word it goes.
        side: Side,
        /// The other word.
        word: Vec<u8, A>,
        /// The new word.
        new: Vec<u8, A>,
    },
    /// Puts a text in the place of each occurrence of another in the value. Occurrences are taken
    /// from the left, none overlapping the one before. A fold counts as the space that it is read as.
    Substitute {
        /// The text to look for, which is not empty.
        from: Vec<u8, A>,
        /// The text in its place, which may be empty.
        to: Vec<u8, A>,
    },
    /// Puts this operator in the place of the operator.
    SetOperator(Flavor),
}

/// An edit of several lines, as one, that is checked by reading. It is refused where it changes none of
/// the lines that it means, and as `Misread` if a new line is not read as the edit says. The
/// assignments of `.RECIPEPREFIX` stay.
#[derive(Drop)]
#[derive_where(Clone; A)]
#[derive_where(Debug, PartialEq, Eq)]
pub enum EachEdit<A: Allocator = Global> {
    /// Changes the line of each assignment of a variable.
    ///
    /// [`LineChange::InsertWord`] puts a word into one value only: here it is refused as a bad word.
    ChangeEach {
        /// The name of the variable.
        name: Vec<u8, A>,
        /// What is done to each line.
        change: LineChange<A>,
    },
    /// Puts a text in the place of each occurrence of another in the values of all assignments, as
    /// [`LineChange::Substitute`] does in one.
    SubstValues {
        /// The text to look for, which is not empty.
        from: Vec<u8, A>,
        /// The text in its place, which may be empty.
        to: Vec<u8, A>,
    },
    /// Puts a text in the place of each occurrence of another in the recipe lines of the rules for a
    /// target, or of one of these rules. Occurrences are taken from the left, none overlapping the
    /// one before. The text of a recipe line begins after the recipe prefix, and is the bytes of the
    /// file up to the line end: a backslash before a line end in it is a byte as any other.
    SubstRecipe {
        /// Which of the rules for this target, from 1; each if there is no number.
        nth: Option<u32>,
        /// One of the targets of each rule.
        target: Vec<u8, A>,
        /// The text to look for, which is not empty.
        from: Vec<u8, A>,
        /// The text in its place, which may be empty.
        to: Vec<u8, A>,
    },
    /// Puts a text in the place of each occurrence of another in all recipe lines, as
    /// [`EachEdit::SubstRecipe`] does in those of one target.
    SubstRecipes {
        /// The text to look for, which is not empty.
        from: Vec<u8, A>,
        /// The text in its place, which may be empty.
        to: Vec<u8, A>,
    },
}

/// An edit of a makefile.
#[derive(Drop)]
#[derive_where(Clone; A)]
#[derive_where(Debug, PartialEq, Eq)]
pub enum Edit<A: Allocator = Global> {
    /// Gives a variable another value. The blanks and the comment after the value stay. If the new
    /// value is empty, the blanks after the old value go too.
    SetValue {
        /// Which of the assignments of this name, from 1.
        nth: Option<u32>,
        /// The name of the variable.
        name: Vec<u8, A>,
        /// The new value, which may be empty.
        value: Vec<u8, A>,
    },
    /// Gives a variable another value in the place of the one that the edit expects.
    SetValueIf {
        /// Which of the assignments of this name that have the old value, from 1.
        nth: Option<u32>,
        /// The name of the variable.
        name: Vec<u8, A>,
        /// The old value, which may be empty.
        old: Vec<u8, A>,
        /// The new value, which may be empty.
        value: Vec<u8, A>,
    },
    /// Puts a text after a variable's value, with a space between them if the value is not empty.
    AppendValue {
        /// Which of the assignments of this name, from 1.
        nth: Option<u32>,
        /// The name of the variable.
        name: Vec<u8, A>,
        /// The text, which is not empty.
        value: Vec<u8, A>,
    },
    /// Puts a word after a variable's value, with a space between them if the value is not empty.
    /// The word is none of the value's words yet.
    AddWord {
        /// Which of the assignments of this name, from 1.
        nth: Option<u32>,
        /// The name of the variable.
        name: Vec<u8, A>,
        /// The new word: a value that is not empty, without a blank outside a reference.
        word: Vec<u8, A>,
    },
    /// Takes a word out of a variable's value, wherever it stands there. It goes with the blanks
    /// before it; a word before which no word stays goes with the blanks after it. If no word stays,
    /// the blanks after the value go too.
    RemoveWord {
        /// Which of the assignments of this name, from 1.
        nth: Option<u32>,
        /// The name of the variable.
        name: Vec<u8, A>,
        /// The word: a value that is not empty, without a blank outside a reference.
        word: Vec<u8, A>,
    },
    /// Changes each assignment of a variable, as one edit. It is refused where the change does nothing
    /// to any of them, and where it would be refused for one of those that it changes.
    ChangeValues {
        /// The name of the variable.
        name: Vec<u8, A>,
        /// What is done to each value.
        change: ValueChange<A>,
    },
    /// Changes the line of an assignment, and reads the new line to check it.
    ChangeLine {
        /// Which of the assignments of this name, from 1.
        nth: Option<u32>,
        /// The name of the variable.
        name: Vec<u8, A>,
        /// What is done to the line.
        change: LineChange<A>,
    },
    /// Puts in the line of an assignment.
    AddAssign {
        /// Where the line goes.
        place: Place<A>,
        /// The name of the variable.
        name: Vec<u8, A>,
        /// The flavor, which its operator tells.
        flavor: Flavor,
        /// The value, which may be empty.
        value: Vec<u8, A>,
    },
    /// Takes out the line of an assignment.
    RemoveAssign {
        /// Which of the assignments of this name, from 1.
        nth: Option<u32>,
        /// The name of the variable.
        name: Vec<u8, A>,
    },
    /// Makes the line of an assignment a comment: a `#` goes before it.
    CommentOut {
        /// Which of the assignments of this name, from 1.
        nth: Option<u32>,
        /// The name of the variable.
        name: Vec<u8, A>,
    },
    /// Makes a comment that says an assignment, as `# NAME = VALUE`, the line of an assignment: its first
    /// `#` goes, with the blanks directly after it. The new line is read to check it.
    Uncomment {
        /// Which of the comments that say this name, from 1.
        nth: Option<u32>,
        /// The name of the variable.
        name: Vec<u8, A>,
    },
    /// Puts in the line of a rule.
    AddRule {
        /// Where the line goes.
        place: Place<A>,
        /// The targets, one word or several with blanks between them.
        targets: Vec<u8, A>,
        /// The separator.
        separator: RuleSeparator,
        /// The prerequisites: words with blanks between them, or nothing.
        prereqs: Vec<u8, A>,
    },
    /// Takes out the line of a rule and its recipe.
    RemoveRule {
        /// Which of the rules for this target, from 1.
        nth: Option<u32>,
        /// The rule's target.
        target: Vec<u8, A>,
    },
    /// Puts a word after the prerequisites of a rule.
    AddPrereq {
        /// Whether it goes to the order-only prerequisites, which stand after a `|`.
        order: bool,
        /// Which of the rules for this target, from 1.
        nth: Option<u32>,
        /// One of the rule's targets.
        target: Vec<u8, A>,
        /// The new prerequisite.
        word: Vec<u8, A>,
    },
    /// Takes a word out of the prerequisites of a rule, wherever it stands among them.
    RemovePrereq {
        /// Which of the rules for this target, from 1.
        nth: Option<u32>,
        /// One of the rule's targets.
        target: Vec<u8, A>,
        /// The prerequisite.
        word: Vec<u8, A>,
    },
    /// Puts a word in the place of another of the prerequisites of a rule, wherever it stands among them.
    /// The new word is no prerequisite of the rule yet.
    ReplacePrereq {
        /// Which of the rules for this target, from 1.
        nth: Option<u32>,
        /// One of the rule's targets.
        target: Vec<u8, A>,
        /// The old prerequisite.
        old: Vec<u8, A>,
        /// The new prerequisite.
        new: Vec<u8, A>,
    },
    /// Puts a line after the recipe of a rule.
    AddRecipe {
        /// Which of the rules for this target, from 1.
        nth: Option<u32>,
        /// One of the rule's targets.
        target: Vec<u8, A>,
        /// The command of the recipe line, without the recipe prefix.
        line: Vec<u8, A>,
    },
    /// Gives a recipe line another command.
    SetRecipe {
        /// Which of the rules for this target, from 1.
        nth: Option<u32>,
        /// One of the rule's targets.
        target: Vec<u8, A>,
        /// Which of the rule's recipe lines, from 1.
        number: u32,
        /// The new command, without the recipe prefix.
        line: Vec<u8, A>,
    },
    /// Takes out a recipe line.
    RemoveRecipe {
        /// Which of the rules for this target, from 1.
        nth: Option<u32>,
        /// One of the rule's targets.
        target: Vec<u8, A>,
        /// Which of the rule's recipe lines, from 1.
        number: u32,
    },
    /// Puts a line into the recipe of a rule, before one of its recipe lines or after the last.
    InsertRecipe {
        /// Which of the rules for this target, from 1.
        nth: Option<u32>,
        /// One of the rule's targets.
        target: Vec<u8, A>,
        /// The number that the new line will have among the rule's recipe lines, from 1: at most one
        /// more than there are.
        number: u32,
        /// The command of the recipe line, without the recipe prefix.
        line: Vec<u8, A>,
    },
    /// Gives a recipe line another command. It is the only recipe line of its rule that has this
    /// text.
    SetRecipeByText {
        /// Which of the rules for this target, from 1.
        nth: Option<u32>,
        /// One of the rule's targets.
        target: Vec<u8, A>,
        /// The text of the recipe line, without the recipe prefix.
        old: Vec<u8, A>,
        /// The new command, without the recipe prefix.
        line: Vec<u8, A>,
    },
    /// Takes out a recipe line. It is the only recipe line of its rule that has this text.
    RemoveRecipeByText {
        /// Which of the rules for this target, from 1.
        nth: Option<u32>,
        /// One of the rule's targets.
        target: Vec<u8, A>,
        /// The text of the recipe line, without the recipe prefix.
        old: Vec<u8, A>,
    },
    /// Gives a target another name, wherever it stands as a target or as a prerequisite. A report
    /// calls the fields `old` and `new`.
    RenameTarget {
        /// The old name.
        from: Vec<u8, A>,
        /// The new name.
        to: Vec<u8, A>,
    },
    /// Puts in whole lines of any class, or exchanges lines for others, or takes lines out. The new
    /// lines are read in the context that is there, and the edit is refused where they would change
    /// what the lines around them read as.
    ExchangeLines {
        /// Where the new lines go, or which lines go for them.
        site: Site<A>,
        /// The new lines, as a block; none if lines are taken out.
        block: Option<Vec<u8, A>>,
    },
    /// Changes several lines, and reads each new line to check it.
    EachLine(EachEdit<A>),
}
