//! Why an edit, or another call on an edited document, is refused.
ghost use Rattle.std.specs.Prelude.{◌≡◌};
ghost use Rattle.mk_edit_language.specs.RefusalTexts.{detail_of, field_name, name_of, number_of};

use thiserror::Error;

/// A field of an edit, by the name that a report gives it.
#[derive(Clone, Copy, Debug, PartialEq, Eq)]
pub enum Field {
    /// The name, the target or the lines that say where a new line goes.
    Place,
    /// The name of a variable.
    Name,
    /// The value of a variable.
    Value,
    /// The targets of a new rule.
    Targets,
    /// The prerequisites of a new rule.
    Prereqs,
    /// The target of a rule.
    Target,
    /// A word of a value, or a prerequisite.
    Word,
    /// The command of a recipe line.
    Line,
    /// The target that is renamed, or the text of a recipe line or of whole lines that are sought.
    Old,
    /// The new name of that target.
    New,
    /// The text that is looked for in a value.
    From,
    /// The text in its place.
    To,
    /// The whole lines that are new.
    Block,
}

impl Field {
    /// The name that a report gives the field. Takes no memory.
    pub fn name(&self) -> &'static str
        ensures { result.now ≡ field_name self.now }
    {
        match self {
            Field::Place => "place",
            Field::Name => "name",
            Field::Value => "value",
            Field::Targets => "targets",
            Field::Prereqs => "prereqs",
            Field::Target => "target",
            Field::Word => "word",
            Field::Line => "line",
            Field::Old => "old",
            Field::New => "new",
            Field::From => "from",
            Field::To => "to",
            Field::Block => "block",
        }
    }
}

/// Why a call was refused: an edit, an undo or a redo, or the begin or end of a group. A refused
/// call changes nothing.
///
/// The first fifteen and `Misread` are the causes of an edit. They are tested in the order of their
/// numbers, with one exception: that a line which is written would begin with the recipe prefix is
/// tested after `Ambiguous`, since that test needs the line's place. The first cause that holds is
/// answered. Memory is asked for after all of them but `Misread`, which needs the new line, so
/// `NoMemory` hides no other.
///
/// A refusal is shown by its name. The numbers and names are this project's profile.
#[derive(Clone, Copy, Debug, PartialEq, Eq, Error)]
#[error("{}", self.name())]
pub enum Refusal {
    /// A field of the edit does not pass its test: the first such field.
    BadArgument(Field),
    /// The edit names the variable `.RECIPEPREFIX`, or it names a target that is a word of
    /// directives.
    Reserved,
    /// The file sets `.RECIPEPREFIX` in a way that is not read; or a line that is written, and is
    /// no recipe line, would begin with the recipe prefix in force.
    RecipePrefix,
    /// The file has no such assignment, rule or target, or no nth one.
    NoSuch,
    /// The edit gives no number, and this many lines fit its address, more than one.
    Ambiguous(u64),
    /// The value does not have that word or that text, nor has any line that is meant; the rule does not
    /// have that prerequisite, or has no such recipe line.
    Absent,
    /// The rule already has that prerequisite, in the same list.
    Already,
    /// The new name is a target already.
    Taken,
    /// The rule has this many targets, more than one.
    SharedRule(u64),
    /// A line of a conditional stands between the rule and its last recipe line.
    Straddles,
    /// The value ends in a lone `$`, in a reference without its end, or in a lone backslash.
    OpenValue,
    /// A new line would follow a last line of the file, and could become a part of that line.
    OpenLine,
    /// A new line would stand at the end of the file, inside a `define`.
    OpenDefine,
    /// The lines after the change would be read in another way: one of them begins with the recipe
    /// prefix, and the lines before it would say something else about such lines.
    Leans,
    /// The text would have more than 16,777,216 bytes.
    TooLong,
    /// There is no edit to undo, or none within the depth.
    NothingToUndo,
    /// There is no edit to redo.
    NothingToRedo,
    /// A group is open.
    GroupOpen,
    /// No group is open.
    NoGroup,
    /// A growth was refused: the allocator had no memory for it.
    NoMemory,
    /// A line that the edit would write does not read as the edit says.
    Misread,
}

/// What a refusal says in addition to its name.
#[derive(Clone, Copy, Debug, PartialEq, Eq)]
pub enum Detail {
    /// How many lines or targets there are.
    Count(u64),
    /// Which field of the edit it is.
    Field(Field),
    /// Nothing in addition.
    Nothing,
}

impl Refusal {
    /// The number of the refusal, from 1 to 21. Takes no memory.
    pub fn number(&self) -> u8
        ensures { result ≡ number_of self.now }
    {
        match self {
            Refusal::BadArgument(_) => 1,
            Refusal::Reserved => 2,
            Refusal::RecipePrefix => 3,
            Refusal::NoSuch => 4,
            Refusal::Ambiguous(_) => 5,
            Refusal::Absent => 6,
            Refusal::Already => 7,
            Refusal::Taken => 8,
            Refusal::SharedRule(_) => 9,
            Refusal::Straddles => 10,
            Refusal::OpenValue => 11,
            Refusal::OpenLine => 12,
            Refusal::OpenDefine => 13,
            Refusal::Leans => 14,
            Refusal::TooLong => 15,
            Refusal::NothingToUndo => 16,
            Refusal::NothingToRedo => 17,
            Refusal::GroupOpen => 18,
            Refusal::NoGroup => 19,
            Refusal::NoMemory => 20,
            Refusal::Misread => 21,
        }
    }

    /// The name of the refusal. Takes no memory.
    pub fn name(&self) -> &'static str
        ensures { result.now ≡ name_of self.now }
    {
        match self {
            Refusal::BadArgument(_) => "BadArgument",
            Refusal::Reserved => "Reserved",
            Refusal::RecipePrefix => "RecipePrefix",
            Refusal::NoSuch => "NoSuch",
            Refusal::Ambiguous(_) => "Ambiguous",
            Refusal::Absent => "Absent",
            Refusal::Already => "Already",
            Refusal::Taken => "Taken",
            Refusal::SharedRule(_) => "SharedRule",
            Refusal::Straddles => "Straddles",
            Refusal::OpenValue => "OpenValue",
            Refusal::OpenLine => "OpenLine",
            Refusal::OpenDefine => "OpenDefine",
            Refusal::Leans => "Leans",
            Refusal::TooLong => "TooLong",
            Refusal::NothingToUndo => "NothingToUndo",
            Refusal::NothingToRedo => "NothingToRedo",
            Refusal::GroupOpen => "GroupOpen",
            Refusal::NoGroup => "NoGroup",
            Refusal::NoMemory => "NoMemory",
            Refusal::Misread => "Misread",
        }
    }

    /// The count or the field that the refusal has, or [`Detail::Nothing`]. Takes no memory.
    pub fn detail(&self) -> Detail
        ensures { result ≡ detail_of self.now }
    {
        match self {
            Refusal::BadArgument(field) => Detail::Field(*field),
            Refusal::Ambiguous(count) | Refusal::SharedRule(count) => Detail::Count(*count),
            _ => Detail::Nothing,
        }
    }
}
