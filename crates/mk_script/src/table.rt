//! The table of the commands of a script. The reader goes by it, and help, the documents, the completions and the
//! hints on mistakes have the words and the fields from here.
ghost use Rattle.std.specs.Prelude.{◌≡◌, option_map};
ghost use Rattle.std.specs.Str.{bytes_eq};
ghost use Rattle.mk_script.specs.CommandReading.{worded};
ghost use Rattle.mk_script.specs.ReaderAnswers.{IsFound};
ghost use Rattle.mk_script.specs.SeenFields.{field_texts, word_and_others};
ghost use Rattle.mk_script.specs.WordReading.{named, word_text, words};

use self::CommandKind::{Call, NumberedEdit, PlainEdit, Prefix, ValueEdit};
use crate::fault::NotThere;
use crate::field::Field;
use crate::fields::{bare_len, front};

/// What a command is, and what may stand before it beside `try` and `or`.
#[derive(Clone, Copy, Debug, PartialEq, Eq)]
pub enum CommandKind {
    /// An edit of a value, before which `nth` and a number may stand, or `all`.
    ValueEdit,
    /// An edit before which `nth` and a number may stand.
    NumberedEdit,
    /// An edit before which neither may stand.
    PlainEdit,
    /// A call of a session that has no edit, before which nothing may stand.
    Call,
    /// Words that stand before the command of an edit.
    Prefix,
}

/// The words of the table, each by its name.
#[derive(Clone, Copy)]
pub(crate) enum Word {
    Set,
    SetIf,
    Append,
    Add,
    Drop,
    Prepend,
    Replace,
    AddBefore,
    AddAfter,
    Subst,
    Operator,
    ValuesSubst,
    Unset,
    CommentOut,
    Uncomment,
    Assign,
    Rule,
    Unrule,
    Depend,
    DependOrder,
    Undepend,
    DependReplace,
    Recipe,
    RecipeInsert,
    RecipeSet,
    RecipeDel,
    RecipeReplace,
    RecipeRemove,
    RecipeSubst,
    RecipesSubst,
    Insert,
    LineReplace,
    LineRemove,
    RuleReplace,
    RuleRemove,
    Rename,
    Nth,
    All,
    Undo,
    Redo,
    Begin,
    End,
    Cancel,
    Try,
    Or,
}

/// A command of a script, or words that stand before one.
#[derive(Clone, Copy, Debug)]
pub struct CommandForm(
    /// Its word and the names of its fields, with a space before each: `recipe-set TARGET K LINE`.
    pub &'static str,
    /// What it is.
    pub CommandKind,
);

impl CommandForm {
    /// Its word.
    pub fn word(&self) -> &'static str {
        self.0.split(' ').next().unwrap_or_default()
    }
}

/// A row of the table: a command's word and the names of its fields, what it is, and which word it has.
pub(crate) type Row = (&'static str, CommandKind, Word);

/// All commands of a script, and the words that may stand before one.
pub(crate) const COMMANDS: [(&str, CommandKind, Word); 45] = [
    ("set NAME VALUE", ValueEdit, Word::Set),
    ("set-if NAME OLD VALUE", ValueEdit, Word::SetIf),
    ("append NAME VALUE", ValueEdit, Word::Append),
    ("add NAME WORD", ValueEdit, Word::Add),
    ("drop NAME WORD", ValueEdit, Word::Drop),
    ("prepend NAME VALUE", ValueEdit, Word::Prepend),
    ("replace NAME WORD VALUE", ValueEdit, Word::Replace),
    ("add-before NAME WORD NEW", NumberedEdit, Word::AddBefore),
    ("add-after NAME WORD NEW", NumberedEdit, Word::AddAfter),
    ("subst NAME FROM TO", ValueEdit, Word::Subst),
    ("operator NAME OP", ValueEdit, Word::Operator),
    ("values-subst FROM TO", PlainEdit, Word::ValuesSubst),
    ("unset NAME", NumberedEdit, Word::Unset),
    ("comment-out NAME", NumberedEdit, Word::CommentOut),
    ("uncomment NAME", NumberedEdit, Word::Uncomment),
    ("assign PLACE NAME OP VALUE", NumberedEdit, Word::Assign),
    ("rule PLACE TARGETS SEP PREREQS", NumberedEdit, Word::Rule),
    ("unrule TARGET", NumberedEdit, Word::Unrule),
    ("depend TARGET WORD", NumberedEdit, Word::Depend),
    ("depend-order TARGET WORD", NumberedEdit, Word::DependOrder),
    ("undepend TARGET WORD", NumberedEdit, Word::Undepend),
    (
        "depend-replace TARGET OLD NEW",
        NumberedEdit,
        Word::DependReplace,
    ),
    ("recipe TARGET LINE", NumberedEdit, Word::Recipe),
    (
        "recipe-insert TARGET K LINE",
        NumberedEdit,
        Word::RecipeInsert,
    ),
    ("recipe-set TARGET K LINE", NumberedEdit, Word::RecipeSet),
    ("recipe-del TARGET K", NumberedEdit, Word::RecipeDel),
    (
        "recipe-replace TARGET OLD LINE",
        NumberedEdit,
        Word::RecipeReplace,
    ),
    ("recipe-remove TARGET OLD", NumberedEdit, Word::RecipeRemove),
    (
        "recipe-subst TARGET FROM TO",
        NumberedEdit,
        Word::RecipeSubst,
    ),
    ("recipes-subst FROM TO", PlainEdit, Word::RecipesSubst),
    ("insert PLACE BLOCK", NumberedEdit, Word::Insert),
    ("line-replace OLD BLOCK", NumberedEdit, Word::LineReplace),
    ("line-remove OLD", NumberedEdit, Word::LineRemove),
    ("rule-replace TARGET BLOCK", NumberedEdit, Word::RuleReplace),
    ("rule-remove TARGET", NumberedEdit, Word::RuleRemove),
    ("rename OLD NEW", PlainEdit, Word::Rename),
    ("nth N COMMAND", Prefix, Word::Nth),
    ("all COMMAND", Prefix, Word::All),
    ("undo", Call, Word::Undo),
    ("redo", Call, Word::Redo),
    ("begin", Call, Word::Begin),
    ("end", Call, Word::End),
    ("cancel", Call, Word::Cancel),
    ("try COMMAND", Prefix, Word::Try),
    ("or COMMAND", Prefix, Word::Or),
];

/// The row of this word, if there is one.
pub(crate) fn row_of(word: &[u8]) -> Option<Row>
    ensures { option_map (λ row. row.2) result ≡ named words word.now }
{
    let mut rows: &[Row] = &COMMANDS;
    while let [row, rest @ ..] = rows {
        if begins_form(row.0, word) {
            return Some(*row);
        }
        rows = rest;
    }
    None
}

/// What the table says of the command of this word, if there is one.
pub fn command_form(word: &[u8]) -> Option<CommandForm> {
    let (form, kind, _) = row_of(word)?;
    Some(CommandForm(form, kind))
}

/// The first of some fields as a word of the table, and the others.
///
/// # Errors
///
/// [`NotThere`] if there is no field, or the first is no such word.
pub(crate) fn front_word<'b, 'a>(
    fields: &'b [Field<'a>],
) -> Result<(Word, &'b [Field<'a>]), NotThere>
    ensures { IsFound word_and_others (worded (field_texts fields.now)) result }
{
    let (word, others) = front(fields)?;
    match row_of(word.written()) {
        Some(row) => Ok((row.2, others)),
        None => Err(NotThere),
    }
}

// Whether this is the word of a form.
fn begins_form(form: &str, word: &[u8]) -> bool
    ensures { result ≡ bytes_eq word.now (word_text form.now) }
{
    let form = form.as_bytes();
    word == &form[..bare_len(form)]
}
