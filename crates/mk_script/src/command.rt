//! A command: a call of a session that is one word, or an edit, before which `nth` and a number may
//! stand, or `all`.
ghost use Rattle.std.specs.Prelude.{◌≡◌};
ghost use Rattle.mk_edit_language.specs.CommandViews.{command_of};
ghost use Rattle.mk_edit_language.specs.EditViews.{edit_of};
ghost use Rattle.mk_script.specs.SeenFields.{field_texts};
ghost use Rattle.mk_script.specs.CommandReading.{command_after, edit_after, edit_in};
ghost use Rattle.mk_script.specs.ReaderAnswers.{IsRead, begins_comment, is_skipped};

use crate::edit::{Which, make_edit};
use crate::fault::LineFault;
use crate::field::Field;
use crate::fields::{front, is_blank};
use crate::number::number_of;
use crate::table::{Word, front_word};
use mk_edit_language::{Command, Edit};
use std::alloc::Allocator;

/// Whether a line is skipped: its first byte is `#`, or it has only blanks.
pub(crate) fn is_skipped(line: &[u8]) -> bool
    ensures { result ≡ is_skipped line.now }
{
    begins_comment(line) || is_blank(line)
}

fn begins_comment(line: &[u8]) -> bool
    ensures { result ≡ begins_comment line.now }
{
    match line {
        [] => false,
        [first, ..] => *first == b'#',
    }
}

/// The command that a word of the table and the fields behind it are.
///
/// # Errors
///
/// `NotACommand` if they are no command; `NoMemory` if they are one, and a growth was refused.
#[tactic(auto, using(crate::proofs::on_commands::TableLemmas::is_some_mapped))]
pub(crate) fn read_command<A: Allocator + Copy>(
    alloc: A,
    word: Word,
    fields: &[Field<'_>],
) -> Result<Command<A>, LineFault>
    ensures { IsRead command_of (command_after word (field_texts fields.now)) result }
{
    match (word, fields) {
        (Word::Undo, []) => Ok(Command::Undo),
        (Word::Redo, []) => Ok(Command::Redo),
        (Word::Begin, []) => Ok(Command::Begin),
        (Word::End, []) => Ok(Command::End),
        (Word::Cancel, []) => Ok(Command::Cancel),
        (Word::Undo | Word::Redo | Word::Begin | Word::End | Word::Cancel, _) => {
            Err(LineFault::NotACommand)
        }
        _ => Ok(Command::Apply(read_edit_after(alloc, word, fields)?)),
    }
}

/// The edit that some fields are.
///
/// # Errors
///
/// `NotACommand` if they are no edit's command; `NoMemory` if they are one, and a growth was refused.
pub(crate) fn read_edit<A: Allocator + Copy>(
    alloc: A,
    fields: &[Field<'_>],
) -> Result<Edit<A>, LineFault>
    ensures { IsRead edit_of (edit_in (field_texts fields.now)) result }
{
    let (word, others) = front_word(fields)?;
    read_edit_after(alloc, word, others)
}

// The edit that a word, which may be `nth` or `all`, and the fields behind it are.
fn read_edit_after<A: Allocator + Copy>(
    alloc: A,
    word: Word,
    fields: &[Field<'_>],
) -> Result<Edit<A>, LineFault>
    ensures { IsRead edit_of (edit_after word (field_texts fields.now)) result }
{
    match word {
        Word::Nth => {
            let (number, rest) = front(fields)?;
            let nth = number_of(number)?;
            let (word, rest) = front_word(rest)?;
            make_edit(alloc, Which::One(Some(nth)), word, rest)
        }
        Word::All => {
            let (word, rest) = front_word(fields)?;
            make_edit(alloc, Which::Every, word, rest)
        }
        _ => make_edit(alloc, Which::One(None), word, fields),
    }
}
