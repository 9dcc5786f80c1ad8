//! The query `check`: the lines that are kept and not read inside, and what is open at the end.
ghost use Rattle.std.specs.Prelude.{◌≡◌, ℕ, List, false};
ghost use Rattle.mk_lines.specs.Device.{Writes};
ghost use Rattle.mk_tree.specs.Documents.{IsFaithful};
ghost use Rattle.mk_tree.specs.Printing.{Gathers};
ghost use Rattle.mk_queries.specs.Queries.{check_text};
ghost use Rattle.mk_queries.specs.Texts.{end_text, open_text, unread_text};

use crate::gathering::put_parts;
use crate::listing::numbered;
use mk_class::{Class, Context};
use mk_lines::Fault;
use mk_lines::sink::{ByteSink, write_all};
use mk_tree::Doc;
use mk_tree::gathering::Gathered;
use std::alloc::Allocator;

/// Writes a line of text on each line of the makefile that is kept and not read inside, in order.
/// Then it writes how many conditionals and how many defines are open at the end, if any are.
/// Nothing is flushed. Takes no memory.
///
/// Such a line is *rough* if it is the line of a rule, and *opaque* otherwise. The number before it
/// is that of its first physical line, from 1:
///
/// ```text
/// 3: opaque
/// 12: rough
/// end: conditionals 2
/// end: defines 1
/// ```
///
/// It asks for a faithful document.
///
/// # Errors
///
/// [`Fault::Write`] if a write answered it or took no byte. A prefix of the text is out then.
pub fn check<A: Allocator, W: ByteSink>(doc: &Doc<A>, out: &mut W) -> Result<(), Fault>
    requires faithful { IsFaithful doc.now }
    requires works { W.failed out.old ≡ false }
    ensures { Writes W.contents W.failed W.flushes out.old out.new result (check_text doc.now) }
{
    let mut gathered = Gathered::new();
    'lines: for (position, line) in numbered(doc) {
        put_unread(&mut gathered, out, position.number, &line.class())?;
    }
    put_end(&mut gathered, out, doc.end_context())?;
    write_all(out, &gathered)
}

/// Writes the lines of [`check`] with the text of each line of the makefile behind them, for a person.
/// In a text folds are spaces. Nothing is flushed. Takes no memory.
///
/// ```text
/// 3: opaque: $(eval $(call rules,all))
/// end: conditionals 2
/// ```
///
/// It asks for a faithful document. What it writes its contract does not say: it is a hint.
///
/// # Errors
///
/// [`Fault::Write`] if a write answered it or took no byte. A prefix of the text is out then.
pub fn check_texts<A: Allocator, W: ByteSink>(doc: &Doc<A>, out: &mut W) -> Result<(), Fault>
    requires faithful { IsFaithful doc.now }
    requires works { W.failed out.old ≡ false }
    ensures { (text : List ℕ)
        × Writes W.contents W.failed W.flushes out.old out.new result text }
{
    let mut gathered = Gathered::new();
    'lines: for (position, line) in numbered(doc) {
        put_text(
            &mut gathered,
            out,
            position.number,
            &line.class(),
            line.text(),
        )?;
    }
    put_end(&mut gathered, out, doc.end_context())?;
    write_all(out, &gathered)
}

// Puts a line on a line of this number, class and text, if it is kept and not read inside.
fn put_text<W: ByteSink>(
    gathered: &mut Gathered,
    out: &mut W,
    number: usize,
    class: &Class,
    text: &[u8],
) -> Result<(), Fault>
    requires { W.failed out.old ≡ false }
    ensures { (text : List ℕ) × Gathers W.contents W.failed W.flushes out.old out.new
        gathered.old.items gathered.new.items result text }
{
    let kind: &[u8] = match class {
        Class::Rough => b": rough: ",
        Class::Opaque => b": opaque: ",
        _ => return Ok(()),
    };
    let mut digits = itoa::Buffer::new();
    let number = digits.format(number).as_bytes();
    put_parts(gathered, out, &[number, kind, text, b"\n"])
}

// Puts a line on a line of this number and class, if it is kept and not read inside.
fn put_unread<W: ByteSink>(
    gathered: &mut Gathered,
    out: &mut W,
    number: usize,
    class: &Class,
) -> Result<(), Fault>
    requires { W.failed out.old ≡ false }
    ensures { Gathers W.contents W.failed W.flushes out.old out.new gathered.old.items
        gathered.new.items result (unread_text number class.now) }
{
    let mut digits = itoa::Buffer::new();
    match class {
        Class::Rough => put_parts(
            gathered,
            out,
            &[digits.format(number).as_bytes(), b": rough\n"],
        ),
        Class::Opaque => put_parts(
            gathered,
            out,
            &[digits.format(number).as_bytes(), b": opaque\n"],
        ),
        _ => Ok(()),
    }
}

// Puts what is open in the context after all lines.
fn put_end<W: ByteSink>(gathered: &mut Gathered, out: &mut W, end: Context) -> Result<(), Fault>
    requires { W.failed out.old ≡ false }
    ensures { Gathers W.contents W.failed W.flushes out.old out.new gathered.old.items
        gathered.new.items result (end_text end) }
{
    put_open(gathered, out, b"conditionals", u32::from(end.conds()))?;
    put_open(gathered, out, b"defines", end.defines())
}

// Puts a line on how many of this kind are open, if any are.
fn put_open<W: ByteSink>(
    gathered: &mut Gathered,
    out: &mut W,
    kind: &[u8],
    count: u32,
) -> Result<(), Fault>
    requires { W.failed out.old ≡ false }
    ensures { Gathers W.contents W.failed W.flushes out.old out.new gathered.old.items
        gathered.new.items result (open_text kind.now count) }
{
    if count == 0 {
        return Ok(());
    }
    let mut digits = itoa::Buffer::new();
    let count = digits.format(count).as_bytes();
    put_parts(gathered, out, &[b"end: ", kind, b" ", count, b"\n"])
}
