//! The query `caveats`: the lines that make may read otherwise.
//!
//! No definition says what is printed: these are hints to a person, and a definition would be this
//! code once more. `tests/program` compares them with a reading in Python.
ghost use Rattle.std.specs.Prelude.{◌≡◌, ℕ, List, false};
ghost use Rattle.mk_lines.specs.Device.{Writes};
ghost use Rattle.mk_tree.specs.Documents.{IsFaithful};
ghost use Rattle.mk_tree.specs.Printing.{Gathers};

use crate::caveat::Caveat;
use crate::gathering::put_parts;
use crate::listing::numbered;
use crate::walk::line_caveats;
use mk_lines::Fault;
use mk_lines::sink::{ByteSink, write_all};
use mk_tree::Doc;
use mk_tree::gathering::Gathered;
use std::alloc::Allocator;

/// Writes a line of text on each line of the makefile that make may read otherwise than it is read
/// here, as far as its class, its first word and the lines above show it. Nothing is flushed. Takes
/// no memory.
///
/// The number that stands before the sentence is that of the line's first physical line, from 1:
///
/// ```text
/// 5: make may take this for a recipe line: it may skip the conditional above
/// 9: make may begin a define here
/// ```
///
/// A rule that has one target and nothing else is named if another rule has a recipe for its target.
/// For each such rule all lines are gone through once more, as long as these looks together go
/// through no more than 16,777,216 bytes. Those below the last one that is looked at are not named.
///
/// A makefile of which nothing is said may still mean something else to make: `docs/LANGUAGE.md`
/// has what is known, in its chapter "Where make reads otherwise", and of which of it this query
/// tells. An opaque line is read once more.
///
/// It asks for a faithful document. Which lines it names, and what it says of them, its contract does
/// not say: they are hints.
///
/// # Errors
///
/// [`Fault::Write`] if a write answered it or took no byte. A prefix of the text is out then.
pub fn caveats<A: Allocator, W: ByteSink>(doc: &Doc<A>, out: &mut W) -> Result<(), Fault>
    requires faithful { IsFaithful doc.now }
    requires works { W.failed out.old ≡ false }
    ensures { (text : List ℕ)
        × Writes W.contents W.failed W.flushes out.old out.new result text }
{
    let mut gathered = Gathered::new();
    let mut caveats = line_caveats(doc);
    'lines: for (position, _) in numbered(doc) {
        let caveat = caveats.next().unwrap_or(None);
        put_caveat(&mut gathered, out, position.number, caveat)?;
    }
    write_all(out, &gathered)
}

// Puts a line on the caveat of a line of this number, if it has one.
fn put_caveat<W: ByteSink>(
    gathered: &mut Gathered,
    out: &mut W,
    number: usize,
    caveat: Option<Caveat>,
) -> Result<(), Fault>
    requires { W.failed out.old ≡ false }
    ensures { (text : List ℕ) × Gathers W.contents W.failed W.flushes out.old out.new
        gathered.old.items gathered.new.items result text }
{
    let Some(caveat) = caveat else {
        return Ok(());
    };
    let mut digits = itoa::Buffer::new();
    let number = digits.format(number).as_bytes();
    let sentence = caveat.sentence().as_bytes();
    put_parts(gathered, out, &[number, b": ", sentence, b"\n"])
}
