//! What `mkedit explain` says: why a command is refused, and what to do then.
ghost use Rattle.std.specs.Prelude.{◌≡◌, false, true, IfErr, OnOk};

use crate::explanations::explanation;
use mk_edit_language::{Field, Refusal};
use mk_lines::sink::write_parts;
use mk_lines::{ByteSink, Fault};
use std::str::FromStr;

// Each refusal. Where it has a count or a field, this is any.
const REFUSALS: [Refusal; 21] = [
    Refusal::BadArgument(Field::Name),
    Refusal::Reserved,
    Refusal::RecipePrefix,
    Refusal::NoSuch,
    Refusal::Ambiguous(2),
    Refusal::Absent,
    Refusal::Already,
    Refusal::Taken,
    Refusal::SharedRule(2),
    Refusal::Straddles,
    Refusal::OpenValue,
    Refusal::OpenLine,
    Refusal::OpenDefine,
    Refusal::Leans,
    Refusal::TooLong,
    Refusal::NothingToUndo,
    Refusal::NothingToRedo,
    Refusal::GroupOpen,
    Refusal::NoGroup,
    Refusal::NoMemory,
    Refusal::Misread,
];

// Whether the word is the refusal's name, in any case, or its number in decimal digits.
fn is_called(word: &str, refusal: &Refusal) -> bool {
    let mut digits = itoa::Buffer::new();
    word.eq_ignore_ascii_case(refusal.name()) || word == digits.format(refusal.number())
}

/// The refusal that has this name, in any case, or this number. Where it has a count or a field, this is any.
pub fn refusal_of(word: &str) -> Option<Refusal> {
    for refusal in REFUSALS {
        if is_called(word, &refusal) {
            return Some(refusal);
        }
    }
    None
}

/// A refusal that a word of the command line calls.
#[derive(Clone, Copy, Drop)]
pub struct CalledRefusal(pub Refusal);

/// The word calls no refusal.
#[derive(Clone, Copy, Debug, Drop)]
pub struct NoRefusal;

impl FromStr for CalledRefusal {
    type Err = NoRefusal;

    fn from_str(word: &str) -> Result<CalledRefusal, NoRefusal> {
        match refusal_of(word) {
            Some(refusal) => Ok(CalledRefusal(refusal)),
            None => Err(NoRefusal),
        }
    }
}

/// Writes the number and the name of a refusal, and below them why it comes and what to do then. It is
/// flushed once.
///
/// # Errors
///
/// [`Fault::Write`] where a write or the flush answered it, or a write took nothing. A prefix is
/// out then.
pub fn put_explanation<W: ByteSink>(refusal: &Refusal, out: &mut W) -> Result<(), Fault>
    requires { W.failed out.old ≡ false }
    ensures works { OnOk result (W.failed out.new ≡ false) }
    ensures fault { IfErr result (λ fault. (fault ≡ Fault.Write) × (W.failed out.new ≡ true)) }
{
    let mut digits = itoa::Buffer::new();
    let number = digits.format(refusal.number()).as_bytes();
    let name = refusal.name().as_bytes();
    let text = explanation(refusal).as_bytes();
    write_parts(out, &[number, b" ", name, b"\n\n", text])?;
    out.flush()
}
