//! The lines on refused commands.
//!
//! If such a line cannot be written, that is a write fault of the run: its user would not learn of
//! the refusal.
ghost use Rattle.std.specs.Prelude.{◌≡◌, false};
ghost use Rattle.mk_lines.specs.Device.{Writes};
ghost use Rattle.mk_run.specs.Report.{refusal_text, report_line};

use mk_lines::sink::write_parts;
use mk_lines::{ByteSink, Fault};
use mk_session::{Detail, Refusal};

/// Writes the line on a refused command. `line` is the number of its line in the script, from 1.
///
/// # Errors
///
/// [`Fault::Write`] if the sink failed. A prefix of the line is out then.
pub(crate) fn report_refusal<W: ByteSink>(
    out: &mut W,
    line: u64,
    refusal: Refusal,
) -> Result<(), Fault>
    requires { W.failed out.old ≡ false }
    ensures { Writes W.contents W.failed W.flushes out.old out.new result
        (report_line line refusal) }
{
    let mut digits = itoa::Buffer::new();
    write_parts(out, &[digits.format(line).as_bytes(), b": "])?;
    write_refusal(out, refusal)
}

/// Writes what is said of a refusal: `refused`, its number, its name and, where it has one, its count
/// or its field. A line feed ends it.
///
/// # Errors
///
/// [`Fault::Write`] if the sink failed. A prefix of the text is out then.
pub fn write_refusal<W: ByteSink>(out: &mut W, refusal: Refusal) -> Result<(), Fault>
    requires { W.failed out.old ≡ false }
    ensures { Writes W.contents W.failed W.flushes out.old out.new result (refusal_text refusal) }
{
    let mut number_digits = itoa::Buffer::new();
    let mut count_digits = itoa::Buffer::new();
    let number = number_digits.format(refusal.number()).as_bytes();
    let name = refusal.name().as_bytes();
    match refusal.detail() {
        Detail::Count(count) => {
            let count = count_digits.format(count).as_bytes();
            write_parts(out, &[b"refused ", number, b" ", name, b" ", count, b"\n"])
        }
        Detail::Field(field) => {
            let field = field.name().as_bytes();
            write_parts(out, &[b"refused ", number, b" ", name, b" ", field, b"\n"])
        }
        Detail::Nothing => write_parts(out, &[b"refused ", number, b" ", name, b"\n"]),
    }
}
