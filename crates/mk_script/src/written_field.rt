//! How a field stands in a line that is written: as it is, or between quotes.
ghost use Rattle.std.specs.Prelude.{◌≡◌, ◌++◌, ◌∷◌, [], OnOk, codes, is_some, map};
ghost use Rattle.std.specs.List.{list_any};
ghost use Rattle.mk_lines.specs.Spacing.{each_after_space};
ghost use Rattle.mk_script.specs.Blocks.{end_word};
ghost use Rattle.mk_script.specs.Fields.{Bare, escaped, quoted};
ghost use Rattle.mk_script.specs.WrittenEdits.{is_plain, is_quoted_byte, needs_quotes, written};
ghost use Rattle.mk_script.specs.WrittenLines.{fields_in};

use crate::field::Field;
use std::alloc::{AllocError, Allocator};

/// Puts fields behind a line, each after a space.
pub(crate) fn push_fields<A: Allocator>(
    line: &mut Vec<u8, A>,
    fields: &[&[u8]],
) -> Result<(), AllocError>
    ensures { OnOk result (line.new.items
        ≡ line.old.items ++ each_after_space (map written (fields_in fields.now))) }
{
    for field in fields {
        push_field(line, field)?;
    }
    Ok(())
}

/// Puts a field behind a line, after a space.
pub(crate) fn push_field<A: Allocator>(
    line: &mut Vec<u8, A>,
    field: &[u8],
) -> Result<(), AllocError>
    ensures { OnOk result (line.new.items ≡ line.old.items ++ (codes " " ++ written field.now)) }
{
    line.extend_from_slice(b" ")?;
    if is_plain(field) {
        line.extend_from_slice(field)
    } else {
        push_quoted(line, field)
    }
}

// Puts a field between quotes behind a line.
fn push_quoted<A: Allocator>(line: &mut Vec<u8, A>, field: &[u8]) -> Result<(), AllocError>
    ensures { OnOk result (line.new.items ≡ line.old.items ++ quoted field.now) }
{
    line.extend_from_slice(b"\"")?;
    for byte in field {
        push_escaped(line, *byte)?;
    }
    line.extend_from_slice(b"\"")?;
    Ok(())
}

// Puts a byte of a field between quotes behind a line: a backslash stands before a quote and before a
// backslash.
fn push_escaped<A: Allocator>(line: &mut Vec<u8, A>, byte: u8) -> Result<(), AllocError>
    ensures { OnOk result (line.new.items ≡ line.old.items ++ escaped (byte ∷ [])) }
{
    if matches!(byte, b'"' | b'\\') {
        line.extend_from_slice(&[b'\\', byte])
    } else {
        line.extend_from_slice(&[byte])
    }
}

// Whether a field can stand as it is.
fn is_plain(field: &[u8]) -> bool
    ensures { result ≡ is_plain field.now }
{
    match field {
        [] => false,
        _ => !needs_quotes(field),
    }
}

// Whether a field has to stand between quotes: a byte of it has to, or it would be the mark of a block.
fn needs_quotes(field: &[u8]) -> bool
    ensures { result ≡ needs_quotes field.now }
{
    has_quoted_byte(field) || is_mark(field)
}

// Whether a field without quotes is `<<` and a word.
fn is_mark(field: &[u8]) -> bool
    ensures { result ≡ is_some (end_word (Bare field.now)) }
{
    Field::bare(field).end_word().is_some()
}

// Whether a byte of a field has to stand between quotes.
fn has_quoted_byte(field: &[u8]) -> bool
    ensures { result ≡ list_any is_quoted_byte field.now }
{
    field.iter().any(|byte| is_quoted_byte(*byte))
}

// Whether a byte has to stand between quotes.
fn is_quoted_byte(byte: u8) -> bool
    ensures { result ≡ is_quoted_byte byte }
{
    matches!(byte, b' ' | b'\t' | b'\r' | b'"')
}
