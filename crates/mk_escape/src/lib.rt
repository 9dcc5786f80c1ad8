//! Control characters as printable text, so that a terminal does not obey them.
//!
//! A makefile, or the name of a file, may have bytes that a terminal takes for commands: they move the
//! cursor, wipe the screen, or turn the direction of a line. [`write_escaped`] and [`escaped`] show each
//! byte of such a character as a backslash and three octal digits, as `ls` does: `\033`. All other bytes
//! stay as they are. [`TextSink`] is a text in memory, which is written to.
//!
//! Control characters are those of C0 (the bytes below the space) and DEL; those of C1, in UTF-8 and as
//! bytes of their own; and the bidirectional controls of Unicode (U+061C, U+200E, U+200F, U+202A to
//! U+202E, U+2066 to U+2069). This project's profile.
#![tactic(auto)]

ghost use Rattle.std.specs.Prelude.{◌≡◌, ◌++◌, false, IfOk};
ghost use Rattle.mk_lines.specs.Device.{Writes};
ghost use Rattle.mk_escape.specs.Escapes.{begins_control, byte_shown, control_after, escaped, goes_on, is_control, is_control_pair, is_control_triple, left_after, more_bytes, octal, second, shown_text, third};

mod text;

use mk_lines::sink::write_all;
use mk_lines::{ByteSink, Fault};
use std::alloc::{AllocError, Allocator, Global};
pub use text::TextSink;

/// Whether the tab and the line feed, which lay out a text of lines, are escaped too.
#[derive(Clone, Copy, Debug, PartialEq, Eq)]
pub enum Layout {
    /// They stay, as in a text of lines.
    Kept,
    /// They are escaped, as in the name of a file.
    Escaped,
}

// The second byte of a text, or 0.
fn second(text: &[u8]) -> u8
    ensures { result ≡ second text.now }
{
    match text {
        [_, byte, ..] => *byte,
        _ => 0,
    }
}

// The third byte of a text, or 0.
fn third(text: &[u8]) -> u8
    ensures { result ≡ third text.now }
{
    match text {
        [_, _, byte, ..] => *byte,
        _ => 0,
    }
}

// Whether a byte goes on with a character of several bytes.
fn goes_on(byte: u8) -> bool
    ensures { result ≡ goes_on byte }
{
    matches!(byte, 0x80..=0xBF)
}

// How many bytes go on with a character in UTF-8, by its first two bytes.
fn more_bytes(first: u8, second: u8) -> u8
    ensures { result ≡ more_bytes first second }
{
    match first {
        0xC2..=0xDF => 1,
        0xE0 if second < 0xA0 => 0,
        0xE0..=0xEF => 2,
        0xF0 if second < 0x90 => 0,
        0xF0..=0xF4 => 3,
        _ => 0,
    }
}

// Whether a byte is a control character by itself.
fn is_control(layout: Layout, byte: u8) -> bool
    ensures { result ≡ is_control layout byte }
{
    match layout {
        Layout::Kept => !matches!(byte, b'\t' | b'\n') && matches!(byte, 0..=0x1F | 0x7F..=0x9F),
        Layout::Escaped => matches!(byte, 0..=0x1F | 0x7F..=0x9F),
    }
}

// Whether two bytes are a control character.
fn is_control_pair(first: u8, second: u8) -> bool
    ensures { result ≡ is_control_pair first second }
{
    matches!((first, second), (0xC2, 0x80..=0x9F) | (0xD8, 0x9C))
}

// Whether three bytes are a control character.
fn is_control_triple(first: u8, second: u8, third: u8) -> bool
    ensures { result ≡ is_control_triple first second third }
{
    match (first, second) {
        (0xE2, 0x80) => matches!(third, 0x8E | 0x8F | 0xAA..=0xAE),
        (0xE2, 0x81) => matches!(third, 0xA6..=0xA9),
        _ => false,
    }
}

// Whether a control character stands at the front of a text, whose first byte is this.
fn begins_control(layout: Layout, byte: u8, text: &[u8]) -> bool
    ensures { result ≡ begins_control layout byte text.now }
{
    is_control(layout, byte)
        || is_control_pair(byte, second(text))
        || is_control_triple(byte, second(text), third(text))
}

// How many bytes may go on with the character of a byte: of the one before it, with which `left` bytes may
// go on, or of one that begins here.
fn left_after(left: u8, byte: u8, second: u8) -> u8
    ensures { result ≡ left_after left byte second }
{
    if left > 0 && goes_on(byte) {
        left - 1
    } else {
        more_bytes(byte, second)
    }
}

// Whether a byte is of a control character: of the one before it, or of one that begins here.
fn control_after(layout: Layout, left: u8, is_control: bool, byte: u8, text: &[u8]) -> bool
    ensures { result ≡ control_after layout left is_control byte text.now }
{
    if left > 0 && goes_on(byte) {
        is_control
    } else {
        begins_control(layout, byte, text)
    }
}

/// A backslash, and the number of a byte in three octal digits: `\033`.
pub fn octal(byte: u8) -> [u8; 4]
    ensures { result ≡ octal byte }
{
    [
        b'\\',
        b'0' + byte / 64,
        b'0' + byte / 8 % 8,
        b'0' + byte % 8,
    ]
}

// Writes a byte, or its escape.
fn write_byte<W: ByteSink>(out: &mut W, byte: u8, is_control: bool) -> Result<(), Fault>
    requires { W.failed out.old ≡ false }
    ensures { Writes W.contents W.failed W.flushes out.old out.new result
        (byte_shown is_control byte) }
{
    if is_control {
        write_all(out, &octal(byte))
    } else {
        write_all(out, &[byte])
    }
}

/// Writes a text, its control characters escaped. Nothing is flushed.
///
/// # Errors
///
/// [`Fault::Write`] if a write answered it or took no byte. A prefix of what was to be written is out
/// then.
pub fn write_escaped<W: ByteSink>(out: &mut W, text: &[u8], layout: Layout) -> Result<(), Fault>
    requires { W.failed out.old ≡ false }
    ensures { Writes W.contents W.failed W.flushes out.old out.new result (escaped layout text.now) }
{
    let mut rest = text;
    let mut left = 0u8;
    let mut is_control = false;
    'bytes: while !rest.is_empty() {
        let byte = rest[0];
        is_control = control_after(layout, left, is_control, byte, rest);
        left = left_after(left, byte, second(rest));
        write_byte(out, byte, is_control)?;
        rest = rest.split_at(1).1;
    }
    Ok(())
}

/// Writes the name of a file, its control characters escaped, between two texts. Nothing is flushed.
///
/// # Errors
///
/// [`Fault::Write`] if a write answered it or took no byte. A prefix of what was to be written is out
/// then.
pub fn write_name<W: ByteSink>(
    out: &mut W,
    before: &[u8],
    name: &[u8],
    after: &[u8],
) -> Result<(), Fault>
    requires { W.failed out.old ≡ false }
    ensures { Writes W.contents W.failed W.flushes out.old out.new result
        (before.now ++ (escaped Layout.Escaped name.now ++ after.now)) }
{
    write_all(out, before)?;
    write_escaped(out, name, Layout::Escaped)?;
    write_all(out, after)
}

/// A text, its control characters escaped.
///
/// # Errors
///
/// [`AllocError`] if memory runs out.
pub fn escaped<A: Allocator>(
    alloc: A,
    text: &[u8],
    layout: Layout,
) -> Result<Vec<u8, A>, AllocError>
    ensures { IfOk result (λ shown. shown.items ≡ escaped layout text.now) }
{
    let mut shown = TextSink::new(alloc);
    match write_escaped(&mut shown, text, layout) {
        Ok(()) => Ok(shown.text),
        Err(_) => Err(AllocError),
    }
}

/// The name of a file as notes show it: its control characters are escaped.
///
/// # Errors
///
/// [`AllocError`] if memory runs out.
pub fn shown_name(alloc: Global, name: &str) -> Result<String, AllocError> {
    match String::from_utf8(escaped(alloc, name.as_bytes(), Layout::Escaped)?) {
        Ok(name) => Ok(name),
        // Escapes are ASCII, and take the place of whole characters.
        Err(_) => Err(AllocError),
    }
}

/// A text of lines as it is shown: with its control characters escaped at a terminal, and as it is
/// elsewhere.
///
/// # Errors
///
/// [`AllocError`] if memory runs out.
pub fn shown_text<A: Allocator>(
    alloc: A,
    text: Vec<u8, A>,
    is_terminal: bool,
) -> Result<Vec<u8, A>, AllocError>
    ensures { IfOk result (λ shown. shown.items ≡ shown_text is_terminal text.items) }
{
    if is_terminal {
        escaped(alloc, &text, Layout::Kept)
    } else {
        Ok(text)
    }
}
