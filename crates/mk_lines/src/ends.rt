//! How a line ends, and whether the next one continues it.
ghost use Rattle.std.specs.Prelude.{◌≡◌, ◌==◌};
ghost use Rattle.std.specs.List.{suffix_len};
ghost use Rattle.mk_lines.specs.PhysicalLines.{ends_with_carriage_return, file_line_end, line_end, without_line_end};
ghost use Rattle.mk_lines.specs.LogicalLines.{ends_with_odd_run, is_continued, is_open};

use memchr::memchr;

/// The line end of a line: the bytes that separate it from the next.
///
/// GNU make reads LF alone; that a CR directly before it belongs to the line end is this project's
/// profile.
#[derive(Clone, Copy, Debug, PartialEq, Eq)]
pub enum End {
    /// The line has no line feed: it is the last of its text.
    None,
    /// A line feed, with no carriage return before it.
    Lf,
    /// A carriage return and a line feed.
    CrLf,
}

/// How a line, physical or logical, ends. Takes no memory.
pub fn line_end(line: &[u8]) -> End
    ensures { result ≡ line_end line.now }
{
    match line {
        [.., b'\r', b'\n'] => End::CrLf,
        [.., b'\n'] => End::Lf,
        _ => End::None,
    }
}

/// The text of a line before its line end. Takes no memory.
pub fn without_line_end(line: &[u8]) -> &[u8]
    ensures { result.now ≡ without_line_end line.now }
{
    match line {
        [text @ .., b'\r', b'\n'] => text,
        [text @ .., b'\n'] => text,
        _ => line,
    }
}

/// The line end of a text's new lines: that of its first physical line, or LF if that line has
/// none. Takes no memory.
///
/// It reads up to the first LF, so the first logical line of a text is enough to tell it
/// ([`laws::file_ends_as_its_first_line`](crate::laws::file_ends_as_its_first_line)). That new
/// lines of a file end as its first line does is this project's profile.
pub fn file_line_end(text: &[u8]) -> End
    ensures { result ≡ file_line_end text.now }
{
    match memchr(b'\n', text) {
        Some(feed) => line_end(&text[..feed + 1]),
        None => End::Lf,
    }
}

// Whether a text ends with a run of backslashes of odd length.
fn ends_with_odd_run(text: &[u8]) -> bool
    ensures { result ≡ ends_with_odd_run text.now }
{
    // Most texts end without a backslash, and nothing is counted then.
    match text {
        [.., b'\\'] => backslashes_after(text) % 2 == 1,
        _ => false,
    }
}

// How many backslashes a text ends with.
fn backslashes_after(text: &[u8]) -> usize
    ensures { result ≡ suffix_len (λ b. b == 92) text.now }
{
    text.iter().rev().take_while(|byte| **byte == b'\\').count()
}

/// Whether the next physical line, if there is one, continues this one: the text of this line
/// before its line end closes with a run of backslashes of odd length. Takes no memory.
///
/// POSIX.1-2024 make, Makefile Syntax ("an escaped newline"); GNU make manual, "Splitting Long
/// Lines". That a backslash before a backslash escapes it is what GNU make does.
pub fn is_continued(line: &[u8]) -> bool
    ensures { result ≡ is_continued line.now }
{
    ends_with_odd_run(without_line_end(line))
}

/// Whether a text put after this line, the last of its text, could become a part of it: the line is
/// continued, or it has no line end and its last byte is a CR. Takes no memory.
///
/// This project's profile: no line is added after such a line.
pub fn is_open(line: &[u8]) -> bool
    ensures { result ≡ is_open line.now }
{
    is_continued(line) || (line_end(line) == End::None && ends_with_carriage_return(line))
}

fn ends_with_carriage_return(text: &[u8]) -> bool
    ensures { result ≡ ends_with_carriage_return text.now }
{
    matches!(text, [.., b'\r'])
}
