//! Texts as rows have them: printable ASCII, with escapes for the other bytes.
ghost use Rattle.std.specs.Prelude.{◌<◌, ◌≤◌, IfSome, length};

use anyhow::{Context as _, Result, bail};
use std::alloc::{AllocError, Global};
use std::fmt::Write as _;

/// The bytes of a text with escapes: `\\`, `\t`, `\n` and `\r` stand for a backslash, a tab, a line
/// feed and a return, and `\xHH` for the byte with these two hexadecimal digits. `×N` and a blank before
/// a text, up to the next `×`, say that it stands there N times.
///
/// # Errors
///
/// If a backslash begins no escape, `×` has no number, or a growth was refused.
pub fn unescape(alloc: Global, text: &str) -> Result<Vec<u8>> {
    let mut parts = text.split('×');
    let mut bytes = unescape_part(alloc, parts.next().unwrap_or_default())?;
    for part in parts {
        push_repeated(alloc, &mut bytes, part)?;
    }
    Ok(bytes)
}

/// The bytes of texts, by [`unescape`].
///
/// # Errors
///
/// As those of [`unescape`].
pub fn unescape_all(alloc: Global, texts: &[&str]) -> Result<Vec<Vec<u8>>> {
    let mut all = Vec::new(alloc);
    for text in texts {
        all.push(unescape(alloc, text)?)?;
    }
    Ok(all)
}

/// Pushes the bytes of a text that stands after its number and a blank, so many times.
fn push_repeated(alloc: Global, bytes: &mut Vec<u8>, part: &str) -> Result<()> {
    let Some((count, text)) = part.split_once(' ') else {
        bail!("no text to be repeated: {part}");
    };
    let count = count.parse::<usize>().context("no number of times")?;
    let text = unescape_part(alloc, text)?;
    if let [byte] = text.as_slice() {
        bytes.extend_from_slice(&Vec::from_elem(alloc, *byte, count)?)?;
        return Ok(());
    }
    for _ in 0..count {
        bytes.extend_from_slice(&text)?;
    }
    Ok(())
}

/// The bytes of a text in which nothing is repeated.
fn unescape_part(alloc: Global, text: &str) -> Result<Vec<u8>> {
    let mut bytes = Vec::new(alloc);
    let mut rest = text.as_bytes();
    'bytes: while let [first, after @ ..] = rest {
        if *first != b'\\' {
            bytes.push(*first)?;
            rest = after;
            continue;
        }
        let Some((byte, after)) = read_escape(after) else {
            bail!("a backslash that begins no escape");
        };
        bytes.push(byte)?;
        rest = after;
    }
    Ok(bytes)
}

/// The byte of the escape whose backslash stands before a text, and what follows it.
fn read_escape(text: &[u8]) -> Option<(u8, &[u8])>
    ensures { IfSome result (λ found. length found.1.now ≤ length text.now) }
{
    match text {
        [b'\\', after @ ..] => Some((b'\\', after)),
        [b't', after @ ..] => Some((b'\t', after)),
        [b'n', after @ ..] => Some((b'\n', after)),
        [b'r', after @ ..] => Some((b'\r', after)),
        [b'x', high, low, after @ ..] => Some((hex_digit(*high)? * 16 + hex_digit(*low)?, after)),
        _ => None,
    }
}

/// The number of a hexadecimal digit in lower case.
fn hex_digit(digit: u8) -> Option<u8>
    ensures { IfSome result (λ number. number < 16) }
{
    match digit {
        b'0'..=b'9' => Some(digit - b'0'),
        b'a'..=b'f' => Some(digit - b'a' + 10),
        _ => None,
    }
}

/// A text with escapes that stands for these bytes.
///
/// # Errors
///
/// If a growth was refused.
pub fn escape(alloc: Global, bytes: &[u8]) -> Result<String, AllocError> {
    let mut text = String::new(alloc);
    for byte in bytes {
        match *byte {
            b'\\' => text.push_str("\\\\")?,
            b'\t' => text.push_str("\\t")?,
            b'\n' => text.push_str("\\n")?,
            b'\r' => text.push_str("\\r")?,
            b' '..=b'~' => text.push(char::from(*byte))?,
            _ => write!(text, "\\x{byte:02x}")?,
        }
    }
    Ok(text)
}

/// The number that a text writes; 0 if it writes none.
pub fn number(text: &[u8]) -> u64 {
    match std::str::from_utf8(text) {
        Ok(digits) => digits.parse::<u64>().unwrap_or(0),
        Err(_) => 0,
    }
}

/// Some texts one after the other.
///
/// # Errors
///
/// If a growth was refused.
pub fn joined(alloc: Global, texts: &[&[u8]]) -> Result<Vec<u8>, AllocError> {
    let mut whole = Vec::new(alloc);
    for text in texts {
        whole.extend_from_slice(text)?;
    }
    Ok(whole)
}
