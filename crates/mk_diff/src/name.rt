//! The name of a file in a diff.
ghost use Rattle.std.specs.Prelude.{◌≡◌, ◌<◌, ◌++◌, false, IfOk, IsOkUnless};
ghost use Rattle.std.specs.Io.BufRead.{ends_with_byte};
ghost use Rattle.mk_diff.specs.NameTexts.{after_ups, below, dots_after, escaped, has_blank, has_special, is_special, name_text, patch_name};

use crate::text::put;
use mk_escape::octal;
use mk_lines::Fault;
use std::alloc::Allocator;

/// Puts a name behind a text, with `a/` or `b/` before it.
///
/// A name with a byte that is special to `patch` or `git apply`, or with a space at its end, which
/// `patch` would leave off, stands between quotes. Behind another name with a blank stands a tab, where
/// they take the name to end.
///
/// # Errors
///
/// [`Fault::NoMemory`] if the text could not grow.
pub(crate) fn put_name<A: Allocator>(
    text: &mut Vec<u8, A>,
    side: &[u8],
    name: &[u8],
) -> Result<(), Fault>
    ensures bytes { IfOk result (λ _. text.new.items
        ≡ text.old.items ++ name_text side.now name.now) }
    ensures fault { IsOkUnless result Fault.NoMemory }
{
    if has_special(name) || ends_in_blank(name) {
        put(text, b"\"")?;
        put(text, side)?;
        put_escaped(text, name)?;
        return put(text, b"\"");
    }
    put(text, side)?;
    put(text, name)?;
    if has_blank(name) {
        return put(text, b"\t");
    }
    Ok(())
}

// Whether a byte stands between quotes alone, and is written there by its number: a control
// character, a quote or a backslash.
fn is_special(byte: u8) -> bool
    ensures { result ≡ is_special byte }
{
    byte < 32 || byte == b'"' || byte == b'\\' || byte == 127
}

// Whether a name has such a byte.
fn has_special(name: &[u8]) -> bool
    ensures { result ≡ has_special name.now }
{
    for byte in name {
        if is_special(*byte) {
            return true;
        }
    }
    false
}

// Whether a name has a space.
fn has_blank(name: &[u8]) -> bool
    ensures { result ≡ has_blank name.now }
{
    for byte in name {
        if *byte == b' ' {
            return true;
        }
    }
    false
}

// Whether a name ends in a space.
fn ends_in_blank(name: &[u8]) -> bool
    ensures { result ≡ ends_with_byte 32 name.now }
{
    matches!(name, [.., b' '])
}

// Puts a name behind a text, each special byte by its number.
fn put_escaped<A: Allocator>(text: &mut Vec<u8, A>, name: &[u8]) -> Result<(), Fault>
    ensures bytes { IfOk result (λ _. text.new.items ≡ text.old.items ++ escaped name.now) }
    ensures fault { IsOkUnless result Fault.NoMemory }
{
    for byte in name {
        if is_special(*byte) {
            put(text, &octal(*byte))?;
        } else {
            text.push(*byte)?;
        }
    }
    Ok(())
}

// How many dots the name of a folder has so far and nothing else, where it has a byte more; 3 for any other
// name.
fn dots_after(dots: u8, byte: u8) -> u8
    ensures { result ≡ dots_after dots byte }
{
    if byte == b'.' && dots < 3 {
        dots + 1
    } else {
        3
    }
}

// A name behind the last `..` of its folders.
fn after_ups(name: &[u8]) -> &[u8]
    ensures { result.now ≡ after_ups 0 name.now name.now }
{
    let mut kept = name;
    let mut rest = name;
    let mut dots = 0u8;
    'bytes: while !rest.is_empty() {
        let byte = rest[0];
        rest = rest.split_at(1).1;
        if byte != b'/' {
            dots = dots_after(dots, byte);
            continue;
        }
        if dots == 2 {
            kept = rest;
        }
        dots = 0;
    }
    kept
}

// A name without the `/` and `./` before it.
fn below(name: &[u8]) -> &[u8]
    ensures { result.now ≡ below false name.now name.now }
{
    let mut kept = name;
    let mut rest = name;
    let mut is_dot = false;
    'bytes: while !rest.is_empty() {
        let byte = rest[0];
        rest = rest.split_at(1).1;
        if byte == b'/' {
            kept = rest;
            is_dot = false;
        } else if byte == b'.' && !is_dot {
            is_dot = true;
        } else {
            return kept;
        }
    }
    kept
}

/// The name of a file as `patch -p1` and `git apply` take it: from a folder down. Left off is what stands
/// before it: all up to the last `..`, and `/` and `./`. They take it in the folder that this names; that
/// of `/x/m` is `/`, and that of `../m` is `..`.
pub fn patch_name(name: &[u8]) -> &[u8]
    ensures { result.now ≡ patch_name name.now }
{
    below(after_ups(name))
}
