//! A text that goes into a buffer of the caller.
ghost use Rattle.std.specs.Prelude.{◌≡◌, ◌<◌, false, length, true};
ghost use Rattle.std.specs.Bool.{Decides};
ghost use Rattle.mk_lines.specs.Limits.{max_text};
ghost use Rattle.mkedit_c.specs.Answers.{IsPut};

use mk_lines::source::MAX_TEXT;

/// Whether a text is past the limit.
pub(crate) fn is_long(text: &[u8]) -> bool
    ensures { Decides result (max_text < length text.now) }
{
    text.len() > MAX_TEXT
}

/// Puts a text at the front of a buffer, and answers whether there was room; if not, nothing is written.
pub(crate) fn put(out: &mut [u8], text: &[u8]) -> bool
    ensures put { result ≡ true → IsPut out.old out.new text.now }
    ensures kept { result ≡ false → out.new ≡ out.old }
    ensures room { result ≡ false → length out.old < length text.now }
{
    if out.len() < text.len() {
        return false;
    }
    out[..text.len()].copy_from_slice(text);
    true
}
