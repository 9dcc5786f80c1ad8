//! Blanks: a space or a tab, as POSIX.1-2024 make has it.
ghost use Rattle.std.specs.Prelude.{◌≡◌, ◌≤◌, length};
ghost use Rattle.mk_lines.specs.Bytes.{is_blank_byte};
ghost use Rattle.mk_lines.specs.Lists.{after_leading};

/// Whether a byte is a blank.
pub fn is_blank(byte: u8) -> bool
    ensures { result ≡ is_blank_byte byte }
{
    matches!(byte, b' ' | b'\t')
}

/// What follows the blanks at the front of a text.
///
/// It takes time linear in the blanks, and no memory.
pub fn after_blanks(text: &[u8]) -> &[u8]
    ensures rest { result.now ≡ after_leading is_blank_byte text.now }
    ensures within { length result.now ≤ length text.now }
{
    let mut rest = text;
    while let [first, after @ ..] = rest {
        if !is_blank(*first) {
            break;
        }
        rest = after;
    }
    rest
}
