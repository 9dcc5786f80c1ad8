//! Whether a text begins or ends with a blank.
ghost use Rattle.std.specs.Prelude.{◌≡◌};
ghost use Rattle.mk_lines.specs.Bytes.{is_blank_byte};
ghost use Rattle.mk_class.specs.ListTests.{first_passes, last_passes};

use mk_lines::is_blank;

/// Whether the first byte of a text is a blank.
pub fn begins_with_blank(text: &[u8]) -> bool
    ensures { result ≡ first_passes is_blank_byte text.now }
{
    match text {
        [first, ..] => is_blank(*first),
        [] => false,
    }
}

/// Whether the last byte of a text is a blank.
pub fn ends_with_blank(text: &[u8]) -> bool
    ensures { result ≡ last_passes is_blank_byte text.now }
{
    match text {
        [.., last] => is_blank(*last),
        [] => false,
    }
}
