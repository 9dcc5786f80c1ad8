//! Parts of a text, by their offsets.
ghost use Rattle.std.specs.Prelude.{◌≡◌, slice_range};

/// The bytes of a text from an offset up to another, as far as the text has them: none if the first
/// offset is above the other.
pub(crate) fn clip(text: &[u8], start: usize, end: usize) -> &[u8]
    ensures { result.now ≡ slice_range text.now start end }
{
    text.get(start..end.min(text.len())).unwrap_or(&[])
}
