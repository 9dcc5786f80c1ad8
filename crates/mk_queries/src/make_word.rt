//! The first word of a line, as make finds it.

// Whether a byte is a blank for make.
fn is_blank(byte: u8) -> bool {
    matches!(byte, b' ' | b'\t'..=b'\r')
}

// Whether make passes a byte before the first word of a line: a blank, or one of a byte order mark.
fn is_passed(byte: u8) -> bool {
    is_blank(byte) || matches!(byte, 0xef | 0xbb | 0xbf)
}

/// The first word that make finds in a text, or nothing.
pub(crate) fn make_word(text: &[u8]) -> &[u8] {
    let mut words = text;
    while let [first, after @ ..] = words {
        if !is_passed(*first) {
            break;
        }
        words = after;
    }
    match words.iter().position(|byte| is_blank(*byte)) {
        Some(end) => &words[..end],
        None => words,
    }
}
