//! The text to which a step leads.

use crate::text::lines_of;
use mk_tree::Doc;

/// A text in two parts: the new makefile as far as the search has come, and the rest of the old one.
#[derive(Clone, Copy)]
pub(crate) struct Aim<'a> {
    pub front: &'a [u8],
    pub back: &'a [u8],
}

impl<'a> Aim<'a> {
    /// Whether a document has this text.
    pub fn is_text_of(self, doc: &Doc) -> bool {
        let mut rest = self;
        for line in lines_of(doc) {
            match rest.behind(line.bytes()) {
                Some(below) => rest = below,
                None => return false,
            }
        }
        rest.front.is_empty() && rest.back.is_empty()
    }

    // What is left of the text behind some bytes, if it begins with them.
    fn behind(self, text: &[u8]) -> Option<Aim<'a>> {
        if let Some(front) = self.front.strip_prefix(text) {
            return Some(Aim { front, ..self });
        }
        let rest = text.strip_prefix(self.front)?;
        let back = self.back.strip_prefix(rest)?;
        Some(Aim { front: &[], back })
    }
}
