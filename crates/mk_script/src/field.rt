//! A field of a line.
//!
//! A field is written as it is, if it is not empty, has no blank and does not begin with a quote;
//! or it is written between quotes, with a backslash before each quote and each backslash in it.
//!
//! A quote inside a field that does not begin with one stands for itself, as in `set X a"b`. A field
//! may have the lines of a block below its command.
ghost use Rattle.std.specs.Prelude.{ℕ, ◌≡◌, ◌≤◌, ◌++◌, false, length, IfOk, OnOk, option_map, take};
ghost use Rattle.std.specs.List.{list_all};
ghost use Rattle.mk_script.specs.Blocks.{block_text, is_word, is_word_byte};
ghost use Rattle.mk_script.specs.FieldReading.{IsEscaped, unescaped};
ghost use Rattle.mk_script.specs.Lines.{script_lines};
ghost use Rattle.mk_script.specs.declared.field.Form.TheVariants.{Lines, Quoted};

use crate::lines::{push_lines, word_of_lines};
use std::alloc::{AllocError, Allocator};

/// How a field stands in a script.
#[derive(Clone, Copy)]
pub(crate) enum Form {
    /// In its line, as it is.
    Bare,
    /// In its line between quotes: a backslash stands before each quote and each backslash.
    Quoted,
    /// Below its line: so many lines, with LF between them.
    Lines(u64),
}

/// A field as it stands in its script.
#[derive(Clone, Copy)]
pub(crate) struct Field<'a> {
    /// Its bytes in the line, without the quotes around them; or the script from its first line on.
    written: &'a [u8],
    form: Form,
    ghost escapes: { form ≡ Quoted → IsEscaped written.now },
    ghost enough: { (count : ℕ) → form ≡ Lines count → count ≤ length (script_lines written.now) },
}

impl<'a> Field<'a> {
    ghost use Rattle.mk_script.specs.Blocks.{end_word};
    ghost use Rattle.mk_script.specs.Fields as fields;
    ghost use Rattle.mk_script.specs.SeenFields.{IsWrittenPlain, bytes, field_text, seen};

    /// A field that is written as it is.
    pub(crate) fn bare(written: &'a [u8]) -> Self
        ensures { seen result ≡ fields.Bare written.now }
    {
        Field {
            written,
            form: Form::Bare,
        }
    }

    /// A field that is written between quotes, from what stands between them.
    pub(crate) fn quoted(written: &'a [u8]) -> Self
        requires { IsEscaped written.now }
        ensures { seen result ≡ fields.Quoted (unescaped false written.now) }
    {
        Field {
            written,
            form: Form::Quoted,
        }
    }

    /// The first lines of a script, so many, as a field.
    pub(crate) fn lines(script: &'a [u8], count: u64) -> Self
        requires { count ≤ length (script_lines script.now) }
        ensures { seen result ≡ fields.Quoted (block_text (take count (script_lines script.now))) }
    {
        Field {
            written: script,
            form: Form::Lines(count),
        }
    }

    /// The word of a field that is `<<` and one or more ASCII letters, digits or `_`, and has no quotes.
    pub(crate) fn end_word(self) -> Option<&'a [u8]>
        ensures { option_map bytes result ≡ end_word (seen self.entry) }
    {
        match (self.form, self.written) {
            (Form::Bare, [b'<', b'<', word @ ..]) if is_word(word) => Some(word),
            _ => None,
        }
    }

    /// The field as a word or a number: the bytes of the field, unless some of these are quotes,
    /// backslashes or line feeds, which none has. Then so has what is returned.
    pub(crate) fn written(self) -> &'a [u8]
        ensures { IsWrittenPlain (field_text self.entry) result.now }
    {
        match self.form {
            Form::Bare => self.written,
            Form::Quoted => self.written,
            Form::Lines(count) => word_of_lines(self.written, count),
        }
    }

    /// The bytes of the field.
    pub(crate) fn to_vec<A: Allocator>(self, alloc: A) -> Result<Vec<u8, A>, AllocError>
        ensures { IfOk result (λ text. text.items ≡ field_text self.entry) }
    {
        let mut text = Vec::new(alloc);
        match self.form {
            Form::Bare => text.extend_from_slice(self.written)?,
            Form::Quoted => push_unescaped(&mut text, self.written)?,
            Form::Lines(count) => push_lines(&mut text, self.written, count)?,
        }
        Ok(text)
    }
}

impl Default for Field<'_> {
    fn default() -> Self {
        Field::bare(b"")
    }
}

// Puts the bytes of a field after a text: each byte except the backslashes that escape another
// byte.
fn push_unescaped<A: Allocator>(text: &mut Vec<u8, A>, written: &[u8]) -> Result<(), AllocError>
    ensures { OnOk result (text.new.items ≡ text.old.items ++ unescaped false written.now) }
{
    let mut is_escaped = false;
    for byte in written {
        if is_escaped {
            text.push(*byte)?;
            is_escaped = false;
        } else if *byte == b'\\' {
            is_escaped = true;
        } else {
            text.push(*byte)?;
        }
    }
    Ok(())
}

// Whether a text is one or more ASCII letters, digits or `_`.
fn is_word(text: &[u8]) -> bool
    ensures { result ≡ is_word text.now }
{
    match text {
        [] => false,
        _ => are_word_bytes(text),
    }
}

fn are_word_bytes(text: &[u8]) -> bool
    ensures { result ≡ list_all is_word_byte text.now }
{
    text.iter().all(|byte| is_word_byte(*byte))
}

fn is_word_byte(byte: u8) -> bool
    ensures { result ≡ is_word_byte byte }
{
    matches!(byte, b'a'..=b'z' | b'A'..=b'Z' | b'0'..=b'9' | b'_')
}
