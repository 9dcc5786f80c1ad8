//! The object on a line of any text.
ghost use Rattle.std.specs.Prelude.{◌≡◌, ◌++◌, IfOk, OnOk, codes};
ghost use Rattle.json.specs.Lex.{tokens};
ghost use Rattle.json.specs.Print.{print};
ghost use Rattle.mk_queries.specs.TextLines.{line_tokens};

use crate::json_format::object::Object;
use std::alloc::{AllocError, Allocator};

/// Puts the line of JSON on a line of any text behind others. The line is *open* if no line feed ends
/// it; the text is handed over without the line feed:
///
/// ```text
/// {"text":"CC = gcc"}
/// {"text":"X = 1","is_open":true}
/// ```
///
/// A text that is not UTF-8 stands as an object that has it in base64.
///
/// # Errors
///
/// [`AllocError`] if a growth was refused.
pub fn push_text_line<A: Allocator + Copy>(
    lines: Vec<u8, A>,
    alloc: A,
    text: &[u8],
    is_open: bool,
) -> Result<Vec<u8, A>, AllocError>
    ensures line { let object = line_tokens text.now is_open in
        IfOk result (λ longer. longer.items ≡ lines.items ++ print object ++ codes "\n") }
    ensures reads_back { let object = line_tokens text.now is_open in
        OnOk result (tokens (print object) ≡ object) }
{
    let mut object = Object::begin(alloc, lines)?;
    object.text("text", text)?;
    if is_open {
        object.flag("is_open")?;
    }
    object.end()
}
