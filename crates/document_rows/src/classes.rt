//! Classes of lines, contexts, and what an edit may write.

use mk_class::{
    Context, Meter, classify, is_command, is_name, is_reserved_word, is_target, is_value, is_word,
};
use mk_lines::Fault;
use mk_lines::source::MAX_TEXT;
use mk_lines::split::split;
use test_support::Case;

/// Whether a text may be a value, a word, a target, a name and a command, and is a reserved word.
pub fn tests_of(case: &Case<'_>, text: &[u8]) -> Result<Vec<u8>, Fault> {
    let tests = [
        is_value(text),
        is_word(text),
        is_target(text),
        is_name(text),
        is_command(text),
        is_reserved_word(text),
    ];
    Ok(format!(in case.alloc; "{tests:?}")?.into_bytes())
}

/// The class of a line at the start of a text, and how many lines are counted.
pub fn class_of(case: &Case<'_>, line: &[u8]) -> Result<Vec<u8>, Fault> {
    let mut meter = Meter::new();
    let (class, _) = classify(case.heap, line, Context::start(), &mut meter)?;
    let count = meter.count();
    Ok(format!(in case.alloc; "{count}: {class:?}")?.into_bytes())
}

/// The context at the end of a text, by its lines in turn.
pub fn context_after(case: &Case<'_>, text: &[u8]) -> Result<Vec<u8>, Fault> {
    let mut context = Context::start();
    for span in &split(case.alloc, text)? {
        let line = text.get(span.start..span.end).unwrap_or_default();
        if (context.defines() as usize) >= MAX_TEXT {
            return Err(Fault::TooLong);
        }
        let (_, next) = classify(case.heap, line, context, &mut Meter::new())?;
        context = next;
    }
    let (conds, defines) = (context.conds(), context.defines());
    let (flag, prefix) = (context.flag(), context.prefix());
    Ok(format!(in case.alloc; "{conds}, {defines}, {flag:?}, {prefix}")?.into_bytes())
}
