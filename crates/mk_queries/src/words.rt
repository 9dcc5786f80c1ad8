//! Words on their way to a sink, with spaces.
ghost use Rattle.std.specs.Prelude.{◌≡◌, ◌++◌, codes, false};
ghost use Rattle.mk_lines.specs.Spacing.{each_after_space, spaced_words};
ghost use Rattle.mk_tree.specs.Printing.{Gathers};
ghost use Rattle.mk_queries.specs.Texts.{targets_text};

use crate::gathering::put_parts;
use mk_class::Separator;
use mk_lines::Fault;
use mk_lines::sink::ByteSink;
use mk_tree::WordTexts;
use mk_tree::gathering::{Gathered, put};

/// Puts words, each with a space before it.
///
/// # Errors
///
/// The errors of [`put`].
pub(crate) fn put_words<W: ByteSink>(
    gathered: &mut Gathered,
    out: &mut W,
    words: WordTexts<'_>,
) -> Result<(), Fault>
    requires { W.failed out.old ≡ false }
    ensures { Gathers W.contents W.failed W.flushes out.old out.new gathered.old.items
        gathered.new.items result (each_after_space words.entry) }
{
    'words: for word in words {
        put_parts(gathered, out, &[b" ", word])?;
    }
    Ok(())
}

/// Puts a space, and words with one space between them.
///
/// # Errors
///
/// The errors of [`put`].
pub(crate) fn put_spaced<W: ByteSink>(
    gathered: &mut Gathered,
    out: &mut W,
    words: WordTexts<'_>,
) -> Result<(), Fault>
    requires { W.failed out.old ≡ false }
    ensures { Gathers W.contents W.failed W.flushes out.old out.new gathered.old.items
        gathered.new.items result (codes " " ++ spaced_words words.entry) }
{
    let mut others = words;
    let Some(first) = others.next() else {
        return put(gathered, out, b" ");
    };
    put_parts(gathered, out, &[b" ", first])?;
    put_words(gathered, out, others)
}

/// Puts targets as [`put_spaced`] does, and the separator behind them.
///
/// # Errors
///
/// The errors of [`put`].
pub(crate) fn put_targets<W: ByteSink>(
    gathered: &mut Gathered,
    out: &mut W,
    targets: WordTexts<'_>,
    separator: Separator,
) -> Result<(), Fault>
    requires { W.failed out.old ≡ false }
    ensures { Gathers W.contents W.failed W.flushes out.old out.new gathered.old.items
        gathered.new.items result (targets_text targets.entry separator) }
{
    put_spaced(gathered, out, targets)?;
    put(gathered, out, separator.text().as_bytes())
}
