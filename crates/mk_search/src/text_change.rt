//! The texts in which two others differ, and the edits that put one in the place of the other.

use crate::aim::Aim;
use crate::bench::Bench;
use crate::fault::DeriveError;
use crate::step::stretches;
use crate::text::{after, part};
use mk_edit_language::Edit;
use mk_lines::Fault;
use std::alloc::{AllocError, Global};

// The most changes of one text: of a text with more of them all is said.
const MOST_CHANGES: usize = 2;
// The most tokens between the first change and the last for which there is more than one.
const MOST_TOKENS: usize = 400;
// The most bytes between the first change and the last for which one edit is tried before several.
const SHORT: usize = 60;
// The fewest bytes of a text that is looked for without what stands around it.
const FEWEST: usize = 3;
// The fewest bytes of a text that is looked for in all values, or in all recipes.
const FEWEST_OF_ALL: usize = 5;
// The most bytes of a text that is looked for, or comes.
const LONGEST: usize = 4096;
// How many words before a change and behind it, in its line, are looked for together with the rest of its own
// words; at first the change alone.
const AROUND: [Option<usize>; 5] = [None, Some(0), Some(1), Some(3), Some(usize::MAX)];

/// Where a text goes into the place of another.
#[derive(Clone, Copy)]
pub(crate) enum Carrier<'a> {
    /// The value of the variable of this name.
    Value(&'a [u8]),
    /// Each value of the variable of this name.
    EachValue(&'a [u8]),
    /// All values.
    Values,
    /// The recipes of the rules for this target.
    Recipe(&'a [u8]),
    /// All recipes.
    Recipes,
}

impl<'a> Carrier<'a> {
    /// The edit that puts a text in the place of another here; `None` if the text says too little or is too
    /// long, or would be found there again.
    pub fn edit(self, alloc: Global, from: &[u8], to: &[u8]) -> Result<Option<Edit>, AllocError> {
        if from.is_empty() || from.len().max(to.len()) > LONGEST || !self.is_clear(from, to) {
            return Ok(None);
        }
        Ok(Some(self.substitute(alloc, from, to)?))
    }

    // Whether a text says enough to go into the place of another here.
    fn is_clear(self, from: &[u8], to: &[u8]) -> bool {
        match self {
            Carrier::Values | Carrier::Recipes => says(from, FEWEST_OF_ALL),
            _ => !contains(to, from),
        }
    }

    // The edit that puts a text in the place of another here.
    fn substitute(self, alloc: Global, from: &[u8], to: &[u8]) -> Result<Edit, AllocError> {
        match self {
            Carrier::Value(name) => Edit::substitute(alloc, name, from, to),
            Carrier::EachValue(name) => Edit::all_substitute(alloc, name, from, to),
            Carrier::Values => Edit::values_substitute(alloc, from, to),
            Carrier::Recipe(target) => Edit::recipe_substitute(alloc, target, from, to),
            Carrier::Recipes => Edit::recipes_substitute(alloc, from, to),
        }
    }
}

/// A change of a text: what goes, what comes, and what stands before and behind it.
#[derive(Clone, Copy)]
pub(crate) struct TextChange<'a> {
    pub before: &'a [u8],
    pub old: &'a [u8],
    pub new: &'a [u8],
    pub after: &'a [u8],
}

impl<'a> TextChange<'a> {
    /// The edit that makes the change together with some words around it, as `AROUND` has them; `None` if the
    /// text says too little.
    pub fn edit(
        self,
        alloc: Global,
        carrier: Carrier<'_>,
        around: Option<usize>,
    ) -> Result<Option<Edit>, AllocError> {
        let Some(words) = around else {
            if !says(self.old, FEWEST) {
                return Ok(None);
            }
            return carrier.edit(alloc, self.old, self.new);
        };
        let before = words_end(self.before, words).trim_ascii_start();
        let after = words_front(self.after, words).trim_ascii_end();
        let from = joined(alloc, before, self.old, after)?;
        let to = joined(alloc, before, self.new, after)?;
        carrier.edit(alloc, from.as_slice(), to.as_slice())
    }
}

/// Tries to make one text of another where it is carried: by one change, or by some.
pub(crate) fn tries_texts(
    bench: &mut Bench,
    carrier: Carrier<'_>,
    old: &[u8],
    new: &[u8],
    aim: Aim<'_>,
) -> Result<bool, DeriveError> {
    let whole = [one_change(bench.alloc(), old, new)?];
    let changes = changes_of(bench.alloc(), old, new)?;
    let is_short = whole[0].old.len() <= SHORT;
    if is_short && tries_changes(bench, carrier, &whole, aim)? {
        return Ok(true);
    }
    if changes.len() > MOST_CHANGES {
        return Ok(false);
    }
    if changes.len() > 1 && tries_changes(bench, carrier, changes.as_slice(), aim)? {
        return Ok(true);
    }
    Ok(!is_short && tries_changes(bench, carrier, &whole, aim)?)
}

// Tries some changes of one text, with more and more of what stands around them.
fn tries_changes(
    bench: &mut Bench,
    carrier: Carrier<'_>,
    changes: &[TextChange<'_>],
    aim: Aim<'_>,
) -> Result<bool, DeriveError> {
    for around in AROUND {
        let edits = edits_of(bench.alloc(), carrier, changes, around)?;
        if !edits.is_empty() && bench.tries_all(edits.as_slice(), aim)? {
            return Ok(true);
        }
    }
    Ok(false)
}

// The edits of some changes, each of them once; none if the text of one of them says too little.
fn edits_of(
    alloc: Global,
    carrier: Carrier<'_>,
    changes: &[TextChange<'_>],
    around: Option<usize>,
) -> Result<Vec<Edit>, AllocError> {
    let mut edits = Vec::new(alloc);
    for change in changes {
        let Some(edit) = change.edit(alloc, carrier, around)? else {
            return Ok(Vec::new(alloc));
        };
        if !edits.as_slice().contains(&edit) {
            edits.push(edit)?;
        }
    }
    Ok(edits)
}

// The change from one text to another, from the first token in which they differ to the last.
fn one_change<'a>(
    alloc: Global,
    old: &'a [u8],
    new: &'a [u8],
) -> Result<TextChange<'a>, AllocError> {
    let front = same_front(alloc, old, new)?;
    let end = same_end(alloc, after(old, front), after(new, front))?;
    let from = (front, old.len().saturating_sub(end));
    let to = (front, new.len().saturating_sub(end));
    Ok(change_at(old, new, from, to))
}

// How many bytes the tokens have that two texts have in common at their front.
fn same_front(alloc: Global, old: &[u8], new: &[u8]) -> Result<usize, AllocError> {
    let old = tokens(alloc, old)?;
    let new = tokens(alloc, new)?;
    let mut same = 0usize;
    for (token, other) in old.iter().zip(new.iter()) {
        if *token != *other {
            break;
        }
        same = same.saturating_add(token.len());
    }
    Ok(same)
}

// How many bytes the tokens have that two texts have in common at their end.
fn same_end(alloc: Global, old: &[u8], new: &[u8]) -> Result<usize, AllocError> {
    let old = tokens(alloc, old)?;
    let new = tokens(alloc, new)?;
    let mut same = 0usize;
    for (token, other) in old.iter().rev().zip(new.iter().rev()) {
        if *token != *other {
            break;
        }
        same = same.saturating_add(token.len());
    }
    Ok(same)
}

/// The changes from one text to another, those of tokens: one, if nothing goes or comes between the first and
/// the last of them, or if there is much between them.
pub(crate) fn changes_of<'a>(
    alloc: Global,
    old: &'a [u8],
    new: &'a [u8],
) -> Result<Vec<TextChange<'a>>, Fault> {
    let whole = one_change(alloc, old, new)?;
    let old_tokens = tokens(alloc, whole.old)?;
    let new_tokens = tokens(alloc, whole.new)?;
    let mut changes = Vec::new(alloc);
    if is_one(old_tokens.len(), new_tokens.len()) {
        changes.push(whole)?;
        return Ok(changes);
    }
    for stretch in &stretches(alloc, old_tokens.as_slice(), new_tokens.as_slice())? {
        let front = whole.before.len();
        let from = range_of(&old_tokens, front, stretch.old_start, stretch.old_end);
        let to = range_of(&new_tokens, front, stretch.new_start, stretch.new_end);
        changes.push(change_at(old, new, from, to))?;
    }
    Ok(changes)
}

// Whether a change of so many tokens to so many is one: one of the texts has one token at most, or the other
// has many.
fn is_one(old: usize, new: usize) -> bool {
    old.min(new) < 2 || old.max(new) > MOST_TOKENS
}

// From which byte to which some tokens stand, of which the first begins at an index.
fn range_of(tokens: &[&[u8]], first: usize, start: usize, end: usize) -> (usize, usize) {
    let start = first.saturating_add(length_of(tokens, start));
    let end = first.saturating_add(length_of(tokens, end));
    (start, end)
}

/// How many bytes go and come from the first token in which two texts differ to the last.
pub(crate) fn distance(alloc: Global, old: &[u8], new: &[u8]) -> Result<usize, AllocError> {
    let change = one_change(alloc, old, new)?;
    Ok(change.old.len().saturating_add(change.new.len()))
}

// The change of a part of one text to a part of another.
fn change_at<'a>(
    old: &'a [u8],
    new: &'a [u8],
    from: (usize, usize),
    to: (usize, usize),
) -> TextChange<'a> {
    TextChange {
        before: part(old, 0, from.0),
        old: part(old, from.0, from.1),
        new: part(new, to.0, to.1),
        after: after(old, from.1),
    }
}

// How many bytes the first tokens have.
fn length_of(tokens: &[&[u8]], count: usize) -> usize {
    let mut length = 0usize;
    for token in tokens.iter().take(count) {
        length = length.saturating_add(token.len());
    }
    length
}

// The tokens of a text: references to variables, runs of letters, digits and `_`, and each other byte.
fn tokens(alloc: Global, text: &[u8]) -> Result<Vec<&[u8]>, AllocError> {
    let mut tokens = Vec::new(alloc);
    let mut rest = text;
    for _ in 0..text.len() {
        let Some((token, below)) = rest.split_at_checked(token_length(rest)) else {
            break;
        };
        tokens.push(token)?;
        rest = below;
    }
    Ok(tokens)
}

// How many bytes the first token of a text has.
fn token_length(text: &[u8]) -> usize {
    if let [b'$', b'(' | b'{', named @ ..] = text {
        let name = word_length(named);
        if let [b')' | b'}', ..] = after(named, name) {
            return name.saturating_add(3);
        }
    }
    word_length(text).max(1)
}

/// How many letters, digits and `_` a text begins with.
pub(crate) fn word_length(text: &[u8]) -> usize {
    let mut length = 0usize;
    for byte in text {
        if !is_word_byte(*byte) {
            break;
        }
        length = length.saturating_add(1);
    }
    length
}

// Whether a byte is a letter, a digit or `_`.
fn is_word_byte(byte: u8) -> bool {
    byte.is_ascii_alphanumeric() || byte == b'_'
}

// Whether a text has this many bytes, and a letter, a digit or `_` among them.
fn says(text: &[u8], fewest: usize) -> bool {
    if text.len() < fewest {
        return false;
    }
    for byte in text {
        if is_word_byte(*byte) {
            return true;
        }
    }
    false
}

// Whether a text has another one in it.
fn contains(text: &[u8], part: &[u8]) -> bool {
    let mut rest = text;
    for _ in 0..text.len() {
        if rest.starts_with(part) {
            return true;
        }
        rest = after(rest, 1);
    }
    false
}

// Counts words of a text from one end of it, as far as its line goes; the first may be a part of a word.
#[derive(Clone, Copy)]
struct WordCount {
    left: usize,
    is_in_blank: bool,
}

impl WordCount {
    // This many words more.
    fn of(words: usize) -> WordCount {
        WordCount {
            left: words,
            is_in_blank: false,
        }
    }

    // Whether a byte is part of the words that are left.
    fn takes(&mut self, byte: u8) -> bool {
        if byte == b'\n' {
            return false;
        }
        let is_blank = matches!(byte, b' ' | b'\t' | b'\r');
        if is_blank && !self.is_in_blank {
            let Some(fewer) = self.left.checked_sub(1) else {
                return false;
            };
            self.left = fewer;
        }
        self.is_in_blank = is_blank;
        true
    }
}

// What a text begins with up to the blank behind this many words more.
fn words_front(text: &[u8], words: usize) -> &[u8] {
    let mut count = WordCount::of(words);
    let mut length = 0usize;
    for byte in text {
        if !count.takes(*byte) {
            break;
        }
        length = length.saturating_add(1);
    }
    part(text, 0, length)
}

// What a text ends with behind the blank before this many words more.
fn words_end(text: &[u8], words: usize) -> &[u8] {
    let mut count = WordCount::of(words);
    let mut start = text.len();
    for byte in text.iter().rev() {
        if !count.takes(*byte) {
            break;
        }
        start = start.saturating_sub(1);
    }
    after(text, start)
}

// Three texts in a row.
fn joined(alloc: Global, before: &[u8], text: &[u8], after: &[u8]) -> Result<Vec<u8>, AllocError> {
    let mut whole = Vec::from_slice(alloc, before)?;
    whole.extend_from_slice(text)?;
    whole.extend_from_slice(after)?;
    Ok(whole)
}
