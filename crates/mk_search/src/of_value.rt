//! Commands for one assignment that becomes another one of the same variable.

use crate::aim::Aim;
use crate::bench::Bench;
use crate::fault::DeriveError;
use crate::step::{Step, stretches};
use crate::text_change::{Carrier, tries_texts};
use mk_edit_language::Edit;
use mk_lines::Fault;
use mk_tree::{AssignmentRef, WordTexts};
use std::alloc::{AllocError, Global};

// The most edits that change words of one value.
const MOST_EDITS: usize = 4;
// The most bytes of a word that is replaced as a whole before a text in it is tried.
const SHORT_WORD: usize = 40;

/// Tries to make one assignment of another.
pub(crate) fn tries_value(
    bench: &mut Bench,
    old: &AssignmentRef<'_>,
    new: &AssignmentRef<'_>,
    aim: Aim<'_>,
) -> Result<bool, DeriveError> {
    if old.name() != new.name() {
        return Ok(false);
    }
    if old.flavor() != new.flavor() {
        return bench.tries(Edit::operator(bench.alloc(), old.name(), new.flavor()), aim);
    }
    let (name, old, new) = (old.name(), old.value(), new.value());
    if tries_parts(bench, name, false, old, new, aim)?
        || (bench.is_unclear() && tries_parts(bench, name, true, old, new, aim)?)
    {
        return Ok(true);
    }
    bench.tries(Edit::set_if(bench.alloc(), name, old, new), aim)
}

// Tries to change the words of a value, or texts in it. `is_each` says whether it is one of several of the
// variable, of which the edits find it by what it has.
fn tries_parts<'x>(
    bench: &mut Bench,
    name: &'x [u8],
    is_each: bool,
    old: &'x [u8],
    new: &'x [u8],
    aim: Aim<'_>,
) -> Result<bool, DeriveError> {
    let carrier = if is_each {
        Carrier::EachValue(name)
    } else {
        Carrier::Value(name)
    };
    let old_words = listed(bench.alloc(), WordTexts::new(old))?;
    let new_words = listed(bench.alloc(), WordTexts::new(new))?;
    let words = Words {
        alloc: bench.alloc(),
        name,
        is_each,
        old: old_words.as_slice(),
        new: new_words.as_slice(),
    };
    let is_plain = words.edits(Beside::End)?.is_plain;
    Ok(
        (is_plain && words.tries(bench, aim)?)
            || tries_texts(bench, carrier, old, new, aim)?
            || (!is_plain && words.tries(bench, aim)?),
    )
}

/// Words as a list.
pub(crate) fn listed<'a>(alloc: Global, words: WordTexts<'a>) -> Result<Vec<&'a [u8]>, AllocError> {
    let mut list = Vec::new(alloc);
    for word in words {
        list.push(word)?;
    }
    Ok(list)
}

// Beside what a new word is put, where it may be put there.
#[derive(Clone, Copy)]
enum Beside {
    // The end of the value, else the word before it.
    End,
    // The word before it.
    After,
    // The word behind it.
    Before,
}

// The words of a value, and those that it becomes.
#[derive(Clone, Copy)]
struct Words<'w, 'a> {
    alloc: Global,
    name: &'a [u8],
    is_each: bool,
    old: &'w [&'a [u8]],
    new: &'w [&'a [u8]],
}

impl<'w, 'a> Words<'w, 'a> {
    // Tries to change the words.
    fn tries(self, bench: &mut Bench, aim: Aim<'_>) -> Result<bool, DeriveError> {
        for beside in [Beside::End, Beside::After, Beside::Before] {
            let edits = self.edits(beside)?.edits;
            if edits.is_empty() || edits.len() > MOST_EDITS {
                return Ok(false);
            }
            if bench.tries_all(edits.as_slice(), aim)? {
                return Ok(true);
            }
        }
        Ok(false)
    }

    // The edits of words that make one value of the other: each for words that differ. None if several words
    // become others and none stays.
    fn edits(self, beside: Beside) -> Result<Edits<'a>, Fault> {
        let mut edits = Edits {
            alloc: self.alloc,
            name: self.name,
            is_each: self.is_each,
            edits: Vec::new(self.alloc),
            is_plain: true,
        };
        for stretch in &stretches(self.alloc, self.old, self.new)? {
            let gone = between(self.old, stretch.old_start, stretch.old_end);
            let come = between(self.new, stretch.new_start, stretch.new_end);
            if gone.len() > 1 && gone.len() == self.old.len() && !come.is_empty() {
                return Ok(edits);
            }
            if gone.is_empty() {
                self.add(&mut edits, *stretch, beside, come)?;
            } else {
                edits.exchange(gone, come)?;
            }
        }
        Ok(edits)
    }

    // Words that come at a stretch.
    fn add(
        self,
        edits: &mut Edits<'a>,
        stretch: Step,
        beside: Beside,
        come: &[&[u8]],
    ) -> Result<(), AllocError> {
        let above = between(self.new, 0, stretch.new_start).last().copied();
        let below = self.old.get(stretch.old_end).copied();
        match (beside, above, below) {
            (Beside::End, _, None) => edits.add(come),
            (Beside::End | Beside::After, Some(word), _) => edits.add_after(word, come),
            (_, _, Some(word)) => edits.add_before(word, come),
            (_, _, None) => edits.add(come),
        }
    }
}

// Some words from an index up to another, as far as there are such words.
fn between<'w, 'a>(words: &'w [&'a [u8]], start: usize, end: usize) -> &'w [&'a [u8]] {
    let end = end.min(words.len());
    let start = start.min(end);
    &words[start..end]
}

// Edits of the words of a value, or of each of the variable.
#[derive(Drop)]
struct Edits<'a> {
    alloc: Global,
    name: &'a [u8],
    is_each: bool,
    edits: Vec<Edit>,
    // Whether no long word is replaced, none with blanks in it, and no several words by others.
    is_plain: bool,
}

impl<'a> Edits<'a> {
    // Words at the end.
    fn add(&mut self, come: &[&[u8]]) -> Result<(), AllocError> {
        for word in come {
            self.push(Edit::add_word(self.alloc, self.name, word))?;
        }
        Ok(())
    }

    // Words behind another one.
    fn add_after(&mut self, word: &[u8], come: &[&[u8]]) -> Result<(), AllocError> {
        let mut last = word;
        for word in come {
            self.push(Edit::add_after(self.alloc, self.name, last, word))?;
            last = *word;
        }
        Ok(())
    }

    // Words before another one.
    fn add_before(&mut self, word: &[u8], come: &[&[u8]]) -> Result<(), AllocError> {
        for new in come {
            self.push(Edit::add_before(self.alloc, self.name, word, new))?;
        }
        Ok(())
    }

    // Words in the place of others: each for one, and the last for those that are left.
    fn exchange(&mut self, gone: &[&[u8]], come: &[&[u8]]) -> Result<(), AllocError> {
        if gone.len() > 1 && !come.is_empty() {
            self.is_plain = false;
        }
        let [first, below @ ..] = gone else {
            return Ok(());
        };
        let mut last = *first;
        let mut left = come;
        for word in below {
            match left {
                [] => self.drop_word(last)?,
                [new, others @ ..] => {
                    self.replace(last, new)?;
                    left = others;
                }
            }
            last = *word;
        }
        self.exchange_last(last, left)
    }

    // Words in the place of the last one.
    fn exchange_last(&mut self, word: &[u8], come: &[&[u8]]) -> Result<(), AllocError> {
        if come.is_empty() {
            return self.drop_word(word);
        }
        let text = text_of_words(self.alloc, come)?;
        self.replace(word, text.as_slice())
    }

    // No word in the place of another.
    fn drop_word(&mut self, word: &[u8]) -> Result<(), AllocError> {
        if self.is_each {
            self.push(Edit::all_drop_word(self.alloc, self.name, word))
        } else {
            self.push(Edit::drop_word(self.alloc, self.name, word))
        }
    }

    // A text in the place of a word.
    fn replace(&mut self, word: &[u8], text: &[u8]) -> Result<(), AllocError> {
        if word.len() > SHORT_WORD || word.contains(&b' ') {
            self.is_plain = false;
        }
        if self.is_each {
            self.push(Edit::all_replace_word(self.alloc, self.name, word, text))
        } else {
            self.push(Edit::replace_word(self.alloc, self.name, word, text))
        }
    }

    // One more edit, for which there may be no memory.
    fn push(&mut self, edit: Result<Edit, AllocError>) -> Result<(), AllocError> {
        self.edits.push(edit?)?;
        Ok(())
    }
}

// Words with a space between them.
fn text_of_words(alloc: Global, words: &[&[u8]]) -> Result<Vec<u8>, AllocError> {
    let mut text = Vec::new(alloc);
    for word in words {
        if !text.is_empty() {
            text.push(b' ')?;
        }
        text.extend_from_slice(word)?;
    }
    Ok(text)
}
