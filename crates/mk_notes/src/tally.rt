//! Which words of a makefile stand in several lines, so that most edits need no walk for their notes.

use crate::address::{meant_by, name_in};
use crate::line::is_doubtful;
use mk_class::Flavor;
use mk_edit_language::{EachEdit, Edit, LineChange, Place};
use mk_edit_parts::address::Address;
use mk_index::bucket::hash_of;
use mk_tree::{Doc, Line, WordTexts};
use std::alloc::{AllocError, Allocator};
use std::collections::BTreeMap;

/// What a line is to a word.
#[derive(Clone, Copy)]
enum Use {
    /// It assigns the variable of this name, or defines it.
    Variable,
    /// It assigns the variable of this name by `?=`.
    Default,
    /// It is that of a rule for this target.
    Target,
}

/// How many lines use each word, or more: words of one hash of 32 bits are counted together, and a line
/// that was taken out is counted still. So a word that is counted once stands in one line at most.
#[derive(Drop)]
pub(crate) struct Tally<A: Allocator> {
    /// The counts, by use and hash.
    counts: BTreeMap<u64, u8, A>,
    /// Whether make may read another text than the lines that are counted.
    is_doubtful: bool,
}

impl<A: Allocator + Copy> Tally<A> {
    /// The tally of a document.
    ///
    /// # Errors
    ///
    /// [`AllocError`] if the growth was refused.
    pub(crate) fn of<B: Allocator>(alloc: A, doc: &Doc<B>) -> Result<Tally<A>, AllocError> {
        let mut tally = Tally {
            counts: BTreeMap::new(alloc),
            is_doubtful: false,
        };
        for line in doc.iter() {
            tally.count_line(line)?;
        }
        Ok(tally)
    }

    // Counts a line.
    fn count_line<B: Allocator>(&mut self, line: &Line<B>) -> Result<(), AllocError> {
        self.is_doubtful = self.is_doubtful || is_doubtful(line);
        if let Some(name) = line.define() {
            self.add(Use::Variable, name, 1)?;
        }
        if let Some(assignment) = line.assignment() {
            self.assign(assignment.name(), assignment.flavor())?;
        }
        match line.rule() {
            Some(rule) => self.add_targets(rule.targets()),
            None => Ok(()),
        }
    }

    // Counts a line of a rule for these targets.
    fn add_targets(&mut self, targets: WordTexts<'_>) -> Result<(), AllocError> {
        for target in targets {
            self.add(Use::Target, target, 1)?;
        }
        Ok(())
    }

    /// Counts the lines of an edit that was made: those that it has put in, and those that it has taken
    /// out, which `undo` puts back.
    ///
    /// # Errors
    ///
    /// [`AllocError`] if the growth was refused.
    pub(crate) fn follow<B: Allocator>(&mut self, edit: &Edit<B>) -> Result<(), AllocError> {
        match edit {
            Edit::AddAssign { name, flavor, .. } => self.assign(name, *flavor),
            // The line itself is counted already.
            Edit::ChangeLine {
                name,
                change: LineChange::SetOperator(Flavor::Conditional),
                ..
            }
            | Edit::EachLine(
                EachEdit::ChangeEach {
                    name,
                    change: LineChange::SetOperator(Flavor::Conditional),
                },
            ) => self.add(Use::Default, name, 1),
            Edit::RemoveAssign { name, .. }
            | Edit::CommentOut { name, .. }
            | Edit::Uncomment { name, .. } => self.assign(name, Flavor::Conditional),
            Edit::AddRule { targets, .. } => self.add_targets(WordTexts::new(targets)),
            Edit::RemoveRule { target, .. } => self.add(Use::Target, target, 1),
            // New lines may be of any class, and others may be in another conditional.
            Edit::ExchangeLines { .. } => {
                self.is_doubtful = true;
                Ok(())
            }
            Edit::RenameTarget { from, to } => {
                let (old, new) = (self.count(Use::Target, from), self.count(Use::Target, to));
                self.add(Use::Target, from, new)?;
                self.add(Use::Target, to, old)
            }
            _ => Ok(()),
        }
    }

    /// Whether an edit that was made may have notes. In a makefile of which make reads each line it has none
    /// if its line is the only one of the name, and is no rule with lines below it.
    pub(crate) fn may_have_notes<B: Allocator>(&self, edit: &Edit<B>) -> bool {
        if self.is_doubtful {
            return true;
        }
        match edit {
            Edit::AddAssign { name, .. } => self.may_vary(name),
            Edit::AddRule { place, targets, .. } => {
                !matches!(place, Place::Bottom)
                    || WordTexts::new(targets).any(|target| self.has_rules(target))
            }
            _ => match meant_by(edit) {
                Some(Address::Rule(_, target)) => self.has_rules(target),
                Some(address) => self.may_vary(name_in(address)),
                None => false,
            },
        }
    }

    /// Whether several rules may have this target.
    pub(crate) fn has_rules(&self, target: &[u8]) -> bool {
        self.count(Use::Target, target) > 1
    }

    // Whether the variable of this name may have another value than that of one line: several lines give
    // it one, or one by `?=`.
    fn may_vary(&self, name: &[u8]) -> bool {
        self.count(Use::Default, name) > 0 || self.count(Use::Variable, name) > 1
    }

    // How many lines use a word so, or more; 255 stands for any greater number.
    fn count(&self, what: Use, word: &[u8]) -> u8 {
        self.counts.get(&key_of(what, word)).copied().unwrap_or(0)
    }

    // Counts the line of an assignment.
    fn assign(&mut self, name: &[u8], flavor: Flavor) -> Result<(), AllocError> {
        if matches!(flavor, Flavor::Conditional) {
            self.add(Use::Default, name, 1)?;
        }
        self.add(Use::Variable, name, 1)
    }

    // Counts some more lines that use a word so.
    fn add(&mut self, what: Use, word: &[u8], more: u8) -> Result<(), AllocError> {
        let count = self.count(what, word).saturating_add(more);
        self.counts.insert(key_of(what, word), count)?;
        Ok(())
    }
}

// The key of the count of a word that is used so.
fn key_of(what: Use, word: &[u8]) -> u64 {
    let kind = match what {
        Use::Variable => 0,
        Use::Default => 1,
        Use::Target => 2,
    };
    u64::from(hash_of(word)) * 4 + kind
}
