//! What is so, where a command is refused: a sentence for each refusal.
//!
//! A sentence tells the count, the word or the line that it is about. Where that takes a walk over the
//! makefile and no more may be taken, it is a shorter one, which is true all the same.

use crate::address::{count_of, meant_by, name_in, number_in};
use crate::line::hides_prefix;
use crate::part::Part::{Count, Makefile, Number, Text, Times, Words};
use crate::text::Notes;
use crate::whole_lines::{address_of_site, number_of_site, sought_by};
use mk_class::is_reserved_word;
use mk_edit_language::{EachEdit, Edit, LineChange, Refusal, Site};
use mk_edit_parts::address::{Address, each_address_of};
use mk_edit_parts::block_of;
use mk_queries::listing::numbered;
use mk_tree::WordTexts;
use std::alloc::{AllocError, Allocator};

impl<'a, A: Allocator, B: Allocator + Copy> Notes<'a, A, B> {
    /// Puts what is so, where an edit is refused.
    pub(crate) fn sentence<C: Allocator>(
        &mut self,
        edit: &Edit<C>,
        refusal: Refusal,
    ) -> Result<(), AllocError> {
        match refusal {
            Refusal::BadArgument(field) => self.bad_field(edit, field),
            Refusal::Reserved => self.reserved(edit),
            Refusal::RecipePrefix => self.recipe_prefix(),
            Refusal::OpenLine => self.open_line(),
            _ => match (edit, meant_by(edit)) {
                (Edit::ExchangeLines { site, block }, _) => {
                    self.sentence_on_lines(site, block_of(block).unwrap_or_default(), refusal)
                }
                (Edit::EachLine(each), _) => self.sentence_on_each(edit, each, refusal),
                (_, Some(address)) => self.sentence_on(edit, address, refusal),
                (_, None) => self.plain_sentence(refusal),
            },
        }
    }

    // Puts what is so of whole lines, where an edit of these is refused.
    fn sentence_on_lines<'e, C: Allocator>(
        &mut self,
        site: &'e Site<C>,
        new: &'e [u8],
        refusal: Refusal,
    ) -> Result<(), AllocError> {
        let old = sought_by(site).unwrap_or_default();
        match (refusal, address_of_site(site)) {
            (Refusal::NoSuch, Some(address)) => self.no_such(address),
            (Refusal::NoSuch, None) => self.no_such_lines(old, number_of_site(site)),
            (Refusal::Ambiguous(count), Some(address)) => self.has(address, count),
            (Refusal::Ambiguous(count), None) => self.several_lines(old, count),
            (Refusal::SharedRule(count), Some(address)) => self.shared(address, count),
            (Refusal::Straddles, Some(address)) => self.straddles(address, site),
            (Refusal::Already, _) => self.lines_there(new),
            (Refusal::Misread, _) => {
                let gone = if matches!(site, Site::OfLines { .. }) {
                    old
                } else {
                    &[]
                };
                self.lines_misread(gone, new)
            }
            _ => self.plain_sentence(refusal),
        }
    }

    // Puts what is so of several lines, where an edit of them that is checked by reading is refused.
    fn sentence_on_each<C: Allocator>(
        &mut self,
        edit: &Edit<C>,
        each: &EachEdit<C>,
        refusal: Refusal,
    ) -> Result<(), AllocError> {
        match (refusal, each_address_of(each)) {
            (Refusal::NoSuch, Some(address)) => self.no_such(address),
            (Refusal::Absent, _) => self.absent_in_each(each),
            (Refusal::Misread, _) => self.misread(edit),
            _ => self.plain_sentence(refusal),
        }
    }

    // Puts what is so of an address, where an edit is refused.
    fn sentence_on<'e, C: Allocator>(
        &mut self,
        edit: &'e Edit<C>,
        address: Address<'e>,
        refusal: Refusal,
    ) -> Result<(), AllocError> {
        let name = Text(name_in(address));
        match (refusal, edit) {
            (Refusal::NoSuch, Edit::RenameTarget { .. }) => {
                self.say("@ has no target @", &[Makefile, name])
            }
            (Refusal::NoSuch, _) => self.no_such(address),
            (Refusal::Ambiguous(count), _) => self.several(edit, address, count),
            (Refusal::Absent | Refusal::Already, _) => self.idle(edit, address, refusal),
            (Refusal::Taken, Edit::RenameTarget { to, .. }) => {
                self.say("@ has the target @ already", &[Makefile, Text(to)])
            }
            (Refusal::SharedRule(count), _) => self.shared(address, count),
            (Refusal::Straddles, _) => {
                self.say("a conditional directive stands in the recipe of @", &[name])
            }
            (Refusal::OpenValue, _) => self.open_value(edit, address),
            (Refusal::Misread, _) => self.misread(edit),
            _ => self.plain_sentence(refusal),
        }
    }

    // Puts how many targets a rule has.
    fn shared(&mut self, address: Address<'_>, count: u64) -> Result<(), AllocError> {
        let name = Text(name_in(address));
        self.say("the rule for @ has @", &[name, Count(count, "target")])
    }

    // Puts how a conditional stands in a recipe, where whole lines go behind the rule or in its place.
    fn straddles<C: Allocator>(
        &mut self,
        address: Address<'_>,
        site: &Site<C>,
    ) -> Result<(), AllocError> {
        let said = if matches!(site, Site::OfRule { .. }) {
            "only a part of a conditional stands in the recipe of @"
        } else {
            "a conditional directive stands in the recipe of @"
        };
        self.say(said, &[Text(name_in(address))])
    }

    // Puts which name is reserved that an edit has.
    fn reserved<C: Allocator>(&mut self, edit: &Edit<C>) -> Result<(), AllocError> {
        match directive_in(edit) {
            Some(word) => self.say(
                "@ is the name of a directive, not of a target",
                &[Text(word)],
            ),
            None => self.say("no edit can name .RECIPEPREFIX", &[]),
        }
    }

    // Puts what makes the recipe prefix a cause.
    fn recipe_prefix(&mut self) -> Result<(), AllocError> {
        if !self.walks {
            return self.say(
                "the recipe prefix is not known, or a line would begin with it",
                &[],
            );
        }
        match numbered(self.doc).find(|(_, line)| hides_prefix(line)) {
            Some((at, _)) => self.say(
                "line @ of @ sets .RECIPEPREFIX in a way that mkedit does not read",
                &[Number(at.number as u64), Makefile],
            ),
            None => self.say(
                "a line that is no recipe line would begin with the recipe prefix",
                &[],
            ),
        }
    }

    // Puts how the last line ends, below which none can stand.
    fn open_line(&mut self) -> Result<(), AllocError> {
        let last = self.doc.get(self.doc.len().saturating_sub(1));
        let end = match last.map(|line| line.bytes()) {
            Some([.., b'\r']) => "a carriage return",
            _ => "a backslash",
        };
        self.say("the last line of @ ends in @", &[Makefile, Words(end)])
    }

    // Puts which line is missing that an address means.
    fn no_such(&mut self, address: Address<'_>) -> Result<(), AllocError> {
        let nth = match number_in(address) {
            None | Some(1) => return self.has(address, 0),
            Some(0) => return self.say("counting starts at 1", &[]),
            Some(nth) => u64::from(nth),
        };
        if !self.walks {
            return self.has_fewer(address, nth);
        }
        let count = count_of(self.doc, address);
        self.has(address, count)?;
        if count == 0 {
            return Ok(());
        }
        self.say(", and `nth @` is asked for", &[Number(nth)])
    }

    // Puts which lines, or which words of a value, are several of which an edit means one.
    fn several<'e, C: Allocator>(
        &mut self,
        edit: &'e Edit<C>,
        address: Address<'e>,
        count: u64,
    ) -> Result<(), AllocError> {
        let (meant, noun) = match edit {
            Edit::SetRecipeByText { old, .. } | Edit::RemoveRecipeByText { old, .. } => {
                (Text(old), "recipe line")
            }
            Edit::ChangeLine {
                change: LineChange::InsertWord { word, .. },
                ..
            } => (Text(word), "word"),
            _ => return self.has(address, count),
        };
        let name = Text(name_in(address));
        if number_in(address).is_some() || (self.walks && count_of(self.doc, address) == 1) {
            return self.say("@ of @ are `@`", &[Count(count, noun), name, meant]);
        }
        if self.walks {
            return self.has(address, count);
        }
        match address {
            Address::Rule(..) => {
                let rules = Count(count, "rule");
                self.say("@ for @, or lines of its recipe, fit", &[rules, name])
            }
            _ => {
                let lines = Count(count, "assignment");
                self.say("@ of @, or words of its value, fit", &[lines, name])
            }
        }
    }

    // Puts how many lines of its name an address finds.
    fn has(&mut self, address: Address<'_>, count: u64) -> Result<(), AllocError> {
        let name = Text(name_in(address));
        match address {
            Address::Rule(..) => self.say("@ has @ for @", &[Makefile, Count(count, "rule"), name]),
            Address::Commented(..) => {
                let comments = Count(count, "comment");
                self.say(
                    "@ has @ with an assignment of @",
                    &[Makefile, comments, name],
                )
            }
            _ if count == 0 => self.say("@ assigns no @", &[Makefile, name]),
            Address::Valued(_, _, value) => self.say(
                "@ assigns @ the value `@` @",
                &[Makefile, name, Text(value), Times(count)],
            ),
            _ => self.say("@ assigns @ @", &[Makefile, name, Times(count)]),
        }
    }

    // Puts that an address finds fewer lines of its name.
    fn has_fewer(&mut self, address: Address<'_>, nth: u64) -> Result<(), AllocError> {
        let name = Text(name_in(address));
        match address {
            Address::Rule(..) => self.say(
                "@ has fewer than @ for @",
                &[Makefile, Count(nth, "rule"), name],
            ),
            Address::Commented(..) => self.say(
                "@ has fewer than @ with an assignment of @",
                &[Makefile, Count(nth, "comment"), name],
            ),
            Address::Valued(_, _, value) => self.say(
                "@ assigns @ the value `@` fewer than @",
                &[Makefile, name, Text(value), Count(nth, "time")],
            ),
            _ => self.say(
                "@ assigns @ fewer than @",
                &[Makefile, name, Count(nth, "time")],
            ),
        }
    }
}

// The first target of an edit that is the name of a directive.
fn directive_in<A: Allocator>(edit: &Edit<A>) -> Option<&[u8]> {
    let new = match edit {
        Edit::AddRule { targets, .. } => WordTexts::new(targets).find(|it| is_reserved_word(it)),
        Edit::RenameTarget { to, .. } if is_reserved_word(to) => Some(to.as_slice()),
        _ => None,
    };
    match meant_by(edit) {
        Some(Address::Rule(_, target)) if new.is_none() && is_reserved_word(target) => Some(target),
        _ => new,
    }
}
