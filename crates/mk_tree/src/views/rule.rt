//! The parts of the line of a rule.
ghost use Rattle.std.specs.Prelude.{◌≡◌, option_map, slice_get};
ghost use Rattle.mk_lines.specs.Words.{words_in};
ghost use Rattle.mk_tree.specs.Views.{rule_at};

use crate::views::clip::clip;
use crate::views::word_texts::WordTexts;
use mk_class::{Header, Separator};
use mk_lines::split_first_word;
use std::marker::Model;

/// The parts of the line of a rule, lent by it. Folds are spaces in them, and no reference is
/// expanded.
#[derive(Debug, Drop)]
pub struct RuleRef<'a> {
    text: &'a [u8],
    at: Header,
}

impl<'a> Model for RuleRef<'a> {
    ghost use Rattle.mk_tree.specs.Views.{RuleView, rule_at};

    ghost Value = { RuleView };

    ghost view = { λ r. rule_at r.text.now r.at };
}

impl<'a> RuleRef<'a> {
    // The parts of the line of a rule in its joined text.
    pub(crate) fn new(text: &'a [u8], at: Header) -> RuleRef<'a>
        ensures { result ≡ rule_at text.now at }
    {
        RuleRef { text, at }
    }

    /// The targets.
    pub fn targets(&self) -> WordTexts<'a>
        ensures { result ≡ self.now.targets }
    {
        WordTexts::new(clip(self.text, 0, self.at.targets_end))
    }

    /// What stands between the targets and the prerequisites.
    pub fn separator(&self) -> Separator
        ensures { result ≡ self.now.separator }
    {
        self.at.separator
    }

    /// The pattern of a static pattern rule, such as `%.o` of `a.o b.o: %.o: %.c`.
    pub fn pattern(&self) -> Option<&'a [u8]>
        ensures { option_map (λ word. word.now) result ≡ slice_get self.now.pattern 0 }
    {
        let (pattern, _) = split_first_word(self.around_pattern())?;
        Some(pattern)
    }

    /// The prerequisites before any `|`.
    pub fn prereqs(&self) -> WordTexts<'a>
        ensures { result ≡ self.now.prereqs }
    {
        WordTexts::new(clip(self.text, self.at.normal_start, self.at.normal_end))
    }

    /// The order-only prerequisites, which stand after a `|`.
    pub fn order_only(&self) -> WordTexts<'a>
        ensures { result ≡ self.now.order_only }
    {
        let bar = usize::from(self.at.has_order_only);
        let start = self.at.normal_end.saturating_add(bar);
        WordTexts::new(clip(self.text, start, self.at.head_end))
    }

    /// What follows the `;` of an inline recipe, if the line has one. It may be empty.
    pub fn inline_recipe(&self) -> Option<&'a [u8]>
        ensures { option_map (λ text. text.now) result ≡ self.now.inline_recipe }
    {
        inline_recipe(self.text, &self.at)
    }

    // The pattern with the blanks around it; nothing if there is none.
    fn around_pattern(&self) -> &'a [u8]
        ensures { words_in result.now ≡ self.now.pattern }
    {
        let start = self
            .at
            .targets_end
            .saturating_add(self.at.separator.text().len());
        let colon = usize::from(self.at.has_pattern);
        clip(self.text, start, self.at.normal_start.saturating_sub(colon))
    }
}

// What follows the `;` of an inline recipe.
fn inline_recipe<'a>(text: &'a [u8], at: &Header) -> Option<&'a [u8]>
    ensures { option_map (λ recipe. recipe.now) result ≡ (rule_at text.now at.now).inline_recipe }
{
    if !at.has_recipe {
        return None;
    }
    Some(clip(text, at.head_end.saturating_add(1), text.len()))
}
