//! What lines are found by what they say, and which lines go with a rule.
ghost use Rattle.mk_edit_language.specs.LineLaws.{RunsSayTheirBlock};
ghost use Rattle.mk_edit_language.specs.RuleRunTaken.{ExchangedRulesGoWhole};

/// The runs for a block are the stretches of lines that say what it says: each run does, and each
/// stretch of the text's lines that does is one of the runs. What lines say are their physical lines
/// without line ends.
pub fn runs_say_their_block()
    ensures { RunsSayTheirBlock }
{}

/// Where whole lines take the place of a rule, or the rule is taken out with what belongs to it, these
/// lines go: the line of the rule that its address means, which has no other target, and some lines
/// directly below it. Each of these is a recipe line, a blank line, a comment, or the line of a
/// conditional that begins and ends among them. No recipe line of the rule stays.
pub fn exchanged_rules_go_whole()
    ensures { ExchangedRulesGoWhole }
{}
