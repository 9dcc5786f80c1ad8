//! Laws of listings, each as the contract of a function that does nothing.
ghost use Rattle.mk_queries.specs.ListingLaws.{AssignmentsAreNumbered, AssignmentsHaveTheirNumbers, RecipeLinesHaveTheirNumbers, RulesAreNumbered, RulesHaveTheirNumbers};

use mk_tree::views::laws::views_are_the_parts;

/// The numbers of what is listed of one name or target are those that edits take: an edit with this
/// name or target and the number of a line that is listed means this line. An edit of a recipe line,
/// such as `recipe-set`, with the number of a rule that is listed for its target and the number of one
/// of this rule's recipe lines means this recipe line. The numbers of `assignment_number` and
/// `rule_number` are the same ones. So it is for a document that is faithful, as `Doc::parse` makes it
/// and a session lends it.
pub fn numbers_are_those_of_edits()
    ensures assignments { AssignmentsHaveTheirNumbers }
    ensures rules { RulesHaveTheirNumbers }
    ensures recipe_lines { RecipeLinesHaveTheirNumbers }
    ensures assignment_number { AssignmentsAreNumbered }
    ensures rule_number { RulesAreNumbered }
{
    views_are_the_parts();
}
