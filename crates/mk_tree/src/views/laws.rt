//! Laws of views, each as the contract of a function that does nothing.
ghost use Rattle.mk_tree.specs.ViewLaws.{AssignmentsAreSeen, RulesAreSeen, TargetAssignmentsAreSeen};

/// A line of a faithful document has a view exactly where the definition of classes gives it this
/// class, and the view shows the parts of this class.
pub fn views_are_the_parts()
    ensures assignments { AssignmentsAreSeen }
    ensures target_assignments { TargetAssignmentsAreSeen }
    ensures rules { RulesAreSeen }
{}
