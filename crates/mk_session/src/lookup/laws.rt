//! Laws of lookups, each as the contract of a function that does nothing.
ghost use Rattle.mk_session.specs.LookupLaws.{IsRefusedAsSet, IsFoundWhereSet, IsRefusedAsUnset, IsRefusedAsUnrule};

/// A lookup of a variable that is refused is refused as `set` is, whatever value that gives. One that
/// finds a value finds it where `set` can give another: `set` is refused for a value that it may not
/// give, or for the length of the text, and for nothing else.
pub fn lookups_are_refused_as_set_is()
    ensures refused { IsRefusedAsSet }
    ensures found { IsFoundWhereSet }
{}

/// Where no line of a name or a target is found, `unset` or `unrule` of this name or target and this
/// number is refused for the same cause: it comes before those of their own.
pub fn lines_are_refused_as_edits_are()
    ensures assignments { IsRefusedAsUnset }
    ensures rules { IsRefusedAsUnrule }
{}
