//! What `help` says in a session.

/// The commands and the requests.
pub const HELP: &str = "\
Commands, of each of which `help COMMAND` says more:
    set set-if append add drop prepend replace add-before add-after subst
    operator values-subst unset comment-out uncomment assign rename rule unrule
    depend depend-order undepend depend-replace
    recipe recipe-insert recipe-set recipe-del recipe-replace recipe-remove
    recipe-subst recipes-subst insert line-replace line-remove rule-replace
    rule-remove nth all try undo redo begin end cancel
Requests:
    print    print FROM    print FROM TO     the text, or its lines from one number to another
    diff                                     what has changed since FILE was opened
    vars     vars NAME                       the assignments, or those of NAME
    rules    rules TARGET                    the rules, or those for TARGET
    recipes  recipes TARGET                  the recipe lines, or those for TARGET
    get NAME    nth N get NAME               the value of a variable
    check    caveats                         what is not read, and what make may read otherwise
    history                                  what can be undone and redone
    script                                   the edits that stand, as a script
    explain REFUSAL                          why a command is refused, and what to do then
    write    write!    write FILE            puts the text into the file, or into another
    revert                                   undoes all that can be undone
    quit     quit!                           ends the session
";
