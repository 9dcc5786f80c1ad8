//! What is said of each refusal: its cause, an example and what to do.
//!
//! `make texts` makes of this file what docs/EDITS.md, docs/mkedit-script.5 and the completions say
//! of refusals.

use mk_edit_language::Refusal;

const BAD_ARGUMENT: &str = "\
A field is not what it has to be. The report names the first such field.
`name` has only ASCII letters, digits, underscores, dots and hyphens, so no `$(X)`.
`value` has no blank at either end, no `#` that would begin a comment, no backslash and no lone `$` at
its end, and no reference that is not closed, such as `$(X`. With `append`, `prepend` and `replace`
it is not empty either. `from` is not empty.
`target`, `word`, `old` and `new` are one word each, without a blank outside a reference; `targets`
and `prereqs` are such words, and `targets` is not empty. Outside a reference no word has a `#`, `:`, `;`,
`=`, `|`, backslash or lone `$`, and each reference is closed. No target ends in `&`. `place` contains
such a name or target. In edits of variables `word`, `new` and `old` follow the rules for `value`; `word`
and `new` are words of a value, and are not empty.
`line` and `block`, and an `old` that is lines, do not end in a backslash. No field has a CR or a NUL.

Example: the script
    set CC \"gcc #1\"
is reported as
    1: refused 1 BadArgument value

For a name with a reference, as `obj-$(X)`, use `line-replace`. In a value write `\\#`, between double
quotes `\\\\#`, or put it inside a reference.
";

const RESERVED: &str = "\
The variable is `.RECIPEPREFIX`, in PLACE too, or a target is one of these words:
`ifeq`, `ifneq`, `ifdef`, `ifndef`, `else`, `endif`, `define`, `endef`, `undefine`, `include`,
`-include`, `sinclude`, `load`, `-load`, `export`, `unexport`, `override`, `private` or `vpath`. A
prerequisite may be such a word.

Example: the script
    rename all include
is reported as
    1: refused 2 Reserved

Edit by hand.
";

const RECIPE_PREFIX: &str = "\
The file sets `.RECIPEPREFIX` in a way that mkedit does not read: in a conditional, with a modifier, by
`define`, with `+=`, `?=`, `!=` or `:::=`, or to a byte that cannot be a prefix,
such as the `$` of a reference. Or, tested directly after 5: the edit would write a line that begins
with the recipe prefix and is no recipe line.

Example: over
    ifdef POSIX
    .RECIPEPREFIX = >
    endif
    CC = gcc
the script
    set CC clang
is reported as
    1: refused 3 RecipePrefix

Edit by hand.
";

const NO_SUCH: &str = "\
No assignment or rule has this name, or no lines are OLD, or there is no N-th of them; for `uncomment`, no
comment has the form of an assignment of it. For `rename`, the old name is no target of a rule or of a
target-specific assignment.

Example: over
    CC = gcc
the script
    set LDFLAGS -s
is reported as
    1: refused 4 NoSuch

List what is there with `mkedit vars` or `mkedit rules`. If mkedit cannot parse the line, `mkedit check`
lists it. Edits of variables find no `define`, no directive such as `export NAME`, no target-specific
assignment and no name with a reference such as `obj-$(X)`: `line-replace` does. For a mere prerequisite
use `depend-replace`.
";

const AMBIGUOUS: &str = "\
Several assignments, rules or comments have this name, and neither `nth` nor `all` says which are meant.
Or OLD is there several times, or several recipe lines of the rule have the text OLD. Or, with
`add-before` and `add-after`, several words of the value are WORD; this is tested directly after 7. The
report counts them.

Example: over
    ifdef DEBUG
    CC = gcc
    else
    CC = cc
    endif
the script
    set CC clang
is reported as
    1: refused 5 Ambiguous 2

Say which one: `nth 2 set CC clang`, or for PLACE `nth 2 assign after-var CC X = 1`. `mkedit vars` and
`mkedit rules` list them in order; target-specific assignments do not count. `set-if` takes the one of a
value, and `all set CC clang` changes all of them. A recipe line has a number for `recipe-set`. If a value
has WORD several times, name the word on the new one's other side.
";

const ABSENT: &str = "\
What the command would remove or replace, or put something beside, is not there: a word of the
prerequisites or of the value, with `all` of any value of the name; the value OLD; the text FROM; recipe
line K, or one whose text is OLD. For `recipe-insert` K may be one more than the number of recipe lines.

Example: over
    hello: main.o
the script
    undepend hello log.o
is reported as
    1: refused 6 Absent

List what is there with `mkedit rules`, `mkedit recipes` or `mkedit vars`. A recipe after a semicolon
has no number: `line-replace` alone reaches it.
";

const ALREADY: &str = "\
The new word is already in the prerequisites, or in the value, to which the command adds it,
and with `all` in each value of the name. Of `insert`, the place is in or beside lines that are BLOCK; of
`line-replace` and `rule-replace`, the old lines are in such.

Example: over
    hello: main.o
the script
    depend hello main.o
is reported as
    1: refused 7 Already

Nothing has to be done.
";

const TAKEN: &str = "\
The new name is already a target of a rule or of a target-specific assignment. Targets on lines that
`mkedit check` lists do not count.

Example: over
    all: hello
    hello: main.o
the script
    rename all hello
is reported as
    1: refused 8 Taken

Decide by hand.
";

const SHARED_RULE: &str = "\
The rule to remove or to replace has several targets. The report counts them; one that is there twice
counts twice.

Example: over
    build cache: config
the script
    unrule cache
is reported as
    1: refused 9 SharedRule 2

Edit by hand.
";

const STRADDLES: &str = "\
A conditional directive stands between the rule's line and its last recipe line. `unrule`, `recipe`,
`recipe-insert` and the place `after-rule` are refused then; `rule-replace` and `rule-remove` only if a
conditional stands partly in the rule.

Example: over
    hello:
    ifdef DEBUG
    \tgdb hello
    endif
the script
    recipe hello ./hello
is reported as
    1: refused 10 Straddles

Use `rule-replace` or `rule-remove`, or an edit of one recipe line.
";

const OPEN_VALUE: &str = "\
The value has a reference that is not closed, or ends in a lone `$` or a lone backslash, or with `add` in
a fold. What follows could be read together with that end. `drop` is also refused if the word directly
before the one to remove ends in a backslash, or in a blank that belongs to a `$` or a backslash. With
`all`, one such value is enough, if it would be changed.

Example: over
    SOURCES = $(wildcard *.c
the script
    append SOURCES main.c
is reported as
    1: refused 11 OpenValue

Give the whole value with `set`.
";

const OPEN_LINE: &str = "\
The new line would follow a last line that would swallow it: one that ends in an odd run of backslashes,
maybe with a line end after it, or in a CR alone.

Example: over
    SOURCES = main.c \\
the script
    assign bottom CC = gcc
is reported as
    1: refused 12 OpenLine

Fix that line.
";

const OPEN_DEFINE: &str = "\
The place is `bottom`, and a define is open at the end of the file.

Example: over
    define HELP
    Say make all.
the script
    assign bottom CC = gcc
is reported as
    1: refused 13 OpenDefine

Fix the file, or choose another place.
";

const LEANS: &str = "\
Below the change stands a line that begins with the recipe prefix, with only blank lines, comments and
conditional directives between. It could become a recipe line, or cease to be one. The edit is
refused even if it would not.

Example: over
    all:
    CC = gcc
    \tCFLAGS = -O2
the script
    unset CC
is reported as
    1: refused 14 Leans

In the example the line with the tab would become a recipe line of `all`. Edit by hand, or choose
another place.
";

const TOO_LONG: &str = "\
The text would have more than 16,777,216 bytes.

Example: a makefile has this many bytes, and a new line is put in.

Move a part into an included file.
";

const NOTHING_TO_UNDO: &str = "\
There is no edit to undo, or the depth is used up.

Example: the script
    undo
is reported as
    1: refused 16 NothingToUndo

Give a greater depth with `-d`.
";

const NOTHING_TO_REDO: &str = "\
There is no edit to redo: there was no `undo`, `redo` has redone everything, or an edit was accepted
since. What `cancel` undid is gone.

Example: the script
    redo
is reported as
    1: refused 17 NothingToRedo

Correct the script.
";

const GROUP_OPEN: &str = "\
`undo`, `redo` or `begin` stands inside a group.

Example: the script
    begin
    undo
is reported as
    2: refused 18 GroupOpen

Put `end` before it.
";

const NO_GROUP: &str = "\
`end` or `cancel` stands outside a group.

Example: the script
    end
is reported as
    1: refused 19 NoGroup

Remove it.
";

const NO_MEMORY: &str = "\
Memory ran out. The run ends with `mkedit: no memory` and status 3.

Example: a makefile has 16 MB, and `ulimit -v` leaves less memory than the run needs.

Run it again with more memory.
";

const MISREAD: &str = "\
The new line would not read as the edit says: for instance, the new text has a `#`, an open reference
or a backslash at its end, or `subst` takes out a `)` before a comment. If an edit changes several lines,
one such line is enough. Or whole lines that come or go would leave another define or conditional open,
or another recipe prefix, than is there now.

Example: over
    CFLAGS = -O2 -g
the script
    subst CFLAGS -g \"-g # slow\"
is reported as
    1: refused 21 Misread

Use another text, such as `\\#`, or give the whole value with `set`. Lines that begin and end a
conditional or a define go into one block, by `<<WORD`.
";

/// The cause of a refusal, an example of it and what to do, with an empty line between the three. A
/// count or a field that the refusal has changes nothing.
pub fn explanation(refusal: &Refusal) -> &'static str {
    match refusal {
        Refusal::BadArgument(_) => BAD_ARGUMENT,
        Refusal::Reserved => RESERVED,
        Refusal::RecipePrefix => RECIPE_PREFIX,
        Refusal::NoSuch => NO_SUCH,
        Refusal::Ambiguous(_) => AMBIGUOUS,
        Refusal::Absent => ABSENT,
        Refusal::Already => ALREADY,
        Refusal::Taken => TAKEN,
        Refusal::SharedRule(_) => SHARED_RULE,
        Refusal::Straddles => STRADDLES,
        Refusal::OpenValue => OPEN_VALUE,
        Refusal::OpenLine => OPEN_LINE,
        Refusal::OpenDefine => OPEN_DEFINE,
        Refusal::Leans => LEANS,
        Refusal::TooLong => TOO_LONG,
        Refusal::NothingToUndo => NOTHING_TO_UNDO,
        Refusal::NothingToRedo => NOTHING_TO_REDO,
        Refusal::GroupOpen => GROUP_OPEN,
        Refusal::NoGroup => NO_GROUP,
        Refusal::NoMemory => NO_MEMORY,
        Refusal::Misread => MISREAD,
    }
}
