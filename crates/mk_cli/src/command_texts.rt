//! What is said of each command of a script: what it does, its refusals, and an example.
//!
//! `make texts` makes of this file what README.md, docs/EDITS.md, docs/mkedit-script.5 and the completions
//! say of commands in the same words.

const SET: &str = "\
Replaces the value of an assignment, and keeps its operator.

Is refused with BadArgument, Reserved, RecipePrefix, NoSuch, Ambiguous or TooLong.

Example: over
    CC = gcc # c
the script
    set CC clang
makes
    CC = clang # c
";

const SET_IF: &str = "\
Replaces the value of the assignment that has the value OLD.

Is refused with BadArgument, Reserved, RecipePrefix, NoSuch, Absent, Ambiguous or TooLong.

Example: over
    CFLAGS = -g
    CFLAGS += -O2
the script
    set-if CFLAGS -O2 -O3
makes
    CFLAGS = -g
    CFLAGS += -O3
";

const APPEND: &str = "\
Appends text to a value.

Is refused with BadArgument, Reserved, RecipePrefix, NoSuch, Ambiguous, OpenValue or TooLong.

Example: over
    CFLAGS = -O2 # c
the script
    append CFLAGS \"-g -W\"
makes
    CFLAGS = -O2 -g -W # c
";

const ADD: &str = "\
Appends a word to a value that does not have it yet.

Is refused with BadArgument, Reserved, RecipePrefix, NoSuch, Ambiguous, Already, OpenValue or
TooLong.

Example: over
    CFLAGS = -O2
the script
    add CFLAGS -g
makes
    CFLAGS = -O2 -g
";

const DROP: &str = "\
Removes a word from a value.

Is refused with BadArgument, Reserved, RecipePrefix, NoSuch, Ambiguous, Absent or OpenValue.

Example: over
    CFLAGS = -g -O2 # c
the script
    drop CFLAGS -g
makes
    CFLAGS = -O2 # c
";

const PREPEND: &str = "\
Puts text before a value.

Is refused with BadArgument, Reserved, RecipePrefix, NoSuch, Ambiguous, TooLong or Misread.

Example: over
    LDLIBS = -lm # c
the script
    prepend LDLIBS -lz
makes
    LDLIBS = -lz -lm # c
";

const REPLACE: &str = "\
Replaces a word of a value by text.

Is refused with BadArgument, Reserved, RecipePrefix, NoSuch, Ambiguous, Absent, TooLong or Misread.

Example: over
    CFLAGS = -O2 -Wall # c
the script
    replace CFLAGS -O2 \"-O3 -g\"
makes
    CFLAGS = -O3 -g -Wall # c
";

const ADD_BEFORE: &str = "\
Puts a new word before another word of a value. A list with one word on each line keeps that form.

Is refused with BadArgument, Reserved, RecipePrefix, NoSuch, Ambiguous, Absent, Already, TooLong or
Misread.

Example: over
    SOURCES = main.c util.c # c
the script
    add-before SOURCES util.c log.c
makes
    SOURCES = main.c log.c util.c # c
";

const ADD_AFTER: &str = "\
Puts a new word after another word of a value. A list with one word on each line keeps that form.

Is refused with BadArgument, Reserved, RecipePrefix, NoSuch, Ambiguous, Absent, Already, TooLong or
Misread.

Example: over
    SOURCES = main.c \\
        util.c
the script
    add-after SOURCES main.c log.c
makes
    SOURCES = main.c \\
        log.c \\
        util.c
";

const SUBST: &str = "\
Replaces each occurrence of a text in a value, also within words.

Is refused with BadArgument, Reserved, RecipePrefix, NoSuch, Ambiguous, Absent, TooLong or Misread.

Example: over
    DIRS = /usr/local/bin:/usr/local/lib
the script
    subst DIRS /usr/local /usr
makes
    DIRS = /usr/bin:/usr/lib
";

const OPERATOR: &str = "\
Replaces the operator of an assignment, and keeps its value.

Is refused with BadArgument, Reserved, RecipePrefix, NoSuch, Ambiguous, TooLong or Misread.

Example: over
    CC = gcc
the script
    operator CC ?=
makes
    CC ?= gcc
";

const VALUES_SUBST: &str = "\
Replaces each occurrence of a text in the values of all variables, as one edit.

Is refused with BadArgument, RecipePrefix, Absent, TooLong or Misread.

Example: over
    BINDIR = /usr/local/bin
    CC = gcc
    CONF = /etc:/usr/local/etc
the script
    values-subst /usr/local /opt
makes
    BINDIR = /opt/bin
    CC = gcc
    CONF = /etc:/opt/etc
";

const UNSET: &str = "\
Removes an assignment.

Is refused with BadArgument, Reserved, RecipePrefix, NoSuch, Ambiguous or Leans.

Example: over
    CC = gcc
    CFLAGS = -O2
the script
    unset CC
makes
    CFLAGS = -O2
";

const COMMENT_OUT: &str = "\
Makes an assignment a comment.

Is refused with BadArgument, Reserved, RecipePrefix, NoSuch, Ambiguous, Leans or TooLong.

Example: over
    CC = gcc
    CFLAGS = -O2
the script
    comment-out CC
makes
    #CC = gcc
    CFLAGS = -O2
";

const UNCOMMENT: &str = "\
Makes a comment that has the form of an assignment of NAME the assignment.

Is refused with BadArgument, Reserved, RecipePrefix, NoSuch, Ambiguous, Misread or Leans.

Example: over
    # SYSTEMD = yes
    # SYSTEMD is for version 2
the script
    uncomment SYSTEMD
makes
    SYSTEMD = yes
    # SYSTEMD is for version 2
";

const ASSIGN: &str = "\
Inserts a new assignment at PLACE.

Is refused with BadArgument, Reserved, RecipePrefix, NoSuch, Ambiguous, Straddles, OpenLine,
OpenDefine, Leans or TooLong.

Example: over
    CC = gcc
the script
    assign after-var CC CFLAGS := -O2
makes
    CC = gcc
    CFLAGS := -O2
";

const RULE: &str = "\
Inserts the line of a new rule at PLACE, even if a target has a rule already. A rule without
prerequisites has `\"\"` for PREREQS.

Is refused with BadArgument, Reserved, RecipePrefix, NoSuch, Ambiguous, Straddles, OpenLine,
OpenDefine, Leans or TooLong.

Example: over
    CC = gcc
the script
    rule bottom all : \"main.o log.o\"
makes
    CC = gcc
    all: main.o log.o
";

const UNRULE: &str = "\
Removes a rule and its recipe.

Is refused with BadArgument, Reserved, RecipePrefix, NoSuch, Ambiguous, SharedRule, Straddles or
Leans.

Example: over
    all: main.o
    clean:
    \trm -f main.o
the script
    unrule clean
makes
    all: main.o
";

const DEPEND: &str = "\
Appends a word to a rule's normal prerequisites.

Is refused with BadArgument, Reserved, RecipePrefix, NoSuch, Ambiguous, Already or TooLong.

Example: over
    all: main.o | build
the script
    depend all log.o
makes
    all: main.o log.o | build
";

const DEPEND_ORDER: &str = "\
Appends a word to a rule's order-only prerequisites.

Is refused with BadArgument, Reserved, RecipePrefix, NoSuch, Ambiguous, Already or TooLong.

Example: over
    all: main.o
the script
    depend-order all build
makes
    all: main.o | build
";

const UNDEPEND: &str = "\
Removes a word from a rule's prerequisites.

Is refused with BadArgument, Reserved, RecipePrefix, NoSuch, Ambiguous or Absent.

Example: over
    all: main.o log.o
the script
    undepend all log.o
makes
    all: main.o
";

const DEPEND_REPLACE: &str = "\
Replaces a word of a rule's prerequisites, in both lists.

Is refused with BadArgument, Reserved, RecipePrefix, NoSuch, Ambiguous, Absent, Already, TooLong or
Misread.

Example: over
    prog: main.o libold.a | build
the script
    depend-replace prog libold.a libnew.a
makes
    prog: main.o libnew.a | build
";

const RECIPE: &str = "\
Appends a line to a rule's recipe.

Is refused with BadArgument, Reserved, RecipePrefix, NoSuch, Ambiguous, Straddles, OpenLine or
TooLong.

Example: over
    clean:
    \trm -f main.o
the script
    recipe clean \"rm -rf build\"
makes
    clean:
    \trm -f main.o
    \trm -rf build
";

const RECIPE_INSERT: &str = "\
Inserts a line before line K of a rule's recipe.

Is refused with BadArgument, Reserved, RecipePrefix, NoSuch, Ambiguous, Absent, Straddles, OpenLine
or TooLong.

Example: over
    clean:
    \trm -f main.o
the script
    recipe-insert clean 1 \"rm -rf build\"
makes
    clean:
    \trm -rf build
    \trm -f main.o
";

const RECIPE_SET: &str = "\
Replaces line K of a rule's recipe.

Is refused with BadArgument, Reserved, RecipePrefix, NoSuch, Ambiguous, Absent or TooLong.

Example: over
    clean:
    \trm -f main.o
the script
    recipe-set clean 1 \"rm -rf build\"
makes
    clean:
    \trm -rf build
";

const RECIPE_DEL: &str = "\
Removes line K of a rule's recipe.

Is refused with BadArgument, Reserved, RecipePrefix, NoSuch, Ambiguous or Absent.

Example: over
    clean:
    \trm -f main.o
    \trm -rf build
the script
    recipe-del clean 1
makes
    clean:
    \trm -rf build
";

const RECIPE_REPLACE: &str = "\
Replaces the line of a rule's recipe whose text is OLD.

Is refused with BadArgument, Reserved, RecipePrefix, NoSuch, Ambiguous, Absent or TooLong.

Example: over
    clean:
    \trm -f main.o
the script
    recipe-replace clean \"rm -f main.o\" \"rm -f *.o\"
makes
    clean:
    \trm -f *.o
";

const RECIPE_REMOVE: &str = "\
Removes the line of a rule's recipe whose text is OLD.

Is refused with BadArgument, Reserved, RecipePrefix, NoSuch, Ambiguous or Absent.

Example: over
    clean:
    \trm -f main.o
    \trm -rf build
the script
    recipe-remove clean \"rm -f main.o\"
makes
    clean:
    \trm -rf build
";

const RECIPE_SUBST: &str = "\
Replaces each occurrence of a text in the recipes of all rules for a target, as one edit. With `nth`
it is one of these rules.

Is refused with BadArgument, Reserved, RecipePrefix, NoSuch, Absent, TooLong or Misread.

Example: over
    install: prog
    \tinstall -s prog /usr/bin
    \tinstall -s tool /usr/bin
the script
    recipe-subst install \"install -s\" install
makes
    install: prog
    \tinstall prog /usr/bin
    \tinstall tool /usr/bin
";

const RECIPES_SUBST: &str = "\
Replaces each occurrence of a text in all recipes, as one edit.

Is refused with BadArgument, RecipePrefix, Absent, TooLong or Misread.

Example: over
    prog: main.c
    \tgcc -o prog main.c
    test: test.c
    \tgcc -o test test.c && ./test
the script
    recipes-subst \"gcc \" \"$(CC) \"
makes
    prog: main.c
    \t$(CC) -o prog main.c
    test: test.c
    \t$(CC) -o test test.c && ./test
";

const INSERT: &str = "\
Inserts lines of any class: comments, directives, assignments. If BLOCK is `<<WORD`, its lines stand
below the command, up to the line WORD.

Is refused with BadArgument, Reserved, RecipePrefix, NoSuch, Ambiguous, Straddles, Already, OpenLine,
OpenDefine, TooLong, Misread or Leans.

Example: over
    include a.mk
    CC = gcc
the script
    insert after-line \"include a.mk\" <<END
    -include b.mk
    # Set by b.mk: CFLAGS
    END
makes
    include a.mk
    -include b.mk
    # Set by b.mk: CFLAGS
    CC = gcc
";

const LINE_REPLACE: &str = "\
Replaces whole lines by others. Both may be of any class. OLD and BLOCK may be `<<WORD`, with their
lines below the command, up to the line WORD.

Is refused with BadArgument, RecipePrefix, NoSuch, Already, Ambiguous, TooLong, Misread or Leans.

Example: over
    CFLAGS = -g
    CC = gcc
the script
    line-replace \"CFLAGS = -g\" <<END
    ifdef DEBUG
    CFLAGS = -g
    endif
    END
makes
    ifdef DEBUG
    CFLAGS = -g
    endif
    CC = gcc
";

const LINE_REMOVE: &str = "\
Removes whole lines of any class. OLD may be `<<WORD`, with its lines below the command, up to the line
WORD.

Is refused with BadArgument, RecipePrefix, NoSuch, Ambiguous, Misread or Leans.

Example: over
    include a.mk
    CC = gcc
the script
    line-remove \"include a.mk\"
makes
    CC = gcc
";

const RULE_REPLACE: &str = "\
Replaces a rule and its recipe, with the conditionals in it, by lines of any class. BLOCK may be
`<<WORD`, with its lines below the command, up to the line WORD.

Is refused with BadArgument, Reserved, RecipePrefix, NoSuch, Ambiguous, SharedRule, Straddles, Already,
TooLong, Misread or Leans.

Example: over
    test: prog
    ifdef SLOW
    \t./prog --slow
    endif
    \t./prog
    CC = gcc
the script
    rule-replace test <<END
    test: prog
    \t./prog --fast
    END
makes
    test: prog
    \t./prog --fast
    CC = gcc
";

const RULE_REMOVE: &str = "\
Removes a rule and its recipe, with the conditionals in it.

Is refused with BadArgument, Reserved, RecipePrefix, NoSuch, Ambiguous, SharedRule, Straddles, Misread or
Leans.

Example: over
    test: prog
    ifdef SLOW
    \t./prog --slow
    endif
    CC = gcc
the script
    rule-remove test
makes
    CC = gcc
";

const RENAME: &str = "\
Renames a target, also where it is a prerequisite. Recipes stay as they are.

Is refused with BadArgument, Reserved, RecipePrefix, NoSuch, Taken or TooLong.

Example: over
    all: clean
    clean:
    \trm -f main.o
the script
    rename clean tidy
makes
    all: tidy
    tidy:
    \trm -f main.o
";

const NTH: &str = "\
Picks the N-th of several lines that COMMAND could mean.

Is refused with those of COMMAND, but not with Ambiguous for its line.

Example: over
    CC = gcc
    CC = cc
the script
    nth 2 set CC clang
makes
    CC = gcc
    CC = clang
";

const ALL: &str = "\
Applies COMMAND to every assignment of the name, as one edit. COMMAND is `set`, `set-if`, `append`, `add`,
`drop`, `prepend`, `replace`, `subst` or `operator`.

Is refused with those of COMMAND, but not with Ambiguous.

Example: over
    CFLAGS = -g
    CFLAGS += -O2
the script
    all add CFLAGS -W
makes
    CFLAGS = -g -W
    CFLAGS += -O2 -W
";

const UNDO: &str = "\
Undoes the last edit that stands. Only edits of the same run can be undone.

Is refused with NothingToUndo or GroupOpen.

Example: over
    CC = gcc
the script
    set CC clang
    undo
makes
    CC = gcc
";

const REDO: &str = "\
Redoes what the last `undo` undid.

Is refused with NothingToRedo or GroupOpen.

Example: over
    CC = gcc
the script
    set CC clang
    undo
    redo
makes
    CC = clang
";

const BEGIN: &str = "\
Begins a group: the edits up to `end` count as one.

Is refused with GroupOpen.

Example: over
    CC = gcc
    AR = ar
the script
    begin
    set CC clang
    set AR llvm-ar
    end
    undo
makes
    CC = gcc
    AR = ar
";

const END: &str = "\
Ends a group and keeps its edits.

Is refused with NoGroup.

Example: over
    CC = gcc
the script
    begin
    set CC clang
    end
makes
    CC = clang
";

const CANCEL: &str = "\
Ends a group and undoes its edits.

Is refused with NoGroup.

Example: over
    CC = gcc
the script
    begin
    set CC clang
    cancel
makes
    CC = gcc
";

const TRY: &str = "\
Makes an edit; having nothing to do is not an error. There is nothing to do if a word is there
already or gone already, or if no line has the name.

Is refused with those of COMMAND, but not with NoSuch, Absent or Already.

Example: over
    CC = gcc
the script
    try unset LDFLAGS
makes
    CC = gcc
";

const OR: &str = "\
Makes an edit if the one in the line above finds no line to edit. That line has no `try` and needs
none: in both lines it is no error if a word is there already or gone already.

Is refused with those of COMMAND.

Example: over
    AR = ar
the script
    set CC clang
    or assign bottom CC = clang
makes
    AR = ar
    CC = clang
";

/// What is said of each command of a script, and of the words that may stand before one.
static TEXTS: [(&str, &str); 45] = [
    ("set", SET),
    ("set-if", SET_IF),
    ("append", APPEND),
    ("add", ADD),
    ("drop", DROP),
    ("prepend", PREPEND),
    ("replace", REPLACE),
    ("add-before", ADD_BEFORE),
    ("add-after", ADD_AFTER),
    ("subst", SUBST),
    ("operator", OPERATOR),
    ("values-subst", VALUES_SUBST),
    ("unset", UNSET),
    ("comment-out", COMMENT_OUT),
    ("uncomment", UNCOMMENT),
    ("assign", ASSIGN),
    ("rule", RULE),
    ("unrule", UNRULE),
    ("depend", DEPEND),
    ("depend-order", DEPEND_ORDER),
    ("undepend", UNDEPEND),
    ("depend-replace", DEPEND_REPLACE),
    ("recipe", RECIPE),
    ("recipe-insert", RECIPE_INSERT),
    ("recipe-set", RECIPE_SET),
    ("recipe-del", RECIPE_DEL),
    ("recipe-replace", RECIPE_REPLACE),
    ("recipe-remove", RECIPE_REMOVE),
    ("recipe-subst", RECIPE_SUBST),
    ("recipes-subst", RECIPES_SUBST),
    ("insert", INSERT),
    ("line-replace", LINE_REPLACE),
    ("line-remove", LINE_REMOVE),
    ("rule-replace", RULE_REPLACE),
    ("rule-remove", RULE_REMOVE),
    ("rename", RENAME),
    ("nth", NTH),
    ("all", ALL),
    ("undo", UNDO),
    ("redo", REDO),
    ("begin", BEGIN),
    ("end", END),
    ("cancel", CANCEL),
    ("try", TRY),
    ("or", OR),
];

/// The word of each command, and what is said of it. The proof of who asks for them has none of the texts
/// before it.
pub(crate) fn texts() -> &'static [(&'static str, &'static str)] {
    &TEXTS
}
