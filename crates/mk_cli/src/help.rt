//! The texts of help: what each command does, with an example of it.

/// Below the help of the program itself.
pub(crate) const PROGRAM: &str = "\
Examples:
    mkedit edit use-clang config.mk              runs the script use-clang and prints the result
    mkedit edit --diff use-clang config.mk       prints what would change
    mkedit edit -i use-clang config.mk           changes the file
    mkedit edit -e 'set CC clang' config.mk      runs one command and prints the result
    mkedit vars config.mk                        lists the assignments of config.mk

`mkedit help COMMAND` explains a command, or a command of a script: `mkedit help set`.
";

const EDIT_USAGE: &str = "mkedit edit [OPTIONS] SCRIPT [FILE]
       mkedit edit [OPTIONS] -e COMMAND [-e COMMAND ...] [FILE]
       mkedit edit [OPTIONS] (-i | --diff | --check) SCRIPT FILE...
       mkedit edit [OPTIONS] (-i | --diff | --check) -e COMMAND [-e COMMAND ...] FILE...";

const EDIT: &str = "\
A line of the script is a command, a comment that begins with #, or blank:
    set NAME VALUE            append NAME VALUE           prepend NAME VALUE
    add NAME WORD             drop NAME WORD              replace NAME WORD VALUE
    add-before NAME WORD NEW  add-after NAME WORD NEW     subst NAME FROM TO
    set-if NAME OLD VALUE     operator NAME OP            values-subst FROM TO
    unset NAME                comment-out NAME            uncomment NAME
    assign PLACE NAME OP VALUE                            rename OLD NEW
    rule PLACE TARGETS SEP PREREQS                        unrule TARGET
    depend TARGET WORD        depend-order TARGET WORD    undepend TARGET WORD
    depend-replace TARGET OLD NEW                         recipe TARGET LINE
    recipe-insert TARGET K LINE                           recipe-set TARGET K LINE
    recipe-replace TARGET OLD LINE                        recipe-remove TARGET OLD
    recipe-subst TARGET FROM TO                           recipe-del TARGET K
    recipes-subst FROM TO     insert PLACE BLOCK          line-replace OLD BLOCK
    line-remove OLD           rule-replace TARGET BLOCK   rule-remove TARGET
    nth N COMMAND             all COMMAND                 try COMMAND    or COMMAND
    undo    redo    begin    end    cancel
PLACE is top, bottom, before-var NAME, after-var NAME, after-last-var NAME, before-rule TARGET or
after-rule TARGET, and for insert also before-line OLD or after-line OLD. BLOCK is a whole line, and so
is OLD there and in line-replace and line-remove; or it is <<WORD, and its lines stand below the command,
up to the line WORD. OP is one of = := ::= :::= ?= += != and SEP one of : and ::. Put double quotes around
a field that has blanks in it or is empty. Between quotes \\\" is a quote and \\\\ a backslash; elsewhere
each of the two is itself. `nth N` before a command picks the N-th of several lines that it could mean;
`all` means all of them, and stands before set, set-if, append, prepend, add, drop, replace, subst or
operator. With `try` before an edit, having nothing to do is not an error. With `or` before an edit, it is
made if the edit in the line above finds no line to edit. Commands run in order, each on the result of
those above it. `mkedit help set` explains `set`, and so for each word.

The result goes to standard output, or to OUT. If a command is refused, a line on standard error says
which one and why, and nothing is written unless -k is given. `mkedit explain 4` or `mkedit explain
NoSuch` explains the refusal 4 NoSuch. --notes shows the lines of the makefile that are the cause, and
what is wrong with a line of the script that is not a command.

Several FILEs may follow with -i, --diff or --check; each is edited on its own. If a command is refused,
its file stays as it was, and the others go on. Each line on standard error begins with the name of its
file. With --summary the last line says how many were changed. For programs, --report json prints one JSON
object for each refusal, note and message, and for what became of each FILE; docs/PROTOCOL.md lists the members.

Example: with `CC = gcc # c` in config.mk, and `set CC clang` in use-clang,
    mkedit edit use-clang config.mk
prints `CC = clang # c`, and
    mkedit edit -i use-clang config.mk
changes the file. Before that,
    mkedit edit --diff use-clang config.mk
prints what would change, as a diff that `patch -p1` accepts. Without a script,
    mkedit edit -e 'set CC clang' -e 'append CC -flto' config.mk
runs these two commands, as lines 1 and 2.

Status: 0 done, 1 a command was refused, 2 a bad command line or script, 3 a read or write error, a
makefile beyond the limits, or no memory.
";

const VARS: &str = "\
Prints one line per assignment: its line number, how many conditionals are open there, and the
assignment with continued lines joined and without its comment.

Example: with `ifdef DEBUG`, `export CFLAGS += -g  # slow`, `endif` and `all: CC = gcc` in config.mk,
    mkedit vars config.mk
prints
    2:1: export CFLAGS += -g
    4:0: all: CC = gcc
and with `--name CC` only the second of these lines. If there is no such line it prints nothing, and the
status is 0. docs/EDITS.md lists the members of the objects that --json prints.
";

const RULES: &str = "\
Prints one line per rule: its line number, how many conditionals are open there, the line with
continued lines joined, and how many recipe lines the rule has.

Example: with `all: main.o | build ; ld main.o`, a recipe line below it, and `%.o: %.c` in a Makefile,
    mkedit rules Makefile
prints
    1:0: all: main.o | build [2]
    3:0: %.o: %.c [0]
and with `--target all` only the first of these lines. If there is no such line it prints nothing, and
the status is 0.
";

const RECIPES: &str = "\
Prints one line per rule that has recipe lines: its line number, how many conditionals are open there,
and its targets. Below it stands one line per recipe line: the same two numbers, the number of the recipe
line in the rule, which `recipe-set`, `recipe-del` and `recipe-insert` take, and the command with
continued lines joined. A command after a `;` in the line of a rule has no such number and is not listed.

Example: with `all: main.o ; ld main.o`, two recipe lines `strip all` and `ls -l` below it in a Makefile,
    mkedit recipes Makefile
prints
    1:0: all:
    2:0: [1] strip all
    3:0: [2] ls -l
With `--target all` it prints only rules for `all`.
";

const CHECK: &str = "\
Prints one line per line that mkedit cannot parse and never edits: its line number, and `rough` for a
rule with something in it that mkedit does not read, such as a backslash, or `opaque` for any other line.
Then come the conditionals and defines that are still open at the end, if there are any.

Example: with `all: a\\ b`, `$(eval $(call rules,all))` and `ifdef DEBUG` in a Makefile,
    mkedit check Makefile
prints
    1: rough
    2: opaque
    end: conditionals 1
";

const CAVEATS: &str = "\
Prints one line per line that make may read differently from mkedit: its line number, and what make may
do with it. Look at these lines before an edit. docs/LANGUAGE.md says what each sentence means, and what
else make may read differently without being listed here.

Example: with `all:`, `ifdef DEBUG`, `X = 1`, `endif` and a line of a tab and `Y = 2` in a Makefile,
    mkedit caveats Makefile
prints
    5: make may take this for a recipe line: it may skip the conditional above
since make skips `X = 1` where DEBUG is not set, and then the tab begins a recipe line of all.
";

const GET: &str = "\
Prints the value of the assignment that the command `set` of a script would change: the only one of NAME,
or the one that --nth picks. Continued lines are joined, and the comment is left out. An empty value
gives an empty line. If `set` would be refused for NAME or for its line, so is `get`: a line on standard
error says why, and the status is 1. `get CC,AR` prints the values of both names, in this order.

Example: with `ifdef DEBUG`, `CC = gcc -g  # slow`, `else`, `CC = gcc`, `endif` and `AR = ar` in config.mk,
    mkedit get AR config.mk
prints `ar`,
    mkedit get --nth 1 CC config.mk
prints `gcc -g`, and without `--nth 1` it says
    refused 5 Ambiguous 2
";

const DERIVE: &str = "\
The commands name variables, rules, words and texts, so the script often applies to other releases of the
makefile, where a patch does not. It is tried before it is printed: `mkedit edit` with it makes NEW of OLD,
byte for byte. The script of equal makefiles is empty. If no command can write some lines, nothing is
printed, a line on standard error names them and says why, and the status is 1.

Example: with `CFLAGS = -O2 -Wall` in Makefile.orig and `CFLAGS = -O2` in Makefile,
    mkedit derive Makefile.orig Makefile
prints
    drop CFLAGS -Wall
";

const EXPLAIN: &str = "\
For each refused command mkedit prints a line on standard error, such as
    3: refused 4 NoSuch
for line 3 of the script. `explain` takes the number or the name of the refusal. The number is not the
exit status, which is 1.

Example:
    mkedit explain 4
    mkedit explain NoSuch
both print the cause of this refusal, an example and what to do.
";

const SESSION: &str = "\
Each line of standard input is a command of a script, as `mkedit help edit` lists them, or a request:
    print    print FROM    print FROM TO    diff    vars    rules    recipes    check    caveats
    vars NAME    rules TARGET    recipes TARGET    get NAME    nth N get NAME    history    script
    help    help COMMAND    explain REFUSAL
    write    write!    write FILE    revert    quit    quit!
Each is answered at once, a command with a block behind the block's last line: the lines of an answer,
each after `| `, and then a line `ok`, `refused` with the number and the name of the refusal, or `fault`
with what is wrong. The first line is the version of this protocol, which docs/PROTOCOL.md describes. Only
`write` and `write!` change FILE. At a terminal the replies are sentences, and each edit shows the lines
that it changes, in colours. With --json each line of an answer is a JSON object.

Example: with `CC = gcc # c` in config.mk and the lines `set CC clang`, `print`, `undo`, `undo` and `quit`,
    mkedit session config.mk
prints
    mkedit session 1
    ok
    | CC = clang # c
    ok
    ok
    refused 16 NothingToUndo
    ok
";

/// How a command is called, where that is more than its arguments say.
pub(crate) fn usage(command: &str) -> Option<&'static str> {
    match command {
        "edit" => Some(EDIT_USAGE),
        _ => None,
    }
}

/// What stands below the help of a command: what it prints, with an example.
pub(crate) fn example(command: &str) -> &'static str {
    match command {
        "edit" => EDIT,
        "derive" => DERIVE,
        "vars" => VARS,
        "rules" => RULES,
        "recipes" => RECIPES,
        "check" => CHECK,
        "caveats" => CAVEATS,
        "get" => GET,
        "explain" => EXPLAIN,
        "session" => SESSION,
        _ => "",
    }
}
