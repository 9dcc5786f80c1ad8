//! What the words of the command line can ask for.
ghost use Rattle.std.specs.Prelude.{◌≡◌, ◌≢◌};

/// The greatest depth that the command line takes: how many edits can be undone.
pub const MAX_DEPTH: u32 = 10_000;

/// What a query lists of a makefile.
#[derive(Clone, Copy)]
pub enum Query<'a> {
    /// Its assignments; where there is a name, those of that name alone.
    Vars(Option<&'a [u8]>),
    /// Its rules; where there is a target, those for that target alone.
    Rules(Option<&'a [u8]>),
    /// The recipe lines of its rules; where there is a target, of those for that target alone.
    Recipes(Option<&'a [u8]>),
    /// The lines that are kept and not read inside.
    Check,
    /// The same, with the text of each line.
    CheckTexts,
    /// The lines that make may read otherwise.
    Caveats,
}

/// What a makefile is asked for.
#[derive(Clone, Copy)]
pub enum Question<'a> {
    /// What a query lists, in this form.
    List(Query<'a>, Form),
    /// The value of the assignment of this name that `set` takes: that with this number, from 1, or the
    /// only one; in this form.
    Value(Option<u32>, &'a [u8], Form),
}

impl<'a> Question<'a> {
    /// The question as a person asks it, who wants to see the lines that `check` lists.
    pub fn for_person(self) -> Question<'a> {
        match self {
            Question::List(Query::Check, Form::Text) => Question::List(
                Query::CheckTexts,
                Form::Text,
            ),
            question => question,
        }
    }
}

/// How an answer is written.
#[derive(Clone, Copy, Debug, PartialEq, Eq)]
pub enum Form {
    /// As lines for a person.
    Text,
    /// As lines of JSON for a program: each is an object.
    Json,
}

/// Where bytes come from.
#[derive(Clone, Copy)]
pub enum Input<'a> {
    /// Standard input.
    Standard,
    /// The file of this name.
    File(&'a str),
}

/// Where the commands of an edit come from.
#[derive(Drop)]
pub enum Script<'a> {
    /// This input.
    From(Input<'a>),
    /// The command line: these lines.
    Lines(String),
}

/// Where the text of an edit goes.
#[derive(Clone, Copy)]
pub enum Output<'a> {
    /// To standard output.
    Standard,
    /// To the file of this name, which is written in place of what it has.
    File(&'a str),
    /// To the makefile itself, which is the old file or the new one at every moment.
    InPlace(Backup<'a>),
    /// Nowhere: the commands are tried.
    Nowhere,
}

impl Output<'_> {
    /// Whether a run knows if it changed the makefile: a text that is printed is not compared with it.
    pub fn is_compared(self, is_diff: bool) -> bool {
        match self {
            Output::Standard => is_diff,
            Output::File(_) => false,
            Output::InPlace(_) | Output::Nowhere => true,
        }
    }
}

/// Whether an old makefile is kept: what its second name has at its end, if it is. That is not empty,
/// and has no `/`.
#[derive(Clone, Copy)]
pub struct Backup<'a>(pub Option<&'a str>);

/// How refusals and messages are told on standard error.
#[derive(Clone, Copy, Debug, PartialEq, Eq)]
pub enum Report {
    /// In a line each.
    Plain,
    /// In a line each, with notes below it.
    Notes,
    /// In lines of JSON: in one for each of them, for each note and for each makefile.
    Json,
}

impl Report {
    /// The same, unless plain lines go to a terminal, where they get notes.
    pub fn at(self, is_terminal: bool) -> Report
        ensures { self ≢ Report.Plain → result ≡ self }
    {
        match self {
            Report::Plain if is_terminal => Report::Notes,
            report => report,
        }
    }
}

/// When a diff has colours.
#[derive(Clone, Copy, Debug, PartialEq, Eq)]
pub enum Color {
    /// Where it goes to a terminal, and the environment has no `NO_COLOR` that is not empty.
    Auto,
    /// In each case.
    Always,
    /// In no case.
    Never,
}

/// What the words of `mkedit edit` say.
#[derive(Drop)]
pub struct EditWords<'a> {
    /// Whether the commands after a refused one are done.
    pub keep_going: bool,
    /// How many edits can be undone.
    pub depth: u32,
    /// How refusals and messages are told.
    pub report: Report,
    /// Where the text of each makefile goes.
    pub output: Output<'a>,
    /// Whether the diff of the makefile and the text goes there, in place of the text.
    pub is_diff: bool,
    /// When that diff has colours.
    pub color: Color,
    /// Whether a makefile that the script would change fails.
    pub wants_no_change: bool,
    /// Whether a line at the end says how many makefiles were changed, also for one and elsewhere than at a
    /// terminal.
    pub has_summary: bool,
    /// Whether a script is edited too that stands among several makefiles.
    pub force_text: bool,
    /// Where the commands come from.
    pub script: Script<'a>,
    /// The makefiles, one or more. Several stand only beside an output in place, beside which each is
    /// the name of a file, beside diffs to standard output, and where the commands are tried. None is
    /// standard input where the script is.
    pub files: Vec<Input<'a>>,
}

/// What the words of a query, or of `mkedit get`, say.
#[derive(Drop)]
pub struct QueryWords<'a> {
    /// What each makefile is asked, one or more.
    pub questions: Vec<Question<'a>>,
    /// How refusals and messages are told.
    pub report: Report,
    /// The makefiles, one or more.
    pub files: Vec<Input<'a>>,
}

/// What the words of `mkedit derive` say.
#[derive(Clone, Copy)]
pub struct DeriveWords<'a> {
    /// The name of the file that the script goes to; standard output if there is none.
    pub output: Option<&'a str>,
    /// How messages are told.
    pub report: Report,
    /// The makefile as it is.
    pub old: Input<'a>,
    /// The makefile as the script is to make it. Not both are standard input.
    pub new: Input<'a>,
}

/// What the words of `mkedit session` say.
#[derive(Clone, Copy)]
pub struct SessionWords<'a> {
    /// How many edits can be undone.
    pub depth: u32,
    /// Whether the replies are those of the protocol, also at a terminal.
    pub by_protocol: bool,
    /// How answers are written. Lines of JSON have the replies of the protocol round them in each case,
    /// whatever `by_protocol` says.
    pub form: Form,
    /// Whether a makefile that is missing is opened as an empty one.
    pub may_be_new: bool,
    /// When the changes that are shown at a terminal have colours.
    pub color: Color,
    /// The name of the makefile, which is not `-`.
    pub file: &'a str,
}

/// What the command line asks for. `R` is what a refusal is for the caller.
#[derive(Drop)]
pub enum Request<'a, R> {
    /// A script over makefiles.
    Edit(EditWords<'a>),
    /// A script out of two makefiles.
    Derive(DeriveWords<'a>),
    /// A question to makefiles.
    Query(QueryWords<'a>),
    /// What is said of a refusal.
    Explain(R),
    /// A session over a makefile.
    Session(SessionWords<'a>),
}
