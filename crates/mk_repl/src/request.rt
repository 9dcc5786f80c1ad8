//! What a line asks for that is no command of a script.
ghost use Rattle.std.specs.Prelude.{◌≡◌, ◌≤◌, length, map, option_map};
ghost use Rattle.mk_script.specs.WordReading.{named};
ghost use Rattle.mk_repl.specs.Requests.{after_word, asked_of, before_word, first_word, gap_length, is_gap, number, print_between};
ghost use Rattle.mk_repl.specs.Requests.{get_nth, request_alone, request_by, request_in, request_named, request_of_named, request_with, word_length};

/// A request that is one word.
#[derive(Clone, Copy, Debug, PartialEq, Eq)]
pub enum RequestWord {
    /// `diff`: what has changed since the text was opened.
    Diff,
    /// `vars`: the assignments.
    Vars,
    /// `rules`: the rules.
    Rules,
    /// `recipes`: the recipe lines of the rules.
    Recipes,
    /// `check`: the lines that are kept and not read inside.
    Check,
    /// `caveats`: the lines that make may read otherwise.
    Caveats,
    /// `write`: the text goes into the file, if the file is as it was left.
    Write,
    /// `write!`: the text goes into the file.
    WriteAnyway,
    /// `history`: what can be undone and redone.
    History,
    /// `script`: the edits that stand, as a script.
    Script,
    /// `help`: the commands and the requests.
    Help,
    /// `revert`: all that can be undone is undone.
    Revert,
    /// `quit`: the session ends, if nothing is unwritten.
    Quit,
    /// `quit!`: the session ends.
    QuitAnyway,
}

/// The first word of a request of two words.
#[derive(Clone, Copy, Debug, PartialEq, Eq)]
pub enum RequestOf {
    /// `explain REFUSAL`: what is said of the refusal that this word calls.
    Explain,
    /// `help COMMAND`: what is said of the command of a script that has this word.
    Help,
    /// `get NAME`: the value of the only assignment of this name.
    Get,
    /// `vars NAME`: the assignments of this name.
    Vars,
    /// `rules TARGET`: the rules for this target.
    Rules,
    /// `recipes TARGET`: the recipe lines of the rules for this target.
    Recipes,
    /// `write FILE`: the text goes into another file.
    Write,
}

/// What a line asks for.
#[derive(Clone, Copy, Debug, PartialEq, Eq)]
pub enum Request<'a> {
    /// `print`, `print FROM` or `print FROM TO`: the lines of the text from one number to another. The
    /// first line has the number 1. Without TO the second number is 2^64 - 1, which no line has.
    Print(u64, u64),
    /// `nth N get NAME`: the value of the assignment of this name that has this number, from 1.
    GetNth(u64, &'a [u8]),
    /// A request of two words, by its first word and its second.
    Of(RequestOf, &'a [u8]),
    /// A request of one word.
    Word(RequestWord),
}

const PRINT: &[u8] = b"print";

const NTH: &[u8] = b"nth";

const GET: &[u8] = b"get";

// The requests of one word.
const WORDS: [(RequestWord, &[u8]); 14] = [
    (RequestWord::Diff, b"diff"),
    (RequestWord::Vars, b"vars"),
    (RequestWord::Rules, b"rules"),
    (RequestWord::Recipes, b"recipes"),
    (RequestWord::Check, b"check"),
    (RequestWord::Caveats, b"caveats"),
    (RequestWord::Write, b"write"),
    (RequestWord::WriteAnyway, b"write!"),
    (RequestWord::History, b"history"),
    (RequestWord::Script, b"script"),
    (RequestWord::Help, b"help"),
    (RequestWord::Revert, b"revert"),
    (RequestWord::Quit, b"quit"),
    (RequestWord::QuitAnyway, b"quit!"),
];

// The first words of the requests of two words.
const FIRST_WORDS: [(RequestOf, &[u8]); 7] = [
    (RequestOf::Explain, b"explain"),
    (RequestOf::Help, b"help"),
    (RequestOf::Get, GET),
    (RequestOf::Vars, b"vars"),
    (RequestOf::Rules, b"rules"),
    (RequestOf::Recipes, b"recipes"),
    (RequestOf::Write, b"write"),
];

// The most digits that a number may have.
const MOST_DIGITS: usize = 9;

// Whether a byte stands between words.
fn is_gap(byte: u8) -> bool
    ensures { result ≡ is_gap byte }
{
    matches!(byte, b' ' | b'\t' | b'\r' | b'\n')
}

// How many bytes stand before the first word of a text.
fn gap_length(text: &[u8]) -> usize
    ensures count { result ≡ gap_length text.now }
    ensures within { result ≤ length text.now }
{
    text.iter().take_while(|byte| is_gap(**byte)).count()
}

// A text without what stands before its first word.
fn before_word(text: &[u8]) -> &[u8]
    ensures { result.now ≡ before_word text.now }
{
    &text[gap_length(text)..]
}

// How many bytes a text has before its first gap.
fn word_length(text: &[u8]) -> usize
    ensures count { result ≡ word_length text.now }
    ensures within { result ≤ length text.now }
{
    text.iter().take_while(|byte| !is_gap(**byte)).count()
}

// The first word of a text, which is empty where there is none, and what follows it.
fn first_word(text: &[u8]) -> (&[u8], &[u8])
    ensures word { result.0.now ≡ first_word text.now }
    ensures rest { result.1.now ≡ after_word text.now }
{
    let text = before_word(text);
    text.split_at(word_length(text))
}

// The number that one to nine decimal digits write.
fn number(word: &[u8]) -> Option<u64>
    ensures { result ≡ number word.now }
{
    if word.len() > MOST_DIGITS || word.is_empty() {
        return None;
    }
    let mut value = 0u64;
    for digit in word {
        if !digit.is_ascii_digit() {
            return None;
        }
        value = 10 * value + u64::from(*digit - b'0');
    }
    Some(value)
}

// What the first row of a table with this word has.
fn named<K: Copy>(mut table: &[(K, &[u8])], word: &[u8]) -> Option<K>
    ensures { result ≡ named (map (λ row. (row.0, row.1.now)) table.entry.now) word.now }
{
    while let [row, rest @ ..] = table {
        if word == row.1 {
            return Some(row.0);
        }
        table = rest;
    }
    None
}

// The request of one word that a word is.
fn request_named(word: &[u8]) -> Option<RequestWord>
    ensures { result ≡ request_named word.now }
{
    named(&WORDS, word)
}

// The request of two words whose first word this is.
fn request_of_named(word: &[u8]) -> Option<RequestOf>
    ensures { result ≡ request_of_named word.now }
{
    named(&FIRST_WORDS, word)
}

// A request with one word behind its first.
fn request_with<'a>(first: &[u8], second: &'a [u8]) -> Option<Request<'a>>
    ensures { option_map asked_of result ≡ request_with first.now second.now }
{
    if first == PRINT {
        Some(Request::Print(number(second)?, u64::MAX))
    } else {
        Some(Request::Of(request_of_named(first)?, second))
    }
}

// The lines from one number to another.
fn print_between<'a>(from: &[u8], to: &[u8]) -> Option<Request<'a>>
    ensures { option_map asked_of result ≡ print_between from.now to.now }
{
    Some(Request::Print(number(from)?, number(to)?))
}

// The value of one of several assignments.
fn get_nth<'a>(nth: &[u8], name: &'a [u8]) -> Option<Request<'a>>
    ensures { option_map asked_of result ≡ get_nth nth.now name.now }
{
    Some(Request::GetNth(number(nth)?, name))
}

// The request of a word alone.
fn request_alone<'a>(word: &[u8]) -> Option<Request<'a>>
    ensures { option_map asked_of result ≡ request_alone word.now }
{
    if word == PRINT {
        Some(Request::Print(1, u64::MAX))
    } else {
        Some(Request::Word(request_named(word)?))
    }
}

// The request of a line by its first four words, of which an empty one is none, and by what follows.
fn request_by<'a>(
    first: &[u8],
    second: &'a [u8],
    third: &[u8],
    fourth: &'a [u8],
    rest: &[u8],
) -> Option<Request<'a>>
    ensures { option_map asked_of result
        ≡ request_by first.now second.now third.now fourth.now rest.now }
{
    if second.is_empty() {
        return request_alone(first);
    }
    if third.is_empty() {
        return request_with(first, second);
    }
    if fourth.is_empty() && first == PRINT {
        return print_between(second, third);
    }
    if rest.is_empty() && first == NTH && third == GET && !fourth.is_empty() {
        return get_nth(second, fourth);
    }
    None
}

/// What a line asks for, if it is a request: its words have blanks between them, and perhaps before and
/// after them, which are spaces, tabs and the bytes of a line end. A number has one to nine decimal
/// digits.
pub fn read_request(line: &[u8]) -> Option<Request<'_>>
    ensures { option_map asked_of result ≡ request_in line.now }
{
    let (first, rest) = first_word(line);
    let (second, rest) = first_word(rest);
    let (third, rest) = first_word(rest);
    let (fourth, rest) = first_word(rest);
    request_by(first, second, third, fourth, before_word(rest))
}
