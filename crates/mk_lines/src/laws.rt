//! Laws of lines, cells, units and words: each contract is a theorem on the definitions that the
//! calls of this crate are specified by. The functions do nothing.
ghost use Rattle.mk_lines.specs.LineLaws.{CellsAreBytesOrFolds, CellsJoined, ClosedByUnits, FileEndsAsFirstLine, JoinedUnits, LinesAreLocal, LinesAreSingle, LinesJoined, RangesCut, RawOffsetsCut, UnitsAreFirstUnits, UnitsJoined, UnitsOfClosed, WordsAreRuns};

/// The logical lines of a text, joined, are the text.
pub fn lines_joined()
    ensures { LinesJoined }
{}

/// Each logical line of a text is, by itself, one logical line.
pub fn lines_are_single()
    ensures { LinesAreSingle }
{}

/// Logical lines are local: if a text replaces a run of lines, the lines above and below stay, and
/// the lines of that text stand between them.
///
/// The run may be empty, and so may the text. If lines stand below the text, it has to end a line
/// (it is empty, or has a line end and is not continued). If it is put at the end, what stands
/// above it has to end a line.
pub fn lines_are_local()
    ensures { LinesAreLocal }
{}

/// The first logical line of a text alone tells the line end of the text's new lines.
pub fn file_ends_as_its_first_line()
    ensures { FileEndsAsFirstLine }
{}

/// The raw bytes of a line's cells, joined, are the line without its line end.
pub fn cells_joined()
    ensures { CellsJoined }
{}

/// The cells of a logical line are bytes and folds: its text has no line end except in its folds.
pub fn cells_are_bytes_or_folds()
    ensures { CellsAreBytesOrFolds }
{}

/// The units of a text, joined, are the text.
pub fn units_joined()
    ensures { UnitsJoined }
{}

/// What a unit is: the units of a text are its first unit and then the units of what follows it.
///
/// The first unit is a reference up to the least offset at which its own two brackets are level, or
/// to the end of the text if there is no such offset; a dollar with the byte after it; a backslash
/// with the byte after it, unless that is a dollar; or one byte.
pub fn units_are_first_units()
    ensures { UnitsAreFirstUnits }
{}

/// A text is closed if no unit is a lone dollar or an unclosed reference, and the last unit is not
/// a lone backslash.
pub fn closed_by_units()
    ensures { ClosedByUnits }
{}

/// The units of a closed text followed by any text are its own units and then those of that text.
pub fn units_of_closed()
    ensures { UnitsOfClosed }
{}

/// The units and the words of a line's joined text are those of its cells.
pub fn joined_units()
    ensures { JoinedUnits }
{}

/// Words are the maximal runs of units that are not single blanks.
pub fn words_are_runs()
    ensures { WordsAreRuns }
{}

/// The ranges of a text's logical lines, units and words cut them out of it.
pub fn ranges_cut()
    ensures { RangesCut }
{}

/// A raw offset cuts a line, without its line end, in two: the raw bytes of the cells before the
/// offset, and those of the other cells.
pub fn raw_offsets_cut()
    ensures { RawOffsetsCut }
{}
