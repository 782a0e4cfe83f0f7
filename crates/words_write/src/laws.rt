//! Laws of writing search words.
ghost use Rattle.words_write.specs.Laws.{LinesAreReadBack, LinesAreWritten};

/// What is written for a constraint is a line that asks it, with no more parentheses than any other such line; nothing
/// is written exactly where no line asks it.
pub fn lines_are_written()
    ensures { LinesAreWritten }
{}

/// A line that is written is read as the constraint again, where it has at most 1,024 bytes and that nests at most 32
/// deep.
pub fn lines_are_read_back()
    ensures { LinesAreReadBack }
{}
