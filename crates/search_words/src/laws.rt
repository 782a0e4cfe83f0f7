//! Laws of search words.
ghost use Rattle.search_words.specs.Laws.{FaultsAreExact, FrontsAreLive, LinesAreRead, LinesAreValid};

/// A line has one reading, and reading it byte by byte gives that.
pub fn lines_are_read()
    ensures { LinesAreRead }
{}

/// A text in UTF-8 is a front of some line exactly where reading it byte by byte isn't stuck.
pub fn fronts_are_live()
    ensures { FrontsAreLive }
{}

/// Of each text in UTF-8 it is said whether it is read, and of one that isn't, why.
pub fn faults_are_exact()
    ensures { FaultsAreExact }
{}

/// What a line asks meets the conditions of a query's constraint, but for its depth.
pub fn lines_are_valid()
    ensures { LinesAreValid }
{}
