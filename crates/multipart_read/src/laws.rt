//! Laws of multipart bodies (`docs/formats/multipart.md`).
ghost use Rattle.multipart_read.specs.Laws.{OneReading, SomeReading, BodiesEnd, PiecesJoin, WholeBody, LittleWaits};
ghost use Rattle.multipart_read.specs.MarkTexts.{MarksAreSeen, SeenMarksStand, AbsentMarksStandNowhere};
ghost use Rattle.multipart_read.specs.MarkTexts.{UndecidedMayBecome, FirstIsFirst};
ghost use Rattle.multipart_read.specs.ParameterTexts.{ValuesAreFirst};
ghost use Rattle.multipart_read.specs.PartLists.{BodiesHaveParts, OneListOfParts, ToldInOrder};

/// Each body has one reading, and none is without. It ends by its close, at a place within the body, or where a limit
/// was passed. However it is cut into pieces, a reader that is fed them tells what the body tells, and holds back
/// little.
pub fn bodies_and_pieces()
    ensures one { OneReading }
    ensures some { SomeReading }
    ensures ends { BodiesEnd }
    ensures join { PiecesJoin }
    ensures whole { WholeBody }
    ensures little { LittleWaits }
{}

/// A delimiter, or the close, is seen exactly where its text stands, and the first that is seen is the first of all.
/// Bytes of which it isn't known whether they begin one do so with some bytes behind them.
pub fn marks_and_texts()
    ensures seen { MarksAreSeen }
    ensures stands { SeenMarksStand }
    ensures nowhere { AbsentMarksStandNowhere }
    ensures undecided { UndecidedMayBecome }
    ensures first { FirstIsFirst }
{}

/// A body has one list of parts, and where its close has come none was cut. At any time what a reader has told is parts
/// in their order, and the front of at most one more.
pub fn bodies_and_parts()
    ensures have { BodiesHaveParts }
    ensures one { OneListOfParts }
    ensures order { ToldInOrder }
{}

/// The value of a parameter that is read, as the boundary of a content type and the name of a part are, is the first of
/// its name in a text that is written by the grammar, and each text that is written so is read.
pub fn parameters_and_texts()
    ensures { ValuesAreFirst }
{}
