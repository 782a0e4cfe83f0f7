//! A law of the refs that are asked after.
ghost use Rattle.blob_routes.specs.Laws.{FurtherTellNothing};

/// Of how many refs are asked after, the numbers up to one above the limit tell enough: looking at further numbers
/// would change no answer and no refusal.
pub fn further_numbers_tell_nothing()
    ensures { FurtherTellNothing }
{}
