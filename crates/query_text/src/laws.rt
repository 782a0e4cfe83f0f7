//! Laws of written queries.
ghost use Rattle.query_text.specs.Laws.{DatesAreSpelled, QueriesAreRead};

/// The text of a valid query (`docs/formats/queries.md`) has no fault, and asks for what the query does.
pub fn queries_are_read()
    ensures { QueriesAreRead }
{}

/// There is a function that gives each date its one written text, as the definition of a query's text takes it.
pub fn dates_are_spelled()
    ensures { DatesAreSpelled }
{}
