//! Laws of the grammar.
ghost use Rattle.query_read.specs.Grammar.{TablesAscend};
ghost use Rattle.query_read.specs.Laws.{WhatIsReadIsValid};

/// The keys of each object of the grammar (`docs/formats/queries.md`) stand in its table in byte order, and each once.
pub fn tables_ascend()
    ensures { TablesAscend }
{}

/// What is read of a value without a fault (`docs/formats/queries.md`) is a valid query.
pub fn what_is_read_is_valid()
    ensures { WhatIsReadIsValid }
{}
