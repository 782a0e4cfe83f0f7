//! Laws of the tables.
ghost use Rattle.index_meaning.specs.Laws.{RowsAreRingless, RowsTellDeletion, RowsTellValues, RowsTellLastChange};
ghost use Rattle.index_meaning.specs.Laws.{RowsTellHolders, RowIsOfHolder, RowsTellStates};
ghost use Rattle.index_meaning.specs.Laws.{UnconcernedStay, RowsAreListed};

/// At rest the rows of `state` say which refs are ready, genuine and sound trees, and count which are deleted.
pub fn rows_tell_states()
    ensures { RowsTellStates }
{}

/// The rows of the genuine delete claims are those of ready ones, so no chain of them is a ring.
pub fn rows_are_ringless()
    ensures { RowsAreRingless }
{}

/// The refs that the rows of the genuine delete claims delete are those that are deleted, at each date.
pub fn rows_tell_deletion()
    ensures { RowsTellDeletion }
{}

/// The rows of the changes of a genuine permanode give the values of its attributes, at each date.
pub fn rows_tell_values()
    ensures { RowsTellValues }
{}

/// The last of these rows that counts has the date of its last change.
pub fn rows_tell_last_change()
    ensures { RowsTellLastChange }
{}

/// At rest the rows of a value of an attribute are those of its holders, in their order.
pub fn rows_tell_holders()
    ensures { RowsTellHolders }
{}

/// At rest a permanode has a row under a value of an attribute exactly if it is among its holders.
pub fn row_is_of_holder()
    ensures { RowIsOfHolder }
{}

/// As facts are added, a permanode keeps its values if its row, its changes and the deletion of these stay the same.
pub fn unconcerned_stay()
    ensures { UnconcernedStay }
{}

/// The rows of the changes of genuine claims are each of a claim whose row says that it is genuine.
pub fn rows_are_listed()
    ensures { RowsAreListed }
{}
