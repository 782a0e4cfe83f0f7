//! Laws of the tables between the steps in which an index takes up facts.
ghost use Rattle.index_meaning.specs.Steps.{ArrivedGrows, ArrivedStays, ArrivedIsKnown, AllHaveArrived, WaitingStays};
ghost use Rattle.index_meaning.specs.Steps.{RowsAreAsBefore, OneHasArrived};
ghost use Rattle.index_meaning.specs.Steps.{RowsStayRingless, RowDeletionStays, CountedStays, RowsStayListed};
ghost use Rattle.index_meaning.specs.Steps.{HeldStaysWithFacts, HeldStays};
ghost use Rattle.index_meaning.specs.Steps.{JudgedIsLeft, LeftSaysNothing, ChangesAreLeft, DeletesAreLeft};
ghost use Rattle.index_meaning.specs.Steps.{FewerAreLeft, OneLessIsLeft, LeftIsNew};

/// With more rows of `state` more facts have arrived.
pub fn arrived_grows()
    ensures { ArrivedGrows }
{}

/// Facts that are added haven't arrived yet.
pub fn arrived_stays()
    ensures { ArrivedStays }
{}

/// The facts that have arrived are those of the refs that have a row.
pub fn arrived_is_known()
    ensures { ArrivedIsKnown }
{}

/// If each ref with a fact has a row, all facts have arrived.
pub fn all_have_arrived()
    ensures { AllHaveArrived }
{}

/// As facts are added, the refs that wait continue to wait.
pub fn waiting_stays()
    ensures { WaitingStays }
{}

/// Unchanged rows say and count what they did before.
pub fn rows_are_as_before()
    ensures { RowsAreAsBefore }
{}

/// So do the rows when one ref arrives, whichever refs become ready.
pub fn one_has_arrived()
    ensures { OneHasArrived }
{}

/// With more facts, rows of ready delete claims are still those of ready delete claims.
pub fn rows_stay_ringless()
    ensures { RowsStayRingless }
{}

/// With more facts such rows delete exactly the same refs, at each date.
pub fn row_deletion_stays()
    ensures { RowDeletionStays }
{}

/// With more facts the counts of delete claims stay right, if they don't change and are 0 for new refs.
pub fn counted_stays()
    ensures { CountedStays }
{}

/// With more facts each row of `changes` is still that of a change of a genuine claim.
pub fn rows_stay_listed()
    ensures { RowsStayListed }
{}

/// With more facts, if the rows of changes and of delete claims stay, the rows of holders are as right as before.
pub fn held_stays_with_facts()
    ensures { HeldStaysWithFacts }
{}

/// As the tables grow, the rows of holders are as right as before, except for the permanodes that are concerned.
pub fn held_stays()
    ensures { HeldStays }
{}

/// As refs become ready they are left to be judged, and the rows of all other refs are judged.
pub fn judged_is_left()
    ensures { JudgedIsLeft }
{}

/// The row of a ref that is left to be judged doesn't say that it is genuine.
pub fn left_says_nothing()
    ensures { LeftSaysNothing }
{}

/// As refs become ready the changes of the genuine claims among them have no rows yet, and all others have theirs.
pub fn changes_are_left()
    ensures { ChangesAreLeft }
{}

/// As refs become ready the genuine delete claims among them have no rows yet, and all others have theirs.
pub fn deletes_are_left()
    ensures { DeletesAreLeft }
{}

/// A ref that isn't a genuine delete claim needn't be entered.
pub fn fewer_are_left()
    ensures { FewerAreLeft }
{}

/// A genuine delete claim that has its row is no longer left.
pub fn one_less_is_left()
    ensures { OneLessIsLeft }
{}

/// A delete claim that is left has no row yet, and it and its target have arrived.
pub fn left_is_new()
    ensures { LeftIsNew }
{}
