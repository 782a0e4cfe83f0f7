//! Laws of an index that takes up added facts.
ghost use Rattle.index_meaning.specs.Progress.{TakingUpIsListed, RestIsTakenUp, TakenUpIsAtRest, NothingIsTakenUp};
ghost use Rattle.index_meaning.specs.Progress.{FactsAreAdded, OneArrives, OneIsJudged, OneIsEntered};

/// Meanwhile each row of `changes` is that of a change of a genuine claim.
pub fn taking_up_is_listed()
    ensures { TakingUpIsListed }
{}

/// At rest nothing is left to be taken up.
pub fn rest_is_taken_up()
    ensures { RestIsTakenUp }
{}

/// If all facts have arrived, nothing is left and the rows of holders are right, then the tables are at rest.
pub fn taken_up_is_at_rest()
    ensures { TakenUpIsAtRest }
{}

/// Tables without rows have taken up every fact that has arrived, which is none.
pub fn nothing_is_taken_up()
    ensures { NothingIsTakenUp }
{}

/// Facts that are added change nothing before they arrive.
pub fn facts_are_added()
    ensures { FactsAreAdded }
{}

/// The refs that become ready as a ref arrives are left to be judged, and to be entered.
pub fn one_arrives()
    ensures { OneArrives }
{}

/// A ref that was judged is no longer left.
pub fn one_is_judged()
    ensures { OneIsJudged }
{}

/// A ref that was entered is no longer left.
pub fn one_is_entered()
    ensures { OneIsEntered }
{}
