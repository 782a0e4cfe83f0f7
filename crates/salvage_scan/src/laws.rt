//! Laws of salvage.
ghost use Rattle.salvage_scan.specs.Arrivals.{ArrivalsAreFirsts};
ghost use Rattle.salvage_scan.specs.Clean.{CleanPacks};
ghost use Rattle.salvage_scan.specs.Pieces.{Cuttings};
ghost use Rattle.salvage_scan.specs.Rules.{SalvageIsOne};

/// What `scan` finds is the one salvage of a pack by the four cases of docs/formats/packs.md, and the place that it
/// calls broken is the first at which the fourth case applies.
pub fn salvage_rules()
    ensures { SalvageIsOne }
{}

/// What is clean, what is found in and behind a clean pack, and what may be lost behind one that isn't: see
/// docs/formats/packs.md.
pub fn clean_rules()
    ensures { CleanPacks }
{}

/// The arrivals of several packs are each ref at its first finding, with the bytes found there: see
/// docs/formats/packs.md.
pub fn arrival_rules()
    ensures { ArrivalsAreFirsts }
{}

/// However a pack is cut into pieces, a `Scanner` that is fed them tells what `scan` tells of the whole: see
/// docs/formats/packs.md.
pub fn cutting_rules()
    ensures { Cuttings }
{}
