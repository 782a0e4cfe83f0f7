//! Who takes up what is found in a pack.
ghost use Rattle.std.specs.Prelude.{List, [], ◌++◌, map, All, OnOk};
ghost use Rattle.salvage_scan.specs.Salvage.{Finding};
ghost use Rattle.salvage_scan.specs.Pieces.{IsKept, kept_finding};

use blobref::NoMemory;
use salvage_scan::{Found, Scanner};

// Takes up what is found in a pack as it is told.
pub(crate) trait Taker {
    // It can take up findings.
    ghost ready: { Self → Type 0 };

    // Taking up these findings leads from one to the other.
    ghost takes: { Self → List Finding → Self → Type 0 };

    // Takes up what the last call of the scanner told.
    fn take(&mut self, scanner: &Scanner, found: &[Found]) -> Result<(), NoMemory>
        requires ready { ready self.old }
        requires kept { All (IsKept scanner.now) found.now }
        ensures { OnOk result (takes self.old (map (kept_finding scanner.now) found.now) self.new) };

    // Nothing is taken up.
    ghost takes_nothing: { (taker : Self) → ready taker → takes taker [] taker };

    // Some, and then others.
    ghost takes_then: { (a b c : Self) (first second : List Finding) → takes a first b → takes b second c → takes a
        (first ++ second) c };

    // Then it can take up more.
    ghost stays_ready: { (a b : Self) (found : List Finding) → takes a found b → ready b };
}
