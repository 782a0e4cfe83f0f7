//! Blobs arrive as they are found, each ref once.
ghost use Rattle.std.specs.Prelude.{◌≡◌, [], ◌∷◌, ◌++◌, map, All, OnOk, None};
ghost use Rattle.salvage_scan.specs.Pieces.{IsKept, kept_finding};
ghost use Rattle.pack_store.specs.Rows.{number_of};
ghost use Rattle.pack_store.specs.Opening.{IsPlaced, row_of, take_row, take_rows};
ghost use Rattle.pack_store.specs.Onlooking.{Saw, found_as, new_blobs};

use crate::onlooker::Onlooker;
use crate::places::Places;
use crate::rows::Row;
use crate::takers::Taker;
use blobref::NoMemory;
use salvage_scan::{Found, Scanner};

// What has arrived so far, the pack that is read, and who looks on.
#[derive(Drop)]
pub(crate) struct Arrivals<L: Onlooker> {
    pub(crate) pack: u32,
    pub(crate) rows: Vec<Row>,
    pub(crate) places: Places,
    pub(crate) onlooker: L,
}

impl<L: Onlooker> Taker for Arrivals<L> {
    ghost use Rattle.pack_store.specs.Onlooking.{TookUp, took_up_nothing, took_up_then};

    ghost ready = { λ a. IsPlaced a.places a.rows.items };

    ghost takes = { λ a found b. TookUp L.Onlooker a found b };

    ghost takes_nothing = { λ a placed. took_up_nothing _ a placed };

    ghost takes_then = { λ a b c first second. took_up_then _ a b c first second };

    ghost stays_ready = { λ a b found took. took.placed };

    fn take(&mut self, scanner: &Scanner, found: &[Found]) -> Result<(), NoMemory> {
        take_findings(
            self.pack,
            scanner,
            found,
            &mut self.rows,
            &mut self.places,
            &mut self.onlooker,
        )
    }
}

// Takes up the findings of a pack in turn, which the scanner told last.
fn take_findings<L: Onlooker>(
    pack: u32,
    scanner: &Scanner,
    found: &[Found],
    rows: &mut Vec<Row>,
    places: &mut Places,
    onlooker: &mut L,
) -> Result<(), NoMemory>
    requires placed { IsPlaced places.old rows.old.items }
    requires kept { All (IsKept scanner.now) found.now }
    ensures rows { OnOk result (rows.new.items
        ≡ take_rows rows.old.items (map (row_of pack) (map (kept_finding scanner.now) found.now))) }
    ensures placed { OnOk result (IsPlaced places.new rows.new.items) }
    ensures saw { OnOk result (Saw L.Onlooker onlooker.old onlooker.new
        (new_blobs rows.old.items pack (map (kept_finding scanner.now) found.now))) }
{
    for f in found {
        take_finding(pack, f, scanner.bytes(f), rows, places, onlooker)?;
    }
    Ok(())
}

// Takes up a finding with its bytes, unless its ref has arrived.
fn take_finding<L: Onlooker>(
    pack: u32,
    found: &Found,
    bytes: &[u8],
    rows: &mut Vec<Row>,
    places: &mut Places,
    onlooker: &mut L,
) -> Result<(), NoMemory>
    requires { IsPlaced places.old rows.old.items }
    ensures rows { OnOk result (rows.new.items ≡ take_row rows.old.items (row_of pack (found_as found.now bytes.now))) }
    ensures placed { OnOk result (IsPlaced places.new rows.new.items) }
    ensures saw { OnOk result (Saw L.Onlooker onlooker.old onlooker.new
        (new_blobs rows.old.items pack (found_as found.now bytes.now ∷ []))) }
{
    if places.number(&found.r).is_some() {
        return Ok(());
    }
    push(
        Row {
            r: found.r,
            pack,
            at: found.at,
            size: bytes.len() as u64,
        },
        rows,
        places,
    )?;
    onlooker.see(&found.r, bytes)
}

// Puts a row behind the others, none of which has its ref.
fn push(row: Row, rows: &mut Vec<Row>, places: &mut Places) -> Result<(), NoMemory>
    requires placed { IsPlaced places.old rows.old.items }
    requires absent { number_of row.r rows.old.items ≡ None }
    ensures rows { OnOk result (rows.new.items ≡ rows.old.items ++ row ∷ []) }
    ensures placed { OnOk result (IsPlaced places.new rows.new.items) }
{
    places.insert(&row.r, rows.len() as u64)?;
    rows.push(row)?;
    Ok(())
}
