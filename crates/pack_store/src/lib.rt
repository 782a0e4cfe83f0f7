//! A store of blobs in packs on a disk, which a crash may leave at any moment.
#![tactic(auto)]

mod adding;
mod arrivals;
mod laws;
mod limits;
mod listing;
mod onlooker;
mod opened_laws;
mod opening;
mod pieces;
mod places;
mod putting;
mod reading;
mod records;
mod rows;
mod shelf;
mod store;
mod takers;
mod whole;

pub use laws::{holds_content, lives_keep};
pub use limits::Limits;
pub use onlooker::{Nobody, Onlooker};
pub use opened_laws::puts_last;
pub use opening::OpenFault;
pub use reading::UncheckedBlob;
pub use rows::{Current, Row};
pub use shelf::content_stands;
pub use store::Store;
pub use whole::{PackScan, scan_pack};
