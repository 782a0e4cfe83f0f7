//! A shelf that is told what is asked next.
ghost use Rattle.file_tree.specs.Reading.{Rests};

use edge_base::Shelf;
use schema_fact::Part;

/// A shelf that is told which blobs are fetched next, so that it may read several of them together.
pub trait PartShelf: Shelf {
    /// Of these parts, in their order, so many bytes from a place on are read next. It is a hint, and a run that puts
    /// nothing: where the shelf tells what it holds, that is as before, so no answer of `fetch` depends on the hint. A
    /// failure is told by no answer but that of the blob's own `fetch`.
    fn look_ahead(&mut self, parts: &[Part], from: u64, count: u64)
        ensures { Rests Self.Shelf self.old self.new };
}
