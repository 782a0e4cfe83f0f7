//! Laws of blobs in their order.
ghost use Rattle.file_cut.specs.Laws.{BlobsInOrder};
ghost use Rattle.file_cut.specs.Source.{KeptAreHeld, WrittenIsSource};

/// The blobs of a file are kept in order, and what is kept so far is a front of them.
pub fn blobs_in_order()
    ensures { BlobsInOrder }
{}

/// Where no two blobs share a ref, each blob is held once all are kept, and the bytes of the file that they make are
/// all those of its source, of any name and length that `write_file` takes.
pub fn written_is_source()
    ensures held { KeptAreHeld }
    ensures source { WrittenIsSource }
{}
