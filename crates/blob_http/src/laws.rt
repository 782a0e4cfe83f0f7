//! Laws of what a connection is answered, over what `serve_connection` says of each answer (`AnswerHolds`).
ghost use Rattle.blob_http.specs.Complete.{ValidIsServed};
ghost use Rattle.blob_http.specs.Finding.{SearchesFind};

/// A search finds each blob of the history that its first turn shows: the blob is among the arrivals that its entry
/// counts, and its number among the Inserts over which it is answered. Where what joins the history behind that turn
/// has later turns, these are the blobs that were put in earlier turns, by whichever pass.
pub fn searches_find()
    ensures { SearchesFind }
{}

/// A valid request gets its answer: where no refusal fits it, by its head or by its body, and no entry under the turns
/// that it drew shows a fault of the disk, damage, or a full store, its answer is the one that is defined, or there was
/// no memory.
pub fn valid_requests_are_served()
    ensures { ValidIsServed }
{}
