//! A job after which a count is kept.
ghost use Rattle.std.specs.Prelude.{◌≡◌, Some};

use std::snapshot::Snapshot;

/// A job, and a count for its seat after it is done: the blobs that have arrived, or the numbers that were inserted.
#[derive(Drop)]
pub struct Counted<J> {
    pub job: Option<J>,
    /// The job before it is done.
    pub was: Snapshot<J>,
    pub count: u64,
}

impl<J> Counted<J> {
    /// A job that is still to be done.
    pub fn of(job: J) -> Counted<J>
        ensures job { result.job ≡ Some job }
        ensures was { result.was.value ≡ job }
    {
        let was = Snapshot::of(&job);
        Counted {
            job: Some(job),
            was,
            count: 0,
        }
    }
}
