//! A writer that ends by itself.
use crossbeam_utils::rule::Protocol;
use left_right::Absorb;
use left_right::writer::Writer;
use std::sync::Wait;

/// A writer with a handle that may wait. Unlike a writer alone it can be dropped, which waits until the readers have
/// left one copy.
pub struct Ended<T: Absorb<O> + Drop, O: Drop, S, P: Protocol<T, S>, R: Wait + Drop> {
    /// What may wait.
    pub rt: R,
    /// The writer; `None` only while a call has it.
    pub writer: Option<Writer<T, O, S, P>>,
}

impl<T: Absorb<O> + Drop, O: Drop, S, P: Protocol<T, S>, R: Wait + Drop> Drop
    for Ended<T, O, S, P, R> {
    fn drop(self) {
        let Self { rt, writer } = self;
        match writer {
            Some(writer) => {
                let _copy = writer.take(&rt);
            }
            None => {}
        }
    }
}
