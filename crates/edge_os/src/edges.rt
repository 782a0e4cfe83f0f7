//! Readers and writers as sources and sinks. They don't tell what they hold, and count their failures.
ghost use Rattle.std.specs.Prelude.{◌≡◌, IfOk, None, Ok};
ghost use Rattle.edge_base.specs.Edge.{one_more, HasCause};

use crate::again;
use edge_base::{Failed, Sink, Source};
use std::io::{Read, Write};

/// A reader as a source.
#[derive(Drop)]
pub struct ReadSource<R> {
    reader: R,
    faults: u64,
}

impl<R> ReadSource<R> {
    /// A source that hasn't failed so far.
    pub fn new(reader: R) -> ReadSource<R>
        ensures { result.faults ≡ 0 }
    {
        ReadSource { reader, faults: 0 }
    }
}

impl<R: Read> Source for ReadSource<R> {
    ghost left = { λ _. None };

    ghost faults = { λ source. source.faults };

    fn read(&mut self, buf: &mut [u8]) -> Result<usize, Failed> {
        counted(again::read(&mut self.reader, buf), &mut self.faults)
    }

    fn faults(&self) -> u64 {
        self.faults
    }
}

/// A writer as a sink. A write that takes nothing has failed.
#[derive(Drop)]
pub struct WriteSink<W> {
    writer: W,
    faults: u64,
}

impl<W> WriteSink<W> {
    /// A sink that hasn't failed so far.
    pub fn new(writer: W) -> WriteSink<W>
        ensures { result.faults ≡ 0 }
    {
        WriteSink { writer, faults: 0 }
    }

    /// The writer.
    pub fn writer(&self) -> &W
        ensures { result.now ≡ self.now.writer }
    {
        &self.writer
    }
}

impl<W: Write> Sink for WriteSink<W> {
    ghost written = { λ _. None };

    ghost faults = { λ sink. sink.faults };

    fn write(&mut self, piece: &[u8]) -> Result<usize, Failed> {
        match again::write(&mut self.writer, piece) {
            Ok(n) if n > 0 || piece.is_empty() => Ok(n),
            _ => {
                self.faults = after_fault(self.faults);
                Err(Failed)
            }
        }
    }

    fn faults(&self) -> u64 {
        self.faults
    }
}

/// What a call gave, where a failure is counted.
pub fn counted<T: Drop, E: Drop>(done: Result<T, E>, faults: &mut u64) -> Result<T, Failed>
    ensures value { IfOk result (λ value. done ≡ Ok value) }
    ensures cause { HasCause faults.old faults.new result }
{
    match done {
        Ok(value) => Ok(value),
        Err(_) => {
            *faults = after_fault(*faults);
            Err(Failed)
        }
    }
}

// A count of faults after one more. At the last value of its type it stays.
fn after_fault(faults: u64) -> u64
    ensures { result ≡ one_more faults }
{
    faults.saturating_add(1)
}
