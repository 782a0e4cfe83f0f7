//! Sources and sinks in memory, and whole transfers.
use blobref::{NoMemory, Octets};
use edge_base::{
    CallList, Failed, MemSink, MemSource, ReadAllError, Sink, Source, read_all, write_all,
};
use std::alloc::Global;

// A list of one call, or of none.
pub(crate) fn failing(alloc: Global, call: Option<u64>) -> Result<CallList, NoMemory> {
    let mut calls = CallList::empty(alloc);
    if let Some(call) = call {
        calls.push(call)?;
    }
    Ok(calls)
}

// Whether all of a text is read from a source whose calls fail so, or the fault comes that is given.
fn is_read(
    text: &str,
    limit: usize,
    alloc: Global,
    fails: CallList,
    fault: Option<ReadAllError>,
) -> Result<bool, NoMemory> {
    let mut source = MemSource::of(Octets::copy(alloc, text.as_bytes())?, fails);
    Ok(match read_all(alloc, &mut source, limit) {
        Ok(bytes) => fault.is_none() && bytes.as_slice() == text.as_bytes(),
        Err(error) => fault == Some(error),
    })
}

// The long text has more bytes than one read asks for.
#[test]
fn sources_are_read_to_their_end(rt: HostRuntime) -> Result<(), NoMemory> {
    let alloc = rt.alloc();
    let mut long = String::new(alloc);
    for _ in 0..131_072 {
        long.push_str("abc")?;
    }
    for (text, fails, limit, fault) in [
        ("abc", None, 3, None),
        ("abc", Some(2), 9, None),
        ("", None, 0, None),
        ("abc", None, 2, Some(ReadAllError::TooLong)),
        ("a", None, 0, Some(ReadAllError::TooLong)),
        ("abc", Some(0), 3, Some(ReadAllError::ReadFault)),
        ("abc", Some(1), 3, Some(ReadAllError::ReadFault)),
        (long.as_str(), None, 393_216, None),
        (long.as_str(), None, 393_215, Some(ReadAllError::TooLong)),
    ] {
        let fails = failing(alloc, fails)?;
        assert!(rt;
            is_read(text, limit, alloc, fails, fault)?,
            "{} bytes, {limit}",
            text.len()
        );
    }
    Ok(())
}

// Whether the second read of a source fails, and no other, and is counted.
fn second_read_fails(alloc: Global) -> Result<bool, NoMemory> {
    let fails = failing(alloc, Some(1))?;
    let mut source = MemSource::of(Octets::copy(alloc, b"abc")?, fails);
    let mut buf = [0; 2];
    let first = source.read(&mut buf) == Ok(2) && &buf == b"ab";
    let second = source.read(&mut buf) == Err(Failed) && source.faults() == 1;
    let third = source.read(&mut buf) == Ok(1) && &buf == b"cb";
    Ok(first && second && third)
}

// Whether the second write to a sink fails, and no other, and is counted.
fn second_write_fails(alloc: Global) -> Result<bool, NoMemory> {
    let mut sink = MemSink::empty(alloc, failing(alloc, Some(1))?);
    let first = write_all(&mut sink, b"abc") == Ok(());
    let second = write_all(&mut sink, b"d") == Err(Failed) && sink.faults() == 1;
    let third = write_all(&mut sink, b"e") == Ok(());
    Ok(first && second && third && sink.written() == b"abce".as_slice())
}

#[test]
fn memory_forms_count_their_faults(rt: HostRuntime) -> Result<(), NoMemory> {
    assert!(rt; second_read_fails(rt.alloc())?);
    assert!(rt; second_write_fails(rt.alloc())?);
    Ok(())
}
