//! The adapters over streams, whose bytes no clause knows.

use crate::asserting::got;
use gql_streams::{Failed, MemorySource, ReadFault, StdSink, StdSource, read_all, write_all};
use std::io;

#[test]
fn a_reader_is_a_source(rt: HostRuntime) {
    let mut source = StdSource::new(b"abc".as_slice());
    let bytes = got(&rt, read_all(rt.alloc(), &mut source, 10));
    assert!(rt; bytes.as_slice() == b"abc".as_slice());
}

#[test]
fn a_source_is_read_up_to_its_limit(rt: HostRuntime) {
    let bytes = got(&rt, Vec::from_slice(rt.alloc(), b"abcde"));
    let mut source = MemorySource::new(bytes, 2, Vec::new(rt.alloc()));
    let read = read_all(rt.alloc(), &mut source, 4);
    assert!(rt; read.err() == Some(ReadFault::TooLong));
}

#[test]
fn a_writer_is_a_sink_that_fails_where_it_is_full(rt: HostRuntime) {
    let mut room = [0u8; 4];
    let mut sink = StdSink::new(io::Cursor::new(room.as_mut_slice()));
    assert!(rt; write_all(&mut sink, b"abc") == Ok(()));
    assert!(rt; write_all(&mut sink, b"de") == Err(Failed));
}
