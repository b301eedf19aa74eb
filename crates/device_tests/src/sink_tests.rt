//! Sinks.

use cdc_files::{StdSink, StdStream};
use cdc_memory::MemSink;
use cdc_outside::{Failed, Sink};
use std::io::{Cursor, Stderr, Stdout, Write};
use std::test::Fail;

/// Writes to a sink with room for 5 bytes, whether each succeeds, and what is written and how many failed behind it.
/// The second write fails by the list, the fourth and the sixth past the room.
const WRITES: [(&[u8], bool, &[u8], u64); 6] = [
    (b"ab", true, b"ab", 0),
    (b"c", false, b"ab", 1),
    (b"cde", true, b"abcde", 1),
    (b"f", false, b"abcde", 2),
    (b"", true, b"abcde", 2),
    (b"gh", false, b"abcde", 3),
];

#[test]
fn a_failed_write_writes_nothing(rt: HostRuntime) -> Result<(), Fail> {
    let mut sink = MemSink::new(rt.alloc(), 5, &[2])?;
    for (bytes, succeeds, written, faults) in WRITES {
        let done = sink.write(bytes).is_ok();
        let same = sink.written() == written;
        assert!(rt; done == succeeds && same && sink.faults() == faults);
    }
    Ok(())
}

// A stream that takes 4 bytes in all.
#[test]
fn a_failure_of_a_stream_is_counted(rt: HostRuntime) {
    let mut sink = StdSink::new(Cursor::new([0u8; 4]));
    assert_eq!(rt; sink.write(b"abc"), Ok(()));
    assert_eq!(rt; sink.write(b"de"), Err(Failed));
    assert_eq!(rt; sink.faults(), 1);
}

// Writes to a sink, and answers how many of its writes failed.
fn faults_of<W: Write + Drop>(out: W) -> u64 {
    let mut sink = StdSink::new(out);
    let _done = sink.write(b"written\n");
    sink.faults()
}

// Either standard stream, as one type.
#[test]
fn both_standard_streams_are_written_to(rt: HostRuntime) {
    assert_eq!(rt;
        faults_of::<StdStream<Stdout, Stderr>>(StdStream::Out(rt.stdout())),
        0
    );
    assert_eq!(rt;
        faults_of::<StdStream<Stdout, Stderr>>(StdStream::Err(rt.stderr())),
        0
    );
}
