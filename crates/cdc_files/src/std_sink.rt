//! A sink over a stream of the system.

ghost use Rattle.std.specs.Prelude.{◌≡◌, false, [], OnOk};
ghost use Rattle.std.specs.Io.KnownBytes.{Appends};
ghost use Rattle.cdc_outside.specs.Count.{RisesOnErr};

use crate::counted::counted;
use cdc_outside::{Failed, Sink};
use std::io;
use std::io::Write;

/// A stream that is written to. Each write leaves the process before it is answered.
#[derive(Drop)]
pub struct StdSink<W> {
    out: W,
    faults: u64,
}

impl<W: Write + Drop> StdSink<W> {
    /// A sink over this stream, which has not failed.
    pub fn new(out: W) -> StdSink<W>
        ensures { ⟦<StdSink<W> as Sink>⟧.faults result ≡ 0 }
    {
        StdSink { out, faults: 0 }
    }

    /// How many writes failed.
    pub fn faults(&self) -> u64
        ensures { result ≡ ⟦<StdSink<W> as Sink>⟧.faults self.now }
    {
        self.faults
    }
}

impl<W: Write + Drop> Sink for StdSink<W> {
    ghost use Rattle.cdc_files.specs.Stream.{stream_of, faults_of};

    ghost tells = { false };

    ghost written = { λ _. [] };

    ghost faults = { λ sink. sink.faults };

    fn write(&mut self, bytes: &[u8]) -> Result<(), Failed>
        // Where it is known what the stream holds, as of one in memory, it holds the bytes then.
        ensures through { OnOk result (Appends (W.contents (stream_of self.old)) (W.contents (stream_of self.new)) bytes.now) }
        ensures faults { RisesOnErr (faults_of self.old) (faults_of self.new) result }
    {
        let done = write_through(&mut self.out, bytes).ok();
        counted(done, &mut self.faults)
    }
}

/// Writes all bytes, and holds none of them back.
fn write_through<W: Write>(out: &mut W, bytes: &[u8]) -> io::Result<()>
    ensures { OnOk result (Appends (W.contents out.old) (W.contents out.new) bytes.now) }
{
    out.write_all(bytes)?;
    out.flush()
}

/// Standard output or standard error, as one type.
#[derive(Drop)]
pub enum StdStream<O, E> {
    Out(O),
    Err(E),
}

impl<O: Write, E: Write> Write for StdStream<O, E> {
    ghost use Rattle.cdc_files.specs.Stream.{either_contents};

    ghost contents = { either_contents O.contents E.contents };

    fn write(&mut self, bytes: &[u8]) -> io::Result<usize> {
        match self {
            StdStream::Out(out) => out.write(bytes),
            StdStream::Err(err) => err.write(bytes),
        }
    }

    fn flush(&mut self) -> io::Result<()> {
        match self {
            StdStream::Out(out) => out.flush(),
            StdStream::Err(err) => err.flush(),
        }
    }
}
