//! A link over a connection.

ghost use Rattle.std.specs.Prelude.{◌≡◌, false, []};

use crate::counted::counted;
use cdc_outside::{Failed, Link};
use std::io::{Read, Write};
use std::net::{Shutdown, TcpStream};
use std::time::Duration;

/// How many seconds a read or a write waits for the client.
const PATIENCE_SECONDS: u64 = 60;

/// How many seconds the end of a connection waits for what the client still sends.
const LINGER_SECONDS: u64 = 5;

/// How many pieces of what a client sends behind its end are read and let go.
const MOST_LEFT_PIECES: u32 = 64;

/// A connection to one client. It sends small writes at once, and a read or write for which the client lets it wait
/// longer than 60 seconds fails. Where the system refuses such a limit, each call fails.
#[derive(Drop)]
pub struct TcpLink {
    stream: TcpStream,
    limited: bool,
    faults: u64,
}

impl TcpLink {
    /// A link over this connection, which has not failed.
    pub fn new(stream: TcpStream) -> TcpLink
        ensures { ⟦<TcpLink as Link>⟧.faults result ≡ 0 }
    {
        // A client that is gone already refuses this; its next read tells.
        let _at_once = stream.set_nodelay(true);
        let limited = limit(&stream).is_some();
        TcpLink {
            stream,
            limited,
            faults: 0,
        }
    }

    /// How many calls failed.
    pub fn faults(&self) -> u64
        ensures { result ≡ ⟦<TcpLink as Link>⟧.faults self.now }
    {
        self.faults
    }
}

/// Ends a connection behind what was written. A connection that is closed while bytes of the client wait unread is reset, and the
/// client loses what it hasn't read yet; so these are read and let go first, in at most 64 pieces of 16 KiB, as long as
/// each comes within five seconds.
pub(crate) fn finish(link: TcpLink) {
    let mut stream = link.stream;
    let patience = Some(Duration::from_secs(LINGER_SECONDS));
    if stream.shutdown(Shutdown::Write).is_err() || stream.set_read_timeout(patience).is_err() {
        return;
    }
    let mut piece = [0; 16_384];
    for _ in 0..MOST_LEFT_PIECES {
        match stream.read(&mut piece) {
            Ok(0) | Err(_) => return,
            Ok(_) => {}
        }
    }
}

/// Limits how long a read or a write may wait; none where the system refuses it.
fn limit(stream: &TcpStream) -> Option<()> {
    let patience = Some(Duration::from_secs(PATIENCE_SECONDS));
    stream.set_read_timeout(patience).ok()?;
    stream.set_write_timeout(patience).ok()
}

impl Link for TcpLink {
    ghost use Rattle.cdc_files.specs.Untold.{untold};

    ghost tells = { false };

    ghost input = { λ _. [] };

    ghost left = { λ _. [] };

    ghost written = { λ _. [] };

    ghost faults = { λ link. link.faults };

    ghost left_ends_input = { λ link told. untold told };

    fn read(&mut self, into: &mut [u8]) -> Result<usize, Failed> {
        let read = if self.limited {
            self.stream.read(into).ok()
        } else {
            None
        };
        counted(read, &mut self.faults)
    }

    fn write(&mut self, bytes: &[u8]) -> Result<(), Failed> {
        let done = if self.limited {
            self.stream.write_all(bytes).ok()
        } else {
            None
        };
        counted(done, &mut self.faults)
    }
}
