//! A door over a port.

ghost use Rattle.std.specs.Prelude.{◌≡◌, Bool, false, []};

use crate::counted::counted;
use crate::tcp_link::{TcpLink, finish};
use cdc_base::Text;
use cdc_outside::{Door, Failed};
use std::io;
use std::io::ErrorKind;
use std::net::{Net, TcpListener, TcpStream};

/// How many connections in a row may be gone again before they are taken.
const MOST_GONE: u32 = 1 << 20;

/// A port at which clients connect, one after another. It shuts after a number of connections, where there is one.
#[derive(Drop)]
pub struct TcpDoor {
    listener: Option<TcpListener>,
    connections: Option<u64>,
    shut: bool,
    faults: u64,
}

impl TcpDoor {
    /// A door at an address and a port, as `127.0.0.1:3307`, which gives so many connections, or any number where none is
    /// named. Where the system refuses the address, `next` fails.
    pub fn bind<R: Net<Listener = TcpListener, Stream = TcpStream>>(
        rt: &R,
        address: &Text,
        connections: Option<u64>,
    ) -> TcpDoor
        ensures shut { ⟦<TcpDoor as Door>⟧.shut result ≡ false }
        ensures faults { ⟦<TcpDoor as Door>⟧.faults result ≡ 0 }
    {
        TcpDoor {
            listener: TcpListener::bind(rt, address.as_str()).ok(),
            connections,
            shut: false,
            faults: 0,
        }
    }

    /// A door that gives no connection.
    pub fn closed() -> TcpDoor
        ensures shut { ⟦<TcpDoor as Door>⟧.shut result ≡ false }
        ensures faults { ⟦<TcpDoor as Door>⟧.faults result ≡ 0 }
    {
        TcpDoor {
            listener: None,
            connections: Some(0),
            shut: false,
            faults: 0,
        }
    }

    /// How many calls failed.
    pub fn faults(&self) -> u64
        ensures { result ≡ ⟦<TcpDoor as Door>⟧.faults self.now }
    {
        self.faults
    }

    /// Counts a connection that is given; whether none is to be given any more.
    fn is_spent(&mut self) -> bool
        ensures shut { self.new.shut ≡ self.old.shut }
        ensures faults { self.new.faults ≡ self.old.faults }
    {
        match self.connections {
            None => false,
            Some(0) => true,
            Some(left) => {
                self.connections = Some(left - 1);
                false
            }
        }
    }
}

/// Whether a client was gone before it was taken, or a signal came.
fn is_gone(error: &io::Error) -> bool {
    matches!(
        error.kind(),
        ErrorKind::ConnectionAborted | ErrorKind::ConnectionReset | ErrorKind::Interrupted
    )
}

/// The next connection; none where the system fails.
fn accept(listener: &TcpListener) -> Option<TcpStream> {
    for _ in 0..MOST_GONE {
        match listener.accept() {
            Ok((stream, _)) => return Some(stream),
            Err(error) => {
                if !is_gone(&error) {
                    return None;
                }
            }
        }
    }
    None
}

impl Door for TcpDoor {
    ghost use Rattle.cdc_files.specs.Untold.{untold};

    type L = TcpLink;

    ghost tells = { false };

    ghost shut = { λ door. door.shut };

    ghost handed = { λ _. [] };

    ghost served = { λ _. [] };

    ghost faults = { λ door. door.faults };

    ghost served_within = { λ door told. untold told };

    ghost links_tell = { λ told. untold told };

    fn next(&mut self) -> Result<Option<TcpLink>, Failed> {
        if self.shut || self.is_spent() {
            self.shut = true;
            return Ok(None);
        }
        let stream = match &self.listener {
            Some(listener) => accept(listener),
            None => None,
        };
        let link = stream.map(|stream| Some(TcpLink::new(stream)));
        counted(link, &mut self.faults)
    }

    fn back(&mut self, link: TcpLink, end: u8) {
        let _ = end;
        finish(link);
    }
}
