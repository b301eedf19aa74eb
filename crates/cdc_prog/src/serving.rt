//! The command `serve` over real folders, ports and the system's random bytes.

ghost use Rattle.std.specs.Prelude.{◌≡◌, length, IfOk};

use crate::config::{over_each, read_places};
use cdc_base::{Memory, Text, TextList};
use cdc_files::{HeldSource, SystemSalt, TcpDoor};
use cdc_outside::Sink;
use cdc_serve::top_serve;
use std::fs::{Files, OpenFile};
use std::io::Read;
use std::net::{Net, TcpListener, TcpStream};
use std::os::unix::fs::FileExt;
use std::random::RandomSource;
use std::sync::Wait;
use std::thread::Threads;

/// The door at an address; one that gives no connection where there is none.
fn door_at<R: Net<Listener = TcpListener, Stream = TcpStream>>(
    rt: &R,
    address: Option<&Text>,
    connections: Option<u64>,
) -> TcpDoor {
    match address {
        Some(address) if !address.bytes().is_empty() => TcpDoor::bind(rt, address, connections),
        _ => TcpDoor::closed(),
    }
}

/// So many doors, each at the address of its place.
fn doors_at<R: AllocGlobal + Net<Listener = TcpListener, Stream = TcpStream>>(
    rt: &R,
    listen: &TextList,
    count: usize,
    connections: Option<u64>,
) -> Result<Vec<TcpDoor>, Memory>
    ensures { IfOk result (λ doors. length doors.items ≡ count) }
{
    let mut doors = Vec::new(rt.alloc());
    for place in 0..count {
        doors.push(door_at(rt, listen.get(place), connections))?;
    }
    Ok(doors)
}

/// So many salts over the system's random bytes.
fn salts_over<R: AllocGlobal + RandomSource>(
    rt: &R,
    count: usize,
) -> Result<Vec<SystemSalt<&R>>, Memory>
    ensures { IfOk result (λ salts. length salts.items ≡ count) }
{
    let mut salts = Vec::new(rt.alloc());
    for _ in 0..count {
        salts.push(SystemSalt::new(rt))?;
    }
    Ok(salts)
}

/// Answers `serve`: each output's door, over its folder and port, gives so many connections, or any number where none is
/// named.
pub fn serve<
    F: FileExt + OpenFile + Read + Drop + Send,
    I: Read + Drop + Send,
    R: AllocGlobal
        + Files<File = F, Dir = I>
        + Net<Listener = TcpListener, Stream = TcpStream>
        + RandomSource
        + Threads
        + Wait
        + Send
        + Sync,
    K: Sink,
>(
    rt: &R,
    words: &[Text],
    path: &Text,
    connections: Option<u64>,
    err: &mut K,
) -> Result<u8, Memory> {
    let mut config = HeldSource::open(rt, path)?;
    let places = read_places(rt.alloc(), &config)?;
    let count = places.outs.len();
    let mut outs = over_each(rt, places.outs.as_slice())?;
    let mut doors = doors_at(rt, &places.listen, count, connections)?;
    let mut salts = salts_over(rt, count)?;
    Ok(top_serve(
        rt,
        rt.alloc(),
        words,
        &mut config,
        outs.as_mut_slice(),
        doors.as_mut_slice(),
        salts.as_mut_slice(),
        err,
    ))
}
