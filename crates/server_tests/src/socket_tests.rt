//! Doors over sockets of this machine, with the client and the server in one test.

use crate::made::{DUMP, PING, QUIT, WELL, output};
use cdc_base::{Text, UserList};
use cdc_files::TcpDoor;
use cdc_memory::{MemDisk, MemSalt};
use cdc_outside::{Door, Link};
use cdc_server::{ServeEnd, serve_all};
use sha1::Sha1;
use std::alloc::Global;
use std::io::{Read, Write};
use std::net::{Net, TcpListener, TcpStream};
use std::sync::Wait;
use std::test::Fail;
use std::thread;
use std::thread::Threads;
use std::time::Duration;

// A port of this machine that nobody has.
fn free_address<R: Net<Listener = TcpListener, Stream = TcpStream>>(
    rt: &R,
    alloc: Global,
) -> Result<String, Fail> {
    let listener = TcpListener::bind(rt, "127.0.0.1:0")?;
    let port = listener.local_addr()?.port();
    Ok(format!(in alloc; "127.0.0.1:{port}")?)
}

// A door at an address for one connection.
fn door_at<R: Net<Listener = TcpListener, Stream = TcpStream>>(
    rt: &R,
    alloc: Global,
    address: &str,
) -> Result<TcpDoor, Fail> {
    Ok(TcpDoor::bind(rt, &Text::of(alloc, address)?, Some(1)))
}

// Serves doors without users, each from an output at its place.
fn serve<R: Threads + Wait + Sync>(
    rt: &R,
    alloc: Global,
    disks: &mut [MemDisk],
    doors: &mut [TcpDoor],
    salts: &mut [MemSalt],
) -> ServeEnd {
    let users = UserList::new(alloc);
    if disks.len() != doors.len() || salts.len() != doors.len() || doors.len() > 4 {
        return ServeEnd::Memory;
    }
    serve_all(rt, alloc, &users, disks, doors, salts)
}

// A connection to an address, which waits 20 seconds at most.
fn connect<R: Net<Listener = TcpListener, Stream = TcpStream>>(
    rt: &R,
    address: &str,
) -> Option<TcpStream> {
    let stream = TcpStream::connect(rt, address).ok()?;
    stream.set_read_timeout(Some(Duration::from_secs(20))).ok()?;
    Some(stream)
}

// Sends bytes, given in hexadecimal digits.
fn send(alloc: Global, mut stream: &TcpStream, request: &str) -> Option<()> {
    let bytes = hex::decode(alloc, request).ok()?;
    stream.write_all(bytes.as_slice()).ok()
}

// The next bytes that come in, in hexadecimal digits.
fn receive(alloc: Global, mut stream: &TcpStream, count: usize) -> Option<String> {
    let mut bytes = vec![in alloc; 0u8; count].ok()?;
    stream.read_exact(bytes.as_mut_slice()).ok()?;
    hex::encode(alloc, bytes.as_slice()).ok()
}

// Asks for a dump, and what came in until the connection ended: its length and its digest.
fn fetch<R: Net<Listener = TcpListener, Stream = TcpStream>>(
    rt: &R,
    alloc: Global,
    address: &str,
) -> Option<String> {
    let mut stream = connect(rt, address)?;
    send(alloc, &stream, DUMP)?;
    send(alloc, &stream, QUIT)?;
    let mut bytes = Vec::new(alloc);
    let _size = stream.read_to_end(&mut bytes).ok()?;
    let digest = hex::encode(alloc, &Sha1::digest(bytes.as_slice())).ok()?;
    format!(in alloc; "{} {digest}", bytes.len()).ok()
}

#[test]
fn a_client_fetches_a_dump(rt: HostRuntime) -> Result<(), Fail> {
    let alloc = rt.alloc();
    let address = free_address(&rt, alloc)?;
    let mut doors = vec![in alloc; door_at(&rt, alloc, address.as_str())?]?;
    let mut disks = vec![in alloc; output(alloc, &[])?]?;
    let mut salts = vec![in alloc; MemSalt::new(alloc, &[], &[])?]?;
    let (end, fetched) = thread::join(
        &rt,
        || serve(
            &rt,
            alloc,
            disks.as_mut_slice(),
            doors.as_mut_slice(),
            salts.as_mut_slice(),
        ),
        || fetch(&rt, alloc, address.as_str()),
    );
    let fetched = fetched.ok_or("no dump")?;
    assert!(&rt; end == ServeEnd::Done, "{end:?}");
    assert!(&rt;
        fetched.as_str() == "311 34c356db192b7c89532455a2f19ade4ab23eab63",
        "{fetched}"
    );
    Ok(())
}

// Connects to both doors, and asks the second one before the first: both replies.
fn ask_both<R: Net<Listener = TcpListener, Stream = TcpStream>>(
    rt: &R,
    alloc: Global,
    first: &str,
    second: &str,
) -> Option<(String, String)> {
    let waiting = connect(rt, first)?;
    let other = connect(rt, second)?;
    send(alloc, &other, PING)?;
    let answered = receive(alloc, &other, 11)?;
    send(alloc, &waiting, PING)?;
    let later = receive(alloc, &waiting, 11)?;
    Some((answered, later))
}

#[test]
fn a_waiting_client_holds_up_no_other_door(rt: HostRuntime) -> Result<(), Fail> {
    let alloc = rt.alloc();
    let first = free_address(&rt, alloc)?;
    let near = door_at(&rt, alloc, first.as_str())?;
    let second = free_address(&rt, alloc)?;
    let far = door_at(&rt, alloc, second.as_str())?;
    let mut doors = vec![in alloc; near, far]?;
    let mut disks = vec![in alloc; output(alloc, &[])?, output(alloc, &[])?]?;
    let mut salts = vec![in alloc;
        MemSalt::new(alloc, &[], &[])?,
        MemSalt::new(alloc, &[], &[])?,
    ]?;
    let (end, replies) = thread::join(
        &rt,
        || serve(
            &rt,
            alloc,
            disks.as_mut_slice(),
            doors.as_mut_slice(),
            salts.as_mut_slice(),
        ),
        || ask_both(&rt, alloc, first.as_str(), second.as_str()),
    );
    let (answered, later) = replies.ok_or("no replies")?;
    assert!(&rt; end == ServeEnd::Done, "{end:?}");
    assert!(&rt;
        answered.as_str() == WELL && later.as_str() == WELL,
        "{answered} {later}"
    );
    Ok(())
}

#[test]
fn an_address_that_is_taken_fails_its_door_alone(rt: HostRuntime) -> Result<(), Fail> {
    let alloc = rt.alloc();
    let address = free_address(&rt, alloc)?;
    let door = door_at(&rt, alloc, address.as_str())?;
    let late = door_at(&rt, alloc, address.as_str())?;
    let mut doors = vec![in alloc; door, late]?;
    let mut disks = vec![in alloc; output(alloc, &[])?, output(alloc, &[])?]?;
    let mut salts = vec![in alloc;
        MemSalt::new(alloc, &[], &[])?,
        MemSalt::new(alloc, &[], &[])?,
    ]?;
    let (end, fetched) = thread::join(
        &rt,
        || serve(
            &rt,
            alloc,
            disks.as_mut_slice(),
            doors.as_mut_slice(),
            salts.as_mut_slice(),
        ),
        || fetch(&rt, alloc, address.as_str()),
    );
    let fetched = fetched.ok_or("no dump")?;
    assert!(&rt; end == ServeEnd::Door { door: 2 }, "{end:?}");
    assert!(&rt;
        fetched.as_str() == "311 34c356db192b7c89532455a2f19ade4ab23eab63",
        "{fetched}"
    );
    Ok(())
}

/// How many bytes a server sends that reads nothing.
const UNREAD: usize = 300_000;

// Takes one link, writes to it, and hands it back without having read from it; whether that could be done.
fn write_unread(alloc: Global, door: &mut TcpDoor) -> bool {
    let Ok(bytes) = vec![in alloc; 7u8; UNREAD] else {
        return false;
    };
    let Ok(Some(mut link)) = door.next() else {
        return false;
    };
    let written = link.write(bytes.as_slice()).is_ok();
    door.back(link, 1);
    written
}

// Sends what nobody reads, and counts what came in until the connection ended.
fn send_and_count<R: Net<Listener = TcpListener, Stream = TcpStream>>(
    rt: &R,
    alloc: Global,
    address: &str,
) -> Option<usize> {
    let mut stream = connect(rt, address)?;
    send(alloc, &stream, PING)?;
    send(alloc, &stream, PING)?;
    let mut bytes = Vec::new(alloc);
    stream.read_to_end(&mut bytes).ok()
}

/// A connection that is closed over unread bytes is reset, and what the client hasn't read is lost.
#[test]
fn a_client_gets_all_though_it_sent_more_than_was_read(rt: HostRuntime) -> Result<(), Fail> {
    let alloc = rt.alloc();
    let address = free_address(&rt, alloc)?;
    let mut door = door_at(&rt, alloc, address.as_str())?;
    let (written, count) = thread::join(
        &rt,
        || write_unread(alloc, &mut door),
        || send_and_count(&rt, alloc, address.as_str()),
    );
    assert!(&rt; written);
    assert_eq!(&rt; count, Some(UNREAD));
    Ok(())
}
