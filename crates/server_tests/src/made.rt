//! What the tests serve: outputs, links, doors, users; and how they show what was served.

ghost use Rattle.std.specs.Prelude.{IfOk};
ghost use Rattle.cdc_memory.specs.Link.{IsNewLink};

use cdc_base::{Text, User, UserList};
use cdc_memory::{MemDisk, MemDoor, MemLink};
use cdc_outside::{DiskFile, write_through};
use sha1::Sha1;
use std::alloc::Global;
use std::test::Fail;

/// The third file of an output: its head, and one transaction.
const FILE: &str =
    "fe62696e000000000f01000000770000007b00000000000400352e372e302d63646300000000000000000000000000000000000000000000000000000000000000000000000000000000000000000013380d0008001200040404041200005f00041a08000000080808020000000a0a0a2a2a00123400000000000005000000020100000026000000a100000000000000000000000000000000000000424547494e050000001d0100000035000000d60000000000214354533a3a303030303030303030303030303030303035303a3a303a3a363733350500000010010000001b000000f100000000000500000000000000";

/// The slot of an output of three files, of which this is the last.
const SLOT: &str =
    "0105000000000000001a000000000000000105000000000000000300000000000000f10000000000000000";

/// The request for a dump of the third file that waits for no more, and its reply's length and digest.
pub const DUMP: &str = "18000000120400000001000700000062696e6c6f672e303030303033";

pub const DUMPED: &str = "311 34c356db192b7c89532455a2f19ade4ab23eab63";

/// The request for a dump from the first file on, which isn't there.
pub const TORN: &str = "0b0000001204000000010007000000";

/// A ping, its reply, and the end of a session.
pub const PING: &str = "010000000e";

pub const WELL: &str = "0700000100000002000000";

pub const QUIT: &str = "0100000001";

/// An output whose last file alone is there, and whose listed calls fail; the first four make it.
pub fn output(alloc: Global, fails: &[u64]) -> Result<MemDisk, Fail> {
    let mut disk = MemDisk::new(alloc, 3, 1_000, 20, fails)?;
    let file = hex::decode(alloc, FILE)?;
    write_through(&mut disk, DiskFile::Log(3), 0, file.as_slice())?;
    let slot = hex::decode(alloc, SLOT)?;
    write_through(&mut disk, DiskFile::SlotA, 0, slot.as_slice())?;
    Ok(disk)
}

/// A client that sends these bytes, given in hexadecimal digits, and whose listed calls fail.
pub fn client(alloc: Global, input: &str, fails: &[u64]) -> Result<MemLink, Fail>
    ensures { IfOk result (λ link. IsNewLink link) }
{
    let bytes = hex::decode(alloc, input)?;
    Ok(MemLink::new(alloc, bytes.as_slice(), 100_000, fails)?)
}

/// A door to which these clients come, and whose listed calls fail.
pub fn door(alloc: Global, inputs: &[&str], fails: &[u64]) -> Result<MemDoor, Fail> {
    let mut links = Vec::with_capacity(alloc, inputs.len())?;
    for input in inputs {
        links.push(client(alloc, input, &[])?)?;
    }
    Ok(MemDoor::new(alloc, links, fails)?)
}

/// A door to which two clients come; of the first one's link the listed calls fail.
pub fn door_of_two(
    alloc: Global,
    first: &str,
    fails: &[u64],
    second: &str,
) -> Result<MemDoor, Fail> {
    let first = client(alloc, first, fails)?;
    let second = client(alloc, second, &[])?;
    Ok(MemDoor::new(alloc, vec![in alloc; first, second]?, &[])?)
}

/// The user `repl`, whose password is empty.
pub fn one_user(alloc: Global) -> Result<UserList, Fail> {
    let mut users = UserList::new(alloc);
    users.push(User {
        name: Text::of(alloc, "repl")?,
        hash: None,
    })?;
    Ok(users)
}

/// What a client was sent, in hexadecimal digits; of more than 200 bytes the number and the digest.
fn sent(alloc: Global, bytes: &[u8]) -> Result<String, Fail> {
    if bytes.len() <= 200 {
        return Ok(hex::encode(alloc, bytes)?);
    }
    let digest = hex::encode(alloc, &Sha1::digest(bytes))?;
    Ok(format!(in alloc; "{} {digest}", bytes.len())?)
}

/// A line for each link that was handed back: the number of its end, and what its client was sent.
pub fn shown(alloc: Global, door: &MemDoor) -> Result<String, Fail> {
    let mut lines = String::new(alloc);
    for back in door.returned() {
        let sent = sent(alloc, back.link.written())?;
        let line = format!(in alloc; "{} {sent}\n", back.ending)?;
        lines.push_str(line.as_str())?;
    }
    Ok(lines)
}
