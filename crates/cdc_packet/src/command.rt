//! What a request asks for.

ghost use Rattle.std.specs.Prelude.{◌≡◌, IfOk};
ghost use Rattle.cdc_packet.specs.Command.{command_in};

use cdc_base::{Blob, Memory};
use cdc_event::{number_2, number_4};

/// A request.
#[derive(Debug, Drop)]
pub enum Command {
    /// The events of the published files, from a position in the file of this name on.
    Dump {
        position: u32,
        flags: u16,
        server: u32,
        name: Blob,
    },
    Quit,
    Ping,
    Register,
    /// Any other payload, the empty one too.
    Unknown,
}

/// The code of a dump, and the bytes before its file's name.
const DUMP: u8 = 0x12;

const DUMP_FIELDS: usize = 11;

const QUIT: u8 = 0x01;

const PING: u8 = 0x0e;

const REGISTER: u8 = 0x15;

/// The command of a request's payload. A dump's name shares the payload's bytes.
pub fn read_command(payload: &Blob) -> Result<Command, Memory>
    ensures { IfOk result (λ command. command ≡ command_in payload.now) }
{
    let bytes = payload.bytes();
    match bytes {
        [DUMP, fields @ ..] if bytes.len() >= DUMP_FIELDS => Ok(Command::Dump {
            position: number_4(&fields[..4]),
            flags: number_2(&fields[4..6]),
            server: number_4(&fields[6..10]),
            name: payload.part(DUMP_FIELDS, payload.len())?,
        }),
        [QUIT] => Ok(Command::Quit),
        [PING] => Ok(Command::Ping),
        [REGISTER, ..] => Ok(Command::Register),
        _ => Ok(Command::Unknown),
    }
}
