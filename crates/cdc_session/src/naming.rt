//! Names of published files.

ghost use Rattle.std.specs.Prelude.{◌≡◌, ℕ, ◌+◌, ◌%◌, ◌<◌, ◌≤◌, ◌^◌, ◌++◌, nat_lt, decimal, if◌then◌else◌, IsTrue, length, IfOk, OnOk};
ghost use Rattle.std.specs.Str.{bytes_eq};
ghost use Rattle.cdc_model.specs.Print.{digits};
ghost use Rattle.cdc_model.specs.Output.{file_name};
ghost use Rattle.cdc_event.specs.Event.{event_bytes};
ghost use Rattle.cdc_session.specs.Dump.{artificial_rotate, rotate_to};
ghost use Rattle.cdc_session.specs.Finding.{FindsFile};

use cdc_base::{Blob, Buffer, Memory};
use cdc_event::{Body, Event, HEADER_LENGTH, Header, kind, write_event};
use cdc_records::Front;
use std::alloc::Global;

/// What a file's name begins with.
const LOG: &[u8] = b"binlog.";

/// The first number that has more than six digits.
const LONG_NUMBER: u64 = 1_000_000;

/// The server's id in an event that stands in no file.
const SERVER: u32 = 1;

/// The flag of an event that stands in no file.
const ARTIFICIAL: u16 = 0x20;

/// The last decimal digit of a number.
fn digit(number: u64) -> u8
    ensures { result ≡ 48 + number % 10 }
{
    b'0' + (number % 10) as u8
}

/// The last six decimal digits of a number.
#[tactic(auto, unfolding(cdc_model::specs::Print::digits))]
fn six_digits(number: u64) -> [u8; 6]
    ensures { result ≡ digits 6 number }
{
    let tens = number / 10;
    let hundreds = tens / 10;
    let thousands = hundreds / 10;
    let ten_thousands = thousands / 10;
    let hundred_thousands = ten_thousands / 10;
    [
        digit(hundred_thousands),
        digit(ten_thousands),
        digit(thousands),
        digit(hundreds),
        digit(tens),
        digit(number),
    ]
}

/// Appends a file's number.
fn push_number(number: u64, into: &mut Buffer) -> Result<(), Memory>
    ensures { OnOk result (into.new ≡ into.old ++ (if nat_lt number 1000000 then digits 6 number else decimal number)) }
{
    if number < LONG_NUMBER {
        into.push(&six_digits(number))
    } else {
        into.push(itoa::Buffer::new().format(number).as_bytes())
    }
}

/// Appends the name of a file.
#[tactic(auto, unfolding(cdc_model::specs::Output::file_name))]
fn push_name(number: u64, into: &mut Buffer) -> Result<(), Memory>
    ensures { OnOk result (into.new ≡ into.old ++ file_name number) }
{
    into.push(LOG)?;
    push_number(number, into)
}

/// The name of a file.
fn name_of(alloc: Global, number: u64) -> Result<Blob, Memory>
    ensures { IfOk result (λ name. name ≡ file_name number) }
{
    let mut name = Buffer::new(alloc);
    push_name(number, &mut name)?;
    name.freeze()
}

/// Whether a file has a name.
fn is_named(number: u64, name: &[u8], room: &mut Buffer) -> Result<bool, Memory>
    ensures { IfOk result (λ same. same ≡ bytes_eq (file_name number) name.now) }
{
    room.truncate(0);
    push_name(number, room)?;
    Ok(room.bytes() == name)
}

/// The first published file that has a name.
fn search(alloc: Global, front: &Front, name: &[u8]) -> Result<Option<u64>, Memory>
    requires near { front.now.file < 2 ^ 63 }
    requires some { 0 < length name.now }
    ensures { IfOk result (FindsFile front.now name.now) }
{
    let mut room = Buffer::new(alloc);
    let mut number = front.first;
    while number <= front.file {
        if is_named(number, name, &mut room)? {
            return Ok(Some(number));
        }
        number += 1;
    }
    Ok(None)
}

/// The published file that a name asks for; an empty one asks for the first.
pub(crate) fn find_file(alloc: Global, front: &Front, name: &[u8]) -> Result<Option<u64>, Memory>
    requires { front.now.file < 2 ^ 63 }
    ensures { IfOk result (FindsFile front.now name.now) }
{
    if !name.is_empty() {
        return search(alloc, front, name);
    }
    if front.first <= front.file {
        Ok(Some(front.first))
    } else {
        Ok(None)
    }
}

/// The event that tells a client a file and a place in it.
fn rotate_event(name: Blob, number: u64, at: u64) -> Event
    requires { name ≡ file_name number }
    ensures { result ≡ artificial_rotate number at }
{
    let length = (HEADER_LENGTH + 8 + name.len()) as u32;
    Event {
        header: Header {
            seconds: 0,
            kind: kind::ROTATE,
            server: SERVER,
            length,
            next: 0,
            flags: ARTIFICIAL,
        },
        body: Body::Rotate { position: at, name },
    }
}

/// The bytes of that event.
#[tactic(auto, unfolding(crate::specs::Dump::rotate_to))]
pub(crate) fn rotate_bytes(alloc: Global, number: u64, at: u64) -> Result<Buffer, Memory>
    ensures bytes { IfOk result (λ bytes. bytes ≡ rotate_to number at) }
    ensures short { IfOk result (λ bytes. length bytes ≤ 54) }
{
    let name = name_of(alloc, number)?;
    let mut bytes = Buffer::new(alloc);
    write_event(&rotate_event(name, number, at), &mut bytes)?;
    Ok(bytes)
}
