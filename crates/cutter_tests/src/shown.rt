//! What a cutter answers, as a text.

ghost use Rattle.std.specs.Prelude.{◌≡◌};

use cdc_base::Place;
use cdc_cutter::{Cut, Cutter, FileFault, Peek};
use std::alloc::{AllocError, Global};
use std::test::Fail;

/// No log of a test reaches as far.
const FAR: u64 = 1 << 40;

/// Feeds a piece.
pub fn feed(cutter: &mut Cutter, piece: &[u8]) -> Result<(), Fail> {
    if cutter.fed_to().at >= FAR || piece.len() as u64 >= FAR {
        return Err("a log of this length is no test")?;
    }
    cutter.feed(piece)?;
    Ok(())
}

/// Goes on to the next file.
pub fn next_file(cutter: &mut Cutter) -> Result<(), Fail> {
    if cutter.fed_to().file >= 1_000 {
        return Err("so many files are no test")?;
    }
    cutter.next_file();
    Ok(())
}

// An event as its place, end, type and the setting behind it.
fn event_text(
    alloc: Global,
    at: Place,
    end: Place,
    kind: u8,
    checksum: u8,
) -> Result<String, AllocError> {
    let Place { file, at } = at;
    let end = end.at;
    format!(in alloc; "{file}:{at}-{end} {kind} {checksum}, ")
}

// A fault and where it stands.
fn fault_text(alloc: Global, place: Place, fault: FileFault) -> Result<String, AllocError> {
    let Place { file, at } = place;
    format!(in alloc; "{file}:{at} {fault:?}")
}

// What stands next, in place.
fn peeked(alloc: Global, cutter: &Cutter) -> Result<String, AllocError> {
    match cutter.peek() {
        Peek::Event {
            at,
            end,
            event,
            checksum,
        } => event_text(alloc, at, end, event.header.kind, checksum),
        Peek::Need => format!(in alloc; "need"),
        Peek::Fault { place, fault } => fault_text(alloc, place, fault),
    }
}

/// Appends the events up to the next answer of another kind, each as its place, end, type and the setting behind it;
/// and gives that answer. Each is told
/// in place before.
pub fn drain(alloc: Global, cutter: &mut Cutter, into: &mut String) -> Result<String, Fail> {
    for _ in 0..1_000 {
        let peeked = peeked(alloc, cutter)?;
        let (told, is_event) = match cutter.next()? {
            Cut::Event {
                at,
                end,
                event,
                checksum,
            } => (
                event_text(alloc, at, end, event.header.kind, checksum)?,
                true,
            ),
            Cut::Need => (format!(in alloc; "need")?, false),
            Cut::Fault { place, fault } => (fault_text(alloc, place, fault)?, false),
        };
        if peeked != told {
            return Err("another answer in place")?;
        }
        if !is_event {
            return Ok(told);
        }
        into.push_str(&told)?;
    }
    Err("no end of events")?
}

/// The answers to a log that is fed in pieces of this size.
pub fn answers(
    alloc: Global,
    cutter: &mut Cutter,
    log: &[u8],
    size: usize,
) -> Result<String, Fail> {
    let mut told = String::new(alloc);
    let mut last = drain(alloc, cutter, &mut told)?;
    for piece in log.chunks(size.max(1)) {
        feed(cutter, piece)?;
        last = drain(alloc, cutter, &mut told)?;
    }
    told.push_str(&last)?;
    Ok(told)
}
