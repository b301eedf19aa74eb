//! How far a cutter is in its file.

ghost use Rattle.cdc_cutter.specs.Cutting.{PassesMagic};
ghost use Rattle.cdc_cutter.specs.Pending.{pending_bytes};

use crate::pending::Pending;
use cdc_event::{FileFault, MAGIC};

/// Where in its file a cutter stands.
#[derive(Clone, Copy, Debug)]
pub enum CutterState {
    /// At the file's start: its first four bytes aren't all there.
    Start,
    /// Behind the magic, where the first event begins.
    First,
    /// Behind an event.
    Behind,
    /// At a fault, for good.
    Faulty(FileFault),
}

/// Passes the magic at a file's start, once it is there: where the bytes stand then.
pub fn pass_magic(bytes: &mut Pending) -> CutterState
    ensures { PassesMagic (pending_bytes bytes.old) (pending_bytes bytes.new) result }
{
    let Some(front) = bytes.bytes().first_chunk::<4>() else {
        return CutterState::Start;
    };
    if *front != MAGIC {
        return CutterState::Faulty(FileFault::BadMagic);
    }
    bytes.advance(MAGIC.len());
    CutterState::First
}
