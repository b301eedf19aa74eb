//! Reads one file of a source whole.

ghost use Rattle.std.specs.Prelude.{◌≡◌, [], ◌+◌, ◌≤◌, ◌<◌, ◌⊎◌, IsTrue, length, min, take, IfOk, OnOk, IsErrOf};
ghost use Rattle.cdc_outside.specs.Count.{Rose};
ghost use Rattle.cdc_outside.specs.Source.{behind, file_of, size_of, lowered, raised, LoweredTo, NothingPast};
ghost use Rattle.cdc_outside.specs.declared.whole.ReadWholeError.TheVariants.{Failed as SourceFailed, Memory as NoMemory};

use crate::failed::Failed;
use crate::source::Source;
use cdc_base::{Blob, Buffer, Memory};
use std::alloc::Global;

/// The most bytes that one read asks for.
const PIECE: usize = 65_536;

/// The most bytes that are reserved before anything was read.
const FIRST_ROOM: u64 = 1_048_576;

/// Why a file could not be read whole.
#[derive(Clone, Copy, Debug, PartialEq, Eq)]
pub enum ReadWholeError {
    /// The source failed.
    Failed,
    /// There was no memory for the bytes.
    Memory,
}

impl From<Failed> for ReadWholeError {
    ghost from_gives = { λ _ error. error ≡ SourceFailed };

    fn from(_failed: Failed) -> ReadWholeError {
        ReadWholeError::Failed
    }
}

impl From<Memory> for ReadWholeError {
    ghost from_gives = { λ _ error. error ≡ NoMemory };

    fn from(_memory: Memory) -> ReadWholeError {
        ReadWholeError::Memory
    }
}

/// Reads the next piece of a file, from the byte `at` on and at most `left` bytes, behind those that were read
/// before it, and answers how many bytes it has.
fn read_piece<S: Source>(
    source: &mut S,
    file: u32,
    at: u64,
    left: u64,
    piece: &mut [u8],
    bytes: &mut Buffer,
) -> Result<u64, ReadWholeError>
    requires first { 1 ≤ file }
    requires last { file ≤ length (S.sizes source.old) }

    ensures within { IfOk result (λ read. read ≤ left) }
    ensures grown { IfOk result (λ read. length bytes.new ≡ length bytes.old + read) }
    ensures exact { IsTrue S.tells → bytes.old ≡ take at (file_of (S.held source.old) file)
        → IfOk result (λ read. bytes.new ≡ take (at + read) (file_of (S.held source.old) file)) }
    ensures end { IsTrue S.tells → IfOk result (λ read. read ≡ 0
        → (length (file_of (S.held source.old) file) ≤ at) ⊎ (left ≡ 0) ⊎ (length piece.old ≡ 0)) }

    ensures failed { IsErrOf result ReadWholeError.Failed → Rose (S.faults source.old) (S.faults source.new) }
    ensures later { S.faults source.old ≤ S.faults source.new }
    ensures held { S.held source.new ≡ S.held source.old }
    ensures sizes { S.sizes source.new ≡ S.sizes source.old }
    ensures lowest { S.lowest source.new ≡ lowered (S.lowest source.old) file at }
    ensures highest { S.highest source.new ≡ raised (S.highest source.old) file (behind at (min left (length piece.old))) }
{
    let asked = left.min(piece.len() as u64) as usize;
    let read = source.read_at(file, at, &mut piece[..asked])?;
    bytes.push(&piece[..read])?;
    Ok(read as u64)
}

/// Reads a file from its first byte up to the length that was told for it.
fn read_told<S: Source>(
    source: &mut S,
    file: u32,
    told: u64,
    piece: &mut [u8],
    bytes: &mut Buffer,
) -> Result<(), ReadWholeError>
    requires first { 1 ≤ file }
    requires last { file ≤ length (S.sizes source.old) }
    requires room { 0 < length piece.old }
    requires empty { bytes.old ≡ [] }

    ensures within { OnOk result (length bytes.new ≤ told) }
    ensures whole { IsTrue S.tells → told ≡ length (file_of (S.held source.old) file)
        → OnOk result (bytes.new ≡ file_of (S.held source.old) file) }

    ensures failed { IsErrOf result ReadWholeError.Failed → Rose (S.faults source.old) (S.faults source.new) }
    ensures later { S.faults source.old ≤ S.faults source.new }
    ensures held { S.held source.new ≡ S.held source.old }
    ensures sizes { S.sizes source.new ≡ S.sizes source.old }
    ensures lowest { LoweredTo (S.lowest source.old) file 0 (S.lowest source.new) }
    ensures past { NothingPast file told (S.highest source.old) (S.highest source.new) }
{
    let mut at = 0u64;
    while at < told {
        let read = read_piece(source, file, at, told - at, piece, bytes)?;
        if read == 0 {
            break;
        }
        at += read;
    }
    Ok(())
}

/// Room for the pieces of a file of so many bytes. It doesn't stand on the stack, which may be small.
fn piece_for(alloc: Global, told: u64) -> Result<Vec<u8>, Memory>
    ensures { IfOk result (λ piece. 0 < length piece.items) }
{
    let room = told.clamp(1, PIECE as u64) as usize;
    Ok(vec![in alloc; 0; room]?)
}

/// The bytes of one file (counted from 1) of a source.
///
/// It asks for the file's length once, and for no byte at or past it, also where the file has grown since. A
/// file that ends sooner gives the bytes that it has. No more memory is taken than about twice what was read,
/// 1 MiB, and one piece of 64 KiB. On `Failed` and `Memory` the source may have been read in part.
pub fn read_whole<S: Source>(
    alloc: Global,
    source: &mut S,
    file: u32,
) -> Result<Blob, ReadWholeError>
    requires first { 1 ≤ file }
    requires last { file ≤ length (S.sizes source.old) }

    ensures whole { IsTrue S.tells → IfOk result (λ bytes. bytes ≡ file_of (S.held source.old) file) }
    ensures within { IfOk result (λ bytes. length bytes ≤ size_of (S.sizes source.old) file) }

    // It never fails by itself.
    ensures failed { IsErrOf result ReadWholeError.Failed → Rose (S.faults source.old) (S.faults source.new) }
    ensures later { S.faults source.old ≤ S.faults source.new }

    ensures held { S.held source.new ≡ S.held source.old }
    ensures sizes { S.sizes source.new ≡ S.sizes source.old }
    ensures lowest { LoweredTo (S.lowest source.old) file 0 (S.lowest source.new) }
    // No byte at or past the size is asked for.
    ensures past { NothingPast file (size_of (S.sizes source.old) file) (S.highest source.old) (S.highest source.new) }
{
    let told = source.length(file)?;
    let mut bytes = Buffer::with_room(alloc, told.min(FIRST_ROOM) as usize)?;
    let mut piece = piece_for(alloc, told)?;
    read_told(source, file, told, piece.as_mut_slice(), &mut bytes)?;
    Ok(bytes.freeze()?)
}
