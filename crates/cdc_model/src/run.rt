//! Rows that grow, as one run of bytes.

ghost use Rattle.std.specs.Prelude.{◌≡◌, ◌==◌, ◌<◌, ◌^◌, [], ◌∷◌, ◌++◌, length, take, IfOk, OnOk, OnErr};
ghost use Rattle.std.specs.List.{AllByRecursion};
ghost use Rattle.cdc_event.specs.declared.body.Body.{Body as Spelled};
ghost use Rattle.cdc_event.specs.Number.{low_first};
ghost use Rattle.cdc_model.specs.Row.{IsRow};
ghost use Rattle.cdc_model.specs.Run.{row_bytes, SpellsRow};

use crate::rows::RowList;
use cdc_base::{Blob, Buffer, Memory};
use cdc_event::{Body, bytes_4, write_body};
use std::alloc::Global;
use std::marker::Model;

/// The least bytes of a run that is given away as it is; a shorter one is copied, to its size.
const MOVED_LEAST: usize = 4096;

/// Rows that grow at their end, seen as the list of pairs (type, body). They are kept as they are printed behind a
/// header's changing fields: of each row its type, the length of its body in four bytes, and the body's bytes.
#[derive(Debug, Drop)]
pub struct RowRun {
    count: usize,
    bytes: Buffer,
}

impl Model for RowRun {
    ghost use Rattle.std.specs.Prelude.{List};
    ghost use Rattle.cdc_model.specs.Row.{Row};

    ghost Value = { List Row };

    ghost use Rattle.cdc_model.specs.Run.{run_rows, IsRun};

    ghost view = { λ run. run_rows run.count run.bytes };

    ghost invariant = { λ run. IsRun run.count run.bytes (run_rows run.count run.bytes) };
}

// The first bytes of a row: its type, and the length of its body.
#[tactic(auto, unfolding(cdc_event::specs::Number::low_first))]
fn row_head(kind: u8, length: u32) -> [u8; 5]
    ensures { result ≡ kind ∷ low_first 4 length }
{
    let length = bytes_4(length);
    [kind, length[0], length[1], length[2], length[3]]
}

// Appends a row. On `Memory` a part of it may stand behind what was there.
fn push_row(kind: u8, body: &Body, into: &mut Buffer) -> Result<(), Memory>
    requires { IsRow (kind, body.now) }
    ensures ok { OnOk result (into.new ≡ into.old ++ row_bytes (kind, body.now)) }
    ensures kept { take (length into.old) into.new ≡ into.old }
{
    into.push(&row_head(kind, body.encoded_length() as u32))?;
    write_body(body, into)
}

// Appends a row by its body's bytes. On `Memory` a part of it may stand behind what was there.
fn push_parts(kind: u8, body: &[u8], into: &mut Buffer) -> Result<(), Memory>
    requires { length body.now < 2 ^ 32 }
    ensures ok { OnOk result (into.new ≡ into.old ++ kind ∷ (low_first 4 (length body.now) ++ body.now)) }
    ensures kept { take (length into.old) into.new ≡ into.old }
{
    into.push(&row_head(kind, body.len() as u32))?;
    into.push(body)
}

// Gives all bytes away: short ones are copied and their room stays, long ones go with their room.
fn give_bytes(alloc: Global, bytes: &mut Buffer) -> Result<Blob, Memory>
    ensures blob { IfOk result (λ blob. blob ≡ bytes.old) }
    ensures empty { OnOk result (bytes.new ≡ []) }
    ensures err { OnErr result (bytes.new ≡ bytes.old) }
{
    let length = bytes.len();
    if length >= MOVED_LEAST {
        return bytes.freeze_to(length);
    }
    let copied = Blob::copy_of(alloc, bytes.bytes())?;
    bytes.truncate(0);
    Ok(copied)
}

impl RowRun {
    /// No rows, which takes no memory; the allocator is kept for growth.
    pub fn new(alloc: Global) -> RowRun
        ensures { result ≡ [] }
    {
        RowRun {
            count: 0,
            bytes: Buffer::new(alloc),
        }
    }

    /// How many rows there are.
    pub fn len(&self) -> usize
        ensures { result ≡ length self.now }
    {
        self.count
    }

    /// Whether there is no row.
    pub fn is_empty(&self) -> bool
        ensures { result ≡ (length self.now == 0) }
    {
        self.count == 0
    }

    /// Appends a row. On `Memory` nothing changes.
    pub fn push(&mut self, kind: u8, body: &Body) -> Result<(), Memory>
        requires { IsRow (kind, body.now) }
        ensures ok { OnOk result (self.new ≡ self.old ++ (kind, body.now) ∷ []) }
        ensures err { OnErr result (self.new ≡ self.old) }
    {
        let before = self.bytes.len();
        match push_row(kind, body, &mut self.bytes) {
            Ok(()) => {
                self.count += 1;
                Ok(())
            }
            Err(Memory) => {
                self.bytes.truncate(before);
                Err(Memory)
            }
        }
    }

    /// Appends the row whose body these bytes are, which are copied once. On `Memory` nothing changes.
    pub fn push_bytes(&mut self, kind: u8, bytes: &[u8]) -> Result<(), Memory>
        requires { (body : Spelled) × SpellsRow kind bytes.now body }
        ensures ok { (body : Spelled) → SpellsRow kind bytes.now body → OnOk result (self.new ≡ self.old ++ (kind, body) ∷ []) }
        ensures err { OnErr result (self.new ≡ self.old) }
    {
        let before = self.bytes.len();
        match push_parts(kind, bytes, &mut self.bytes) {
            Ok(()) => {
                self.count += 1;
                Ok(())
            }
            Err(Memory) => {
                self.bytes.truncate(before);
                Err(Memory)
            }
        }
    }

    /// Drops all rows; the room stays.
    pub fn clear(&mut self)
        ensures { self.new ≡ [] }
    {
        self.count = 0;
        self.bytes.truncate(0);
    }

    /// Gives the rows away, and is empty then; on `Memory` nothing changes. Short rows are copied to their size, and
    /// the room stays; long ones go with their room.
    pub fn finish(&mut self, alloc: Global) -> Result<RowList, Memory>
        ensures list { IfOk result (λ list. list ≡ self.old) }
        ensures rows { IfOk result (AllByRecursion IsRow) }
        ensures empty { OnOk result (self.new ≡ []) }
        ensures err { OnErr result (self.new ≡ self.old) }
    {
        let bytes = give_bytes(alloc, &mut self.bytes)?;
        let count = self.count;
        self.count = 0;
        Ok(RowList::of_run(count, bytes))
    }
}
