//! Rows of branches, and their bodies.

ghost use Rattle.std.specs.Prelude.{◌≡◌, ◌≤◌, ◌^◌, ◌++◌, ◌∷◌, [], length, IfOk, OnOk, OnErr};
ghost use Rattle.std.specs.List.{AllByRecursion};
ghost use Rattle.cdc_model.specs.Kept.{IsRow};
ghost use Rattle.cdc_rename.specs.Names.{IsTableMap};

use crate::blobs::blob_of;
use cdc_base::Memory;
use cdc_event::{Body, kind};
use cdc_model::{RowList, RowRun};
use std::alloc::Global;

/// The type of a row event: rows inserted.
pub const ROWS: u8 = 30;

/// The body of a row event.
pub fn value_body(alloc: Global, bytes: &[u8]) -> Result<Body, Memory>
    requires { length bytes.now ≤ 2 ^ 26 }
    ensures { IfOk result (λ body. IsRow (ROWS, body)) }
{
    let bytes = blob_of(alloc, bytes)?;
    Ok(Body::Rows { bytes })
}

/// A row event.
pub fn value_row(alloc: Global, bytes: &[u8]) -> Result<(u8, Body), Memory>
    requires { length bytes.now ≤ 2 ^ 26 }
    ensures { IfOk result IsRow }
{
    Ok((ROWS, value_body(alloc, bytes)?))
}

/// A text about rows, of type 29.
pub fn marked_row(alloc: Global, text: &[u8]) -> Result<(u8, Body), Memory>
    requires { length text.now ≤ 2 ^ 26 }
    ensures { IfOk result IsRow }
{
    let text = blob_of(alloc, text)?;
    Ok((kind::ROWS_QUERY, Body::RowsQuery { size: 7, text }))
}

/// The body of a table map.
pub fn map_of(alloc: Global, db: &[u8], name: &[u8], rest: &[u8]) -> Result<Body, Memory>
    requires db { length db.now ≤ 64 }
    requires name { length name.now ≤ 64 }
    requires rest { length rest.now ≤ 2 ^ 26 }
    ensures row { IfOk result (λ body. IsRow (19, body)) }
    ensures map { IfOk result IsTableMap }
{
    Ok(Body::TableMap {
        table: 1,
        flags: 1,
        db: blob_of(alloc, db)?,
        name: blob_of(alloc, name)?,
        rest: blob_of(alloc, rest)?,
    })
}

/// One row more.
pub fn add_row(rows: &mut RowRun, row: (u8, Body)) -> Result<(), Memory>
    requires { IsRow row }
    ensures ok { OnOk result (rows.new ≡ rows.old ++ row ∷ []) }
    ensures err { OnErr result (rows.new ≡ rows.old) }
{
    rows.push(row.0, &row.1)
}

/// Row events of one body.
pub fn add_shared(rows: &mut RowRun, body: &Body, count: u32) -> Result<(), Memory>
    requires { IsRow (ROWS, body.now) }
{
    for _number in 0..count {
        rows.push(ROWS, body)?;
    }
    Ok(())
}

/// The rows of a transaction: the table map of d1.t1, and one row event with this body.
pub fn one_row(alloc: Global, bytes: &[u8]) -> Result<RowList, Memory>
    requires { length bytes.now ≤ 2 ^ 26 }
    ensures { IfOk result (AllByRecursion IsRow) }
{
    let mut rows = RowRun::new(alloc);
    let map = map_of(alloc, b"d1", b"t1", b"\x01\x03\0\x01")?;
    add_row(&mut rows, (kind::TABLE_MAP, map))?;
    add_row(&mut rows, value_row(alloc, bytes)?)?;
    rows.finish(alloc)
}
