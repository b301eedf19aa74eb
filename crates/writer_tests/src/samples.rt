//! Sample transactions, and the bytes that are expected of them.

ghost use Rattle.cdc_model.specs.Kept.{IsKeptKey};

use cdc_base::{Key, Memory};
use cdc_model::{BranchList, RowRun, Txn};
use cdc_rename::Names;
use cdc_samples::blobs::part;
use cdc_samples::rows::{add_row, marked_row, one_row};
use cdc_samples::rules::rule;
use cdc_samples::transactions::{add_branch, no_branches, shared, transaction};
use std::alloc::Global;

/// The print of a shared transaction without rows, at place 123.
pub const BARE: &[u8] = b"\x05\0\0\0\x02\x01\0\0\0\x26\0\0\0\xa1\0\0\0\0\0\
\0\0\0\0\0\0\0\0\0\0\0\0\0\0BEGIN\
\x05\0\0\0\x1d\x01\0\0\0\x35\0\0\0\xd6\0\0\0\0\0\
\x21CTS::0000000000000000010::0::6731\
\x05\0\0\0\x10\x01\0\0\0\x1b\0\0\0\xf1\0\0\0\0\0\
\x01\0\0\0\0\0\0\0";

/// The rest of a table map's body, behind its names.
pub const COLUMNS: &[u8] = b"\x01\x03\0\x01";

/// The table map of d1.t1, and the same under the name shop.orders.
pub const OLD_MAP: &[u8] = b"\x01\0\0\0\0\0\x01\0\x02d1\0\x02t1\0\x01\x03\0\x01";

pub const NEW_MAP: &[u8] = b"\x01\0\0\0\0\0\x01\0\x04shop\0\x06orders\0\x01\x03\0\x01";

/// A statement, the same with one byte more, one of another database, and a mark without a text.
pub const CREATE: &[u8] = b"DDL::d1::CREATE TABLE t (a INT)";

pub const LONGER: &[u8] = b"DDL::d1::CREATE TABLE t (a INT);";

pub const OTHER: &[u8] = b"DDL::d2::CREATE TABLE t (a INT)";

pub const NO_TEXT: &[u8] = b"DDL::d1::";

/// A row event's body.
const VALUE: &[u8] = b"\x01\0\0\0\0\0\x01\0\x02\0\x01\xff\0\x01\0\0\0";

/// The two ends of a file's head; zeros stand between them.
const HEAD_FRONT: &[u8] = b"\xfebin\0\0\0\0\x0f\x01\0\0\0\x77\0\0\0\x7b\0\0\0\0\0\x04\x005.7.0-cdc";

const HEAD_BACK: &[u8] =
    b"\x13\x38\x0d\0\x08\0\x12\0\x04\x04\x04\x04\x12\0\0\x5f\0\x04\x1a\x08\0\0\0\x08\x08\x08\x02\0\0\0\x0a\x0a\x0a\x2a\x2a\0\x12\x34\0\0\0\0\0\0";

/// Whether bytes begin with the 123 bytes of a file's head: its two ends, and zeros between them.
pub fn begins_with_head(bytes: &[u8]) -> bool {
    let zeros = [0u8; 45];
    part(bytes, 0, 34) == HEAD_FRONT
        && part(bytes, 34, 79) == zeros.as_slice()
        && part(bytes, 79, 123) == HEAD_BACK
}

/// Whether these bytes stand there.
pub fn stands_at(bytes: &[u8], at: usize, want: &[u8]) -> bool {
    part(bytes, at, at.saturating_add(want.len())) == want
}

/// A branch more with one marked text, unless the text is empty or longer than 1,000 bytes.
pub fn add_text(
    alloc: Global,
    branches: &mut BranchList,
    key: &Key,
    text: &[u8],
) -> Result<(), Memory>
    requires { IsKeptKey key.now }
{
    if text.is_empty() || text.len() > 1000 {
        return Ok(());
    }
    let mut rows = RowRun::new(alloc);
    add_row(&mut rows, marked_row(alloc, text)?)?;
    add_branch(branches, key, rows.finish(alloc)?)
}

// Branches with these texts, and one with rows where it is asked for.
fn branches_of(alloc: Global, key: &Key, texts: &[&[u8]], rows: bool) -> Result<BranchList, Memory>
    requires { IsKeptKey key.now }
{
    let mut branches = no_branches(alloc);
    for text in texts {
        add_text(alloc, &mut branches, key, text)?;
    }
    if rows {
        add_branch(&mut branches, key, one_row(alloc, VALUE)?)?;
    }
    Ok(branches)
}

/// A shared transaction of branches with these texts, and of one with rows where it is asked for.
pub fn transaction_of(
    alloc: Global,
    number: u64,
    timestamp: u64,
    id: &[u8],
    texts: &[&[u8]],
    rows: bool,
) -> Result<Txn, Memory> {
    if timestamp >= 1 << 63 {
        return Err(Memory);
    }
    let Some(key) = shared(timestamp, id) else {
        return Err(Memory);
    };
    let branches = branches_of(alloc, &key, texts, rows)?;
    Ok(transaction(number, &key, branches))
}

/// A local transaction without rows, whose print has 139 bytes.
pub fn local(alloc: Global, number: u64) -> Txn {
    let key = Key::Plain {
        timestamp: 5,
        node: 1,
        entry: 2,
    };
    transaction(number, &key, no_branches(alloc))
}

/// Rules that rename d1.t1, or none.
pub fn rules(alloc: Global, renaming: bool) -> Result<Names, Memory> {
    let mut names = Names::new(alloc);
    if renaming {
        let rule = rule(alloc, "d1", "t1", "shop", "orders")?;
        if names.add(rule).is_err() {
            return Err(Memory);
        }
    }
    Ok(names)
}
