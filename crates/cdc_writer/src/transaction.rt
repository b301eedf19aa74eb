//! The parts of a transaction's print, one behind another.

ghost use Rattle.std.specs.Prelude.{◌≡◌, ◌+◌, ◌<◌, ◌^◌, [], ◌∷◌, ◌++◌, length, map, take, IfOk, OnOk, OnErr};
ghost use Rattle.std.specs.List.{AllByRecursion};
ghost use Rattle.cdc_model.specs.Print.{laid, row_length, printed_event, xid_event, statement_event, distinct, statements_of, rows_behind, without_statement, printed_bytes, printed_length};
ghost use Rattle.cdc_writer.specs.Events.{events_length};
ghost use Rattle.cdc_writer.specs.Statements.{IsShort, told};
ghost use Rattle.cdc_writer.specs.Parts.{alone_events, marked_events, behind_events};

use crate::different::Told;
use crate::event::put_event;
use crate::mark::put_mark;
use crate::rows::put_branches;
use crate::statement::some_rows;
use cdc_base::{Blob, Buffer, Memory};
use cdc_event::{Body, kind};
use cdc_model::Txn;
use cdc_rename::Names;
use std::alloc::Global;

/// The text of a transaction's first event.
const BEGIN: &[u8] = b"BEGIN";

// Appends a statement's event, and answers the offset behind it.
fn put_query(
    alloc: Global,
    database: &[u8],
    text: &[u8],
    seconds: u32,
    at: u64,
    into: &mut Buffer,
) -> Result<u64, Memory>
    requires short { IsShort (database.now, text.now) }
    requires room { at + row_length (statement_event (database.now, text.now)) < 2 ^ 32 }
    ensures next { IfOk result (λ next. next ≡ at + row_length (statement_event (database.now, text.now))) }
    ensures ok { OnOk result (into.new ≡ into.old ++ printed_event at seconds (statement_event (database.now, text.now))) }
    ensures err { OnErr result (into.new ≡ into.old) }
{
    let body = Body::Query {
        thread: 0,
        seconds: 0,
        error: 0,
        status: Blob::empty(),
        db: Blob::copy_of(alloc, database)?,
        text: Blob::copy_of(alloc, text)?,
    };
    put_event(kind::QUERY, body, seconds, at, into)
}

// Appends a transaction's last event, and answers the offset behind it.
fn put_xid(number: u64, seconds: u32, at: u64, into: &mut Buffer) -> Result<u64, Memory>
    requires { at + row_length (xid_event number) < 2 ^ 32 }
    ensures next { IfOk result (λ next. next ≡ at + row_length (xid_event number)) }
    ensures ok { OnOk result (into.new ≡ into.old ++ printed_event at seconds (xid_event number)) }
    ensures err { OnErr result (into.new ≡ into.old) }
{
    put_event(kind::XID, Body::Xid { number }, seconds, at, into)
}

// Appends statements' events, one behind another, and answers the offset behind them.
fn put_statements(
    alloc: Global,
    statements: &[Told<'_>],
    seconds: u32,
    at: u64,
    into: &mut Buffer,
) -> Result<u64, Memory>
    requires short { AllByRecursion IsShort (told statements.now) }
    requires room { at + events_length (map statement_event (told statements.now)) < 2 ^ 32 }
    ensures next { IfOk result (λ next. next ≡ at + events_length (map statement_event (told statements.now))) }
    ensures ok { OnOk result (into.new ≡ into.old ++ laid at seconds (map statement_event (told statements.now))) }
    ensures kept { take (length into.old) into.new ≡ into.old }
{
    let mut next = at;
    for statement in statements {
        let (database, text) = *statement;
        next = put_query(alloc, database, text, seconds, next, into)?;
    }
    Ok(next)
}

// A transaction without statements.
fn put_alone(
    alloc: Global,
    txn: &Txn,
    names: &Names,
    at: u64,
    into: &mut Buffer,
) -> Result<u64, Memory>
    requires { at + events_length (alone_events names.now txn.now) < 2 ^ 32 }
    ensures next { IfOk result (λ next. next ≡ at + events_length (alone_events names.now txn.now)) }
    ensures ok { OnOk result (into.new ≡ into.old ++ laid at txn.now.seconds (alone_events names.now txn.now)) }
    ensures kept { take (length into.old) into.new ≡ into.old }
{
    let branches = txn.branches.as_slice();
    let rows = put_query(alloc, b"", BEGIN, txn.seconds, at, into)?;
    let mark = put_branches(branches, names, txn.seconds, rows, into)?;
    let end = put_mark(alloc, &txn.key, txn.seconds, mark, into)?;
    put_xid(txn.number, txn.seconds, end, into)
}

// The mark and the statements.
fn put_marked(
    alloc: Global,
    txn: &Txn,
    statements: &[Told<'_>],
    at: u64,
    into: &mut Buffer,
) -> Result<u64, Memory>
    requires statements { told statements.now ≡ distinct (statements_of txn.now.branches) }
    requires short { AllByRecursion IsShort (told statements.now) }
    requires room { at + events_length (marked_events txn.now) < 2 ^ 32 }
    ensures next { IfOk result (λ next. next ≡ at + events_length (marked_events txn.now)) }
    ensures ok { OnOk result (into.new ≡ into.old ++ laid at txn.now.seconds (marked_events txn.now)) }
    ensures kept { take (length into.old) into.new ≡ into.old }
{
    let next = put_mark(alloc, &txn.key, txn.seconds, at, into)?;
    put_statements(alloc, statements, txn.seconds, next, into)
}

// The rows behind statements.
fn put_behind(
    alloc: Global,
    txn: &Txn,
    names: &Names,
    at: u64,
    into: &mut Buffer,
) -> Result<u64, Memory>
    requires { at + events_length (behind_events names.now txn.now) < 2 ^ 32 }
    ensures next { IfOk result (λ next. next ≡ at + events_length (behind_events names.now txn.now)) }
    ensures ok { OnOk result (into.new ≡ into.old ++ laid at txn.now.seconds (behind_events names.now txn.now)) }
    ensures kept { take (length into.old) into.new ≡ into.old }
{
    let branches = txn.branches.as_slice();
    let rows = put_query(alloc, b"", BEGIN, txn.seconds, at, into)?;
    let end = put_branches(branches, names, txn.seconds, rows, into)?;
    put_xid(txn.number, txn.seconds, end, into)
}

// The rows behind statements, where a branch has none.
fn put_rows_behind(
    alloc: Global,
    txn: &Txn,
    names: &Names,
    at: u64,
    into: &mut Buffer,
) -> Result<u64, Memory>
    requires { at + events_length (rows_behind names.now txn.now.number (without_statement txn.now.branches)) < 2 ^ 32 }
    ensures ok { OnOk result (into.new ≡ into.old ++ laid at txn.now.seconds (rows_behind names.now txn.now.number (without_statement txn.now.branches))) }
    ensures kept { take (length into.old) into.new ≡ into.old }
{
    if some_rows(txn.branches.as_slice()) {
        put_behind(alloc, txn, names, at, into)
    } else {
        Ok(at)
    }
}

/// Appends the print of a transaction with these different statements. On `Memory` a part of it may stand behind what
/// was there.
pub(crate) fn put_transaction(
    alloc: Global,
    txn: &Txn,
    statements: &[Told<'_>],
    names: &Names,
    at: u64,
    into: &mut Buffer,
) -> Result<u64, Memory>
    requires statements { told statements.now ≡ distinct (statements_of txn.now.branches) }
    requires short { AllByRecursion IsShort (told statements.now) }
    requires room { at + printed_length names.now txn.now < 2 ^ 32 }
    ensures ok { OnOk result (into.new ≡ into.old ++ printed_bytes names.now txn.now at) }
    ensures kept { take (length into.old) into.new ≡ into.old }
{
    if statements.is_empty() {
        put_alone(alloc, txn, names, at, into)
    } else {
        let rows = put_marked(alloc, txn, statements, at, into)?;
        put_rows_behind(alloc, txn, names, rows, into)
    }
}
