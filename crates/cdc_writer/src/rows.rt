//! The rows of branches, as they are printed.

ghost use Rattle.std.specs.Prelude.{◌≡◌, ◌+◌, ◌-◌, ◌<◌, ◌^◌, ◌++◌, min, length, take, IfOk, OnOk};
ghost use Rattle.cdc_event.specs.Table.{renamed};
ghost use Rattle.cdc_event.specs.View.{body_viewed};
ghost use Rattle.cdc_model.specs.Kept.{IsRow};
ghost use Rattle.cdc_model.specs.Print.{laid, printed_event, row_length, row_events, without_statement};
ghost use Rattle.cdc_writer.specs.Events.{events_length, renamed_rows};
ghost use Rattle.cdc_writer.specs.Statements.{branch_events};

use crate::event::{put_event, put_view};
use crate::statement::statement_of;
use cdc_base::{Buffer, Memory};
use cdc_event::{BodyView, HEADER_LENGTH, kind, view_body};
use cdc_model::{Branch, RowList, RowView};
use cdc_rename::{Names, renamed_view, renamed_view_length};

// The body of a table map, in place.
#[tactic(auto, using(crate::proofs::RowViews::map_viewed, crate::proofs::RowViews::map_found))]
fn map_view<'a>(row: &RowView<'a>) -> BodyView<'a>
    requires { row.now.0 ≡ 19 }
    ensures { body_viewed result ≡ row.now.1 }
{
    match view_body(kind::TABLE_MAP, row.bytes()) {
        Some(view) => view,
        None => unreachable!(),
    }
}

// Appends a table map under its new names, and answers the offset behind it.
#[tactic(auto, using(crate::proofs::PrintedRows::row_printable))]
fn put_map(
    row: &RowView<'_>,
    names: &Names,
    seconds: u32,
    at: u64,
    into: &mut Buffer,
) -> Result<u64, Memory>
    requires kind { row.now.0 ≡ 19 }
    requires row { IsRow row.now }
    requires room { at + row_length (row.now.0, renamed names.now row.now.1) < 2 ^ 32 }
    ensures next { IfOk result (λ next. next ≡ at + row_length (row.now.0, renamed names.now row.now.1)) }
    ensures ok { OnOk result (into.new ≡ into.old ++ printed_event at seconds (row.now.0, renamed names.now row.now.1)) }
    ensures kept { take (length into.old) into.new ≡ into.old }
{
    match renamed_view(&map_view(row), names)? {
        Some(body) => put_event(kind::TABLE_MAP, body, seconds, at, into),
        None => put_view(row, seconds, at, into),
    }
}

// Appends a row, its table renamed, and answers the offset behind it.
#[tactic(auto, using(crate::proofs::RowViews::not_map))]
fn put_row(
    row: &RowView<'_>,
    names: &Names,
    seconds: u32,
    at: u64,
    into: &mut Buffer,
) -> Result<u64, Memory>
    requires row { IsRow row.now }
    requires room { at + row_length (row.now.0, renamed names.now row.now.1) < 2 ^ 32 }
    ensures next { IfOk result (λ next. next ≡ at + row_length (row.now.0, renamed names.now row.now.1)) }
    ensures ok { OnOk result (into.new ≡ into.old ++ printed_event at seconds (row.now.0, renamed names.now row.now.1)) }
    ensures kept { take (length into.old) into.new ≡ into.old }
{
    if row.kind() == kind::TABLE_MAP {
        put_map(row, names, seconds, at, into)
    } else {
        put_view(row, seconds, at, into)
    }
}

// Appends rows, and answers the offset behind them.
fn put_rows(
    rows: &RowList,
    names: &Names,
    seconds: u32,
    at: u64,
    into: &mut Buffer,
) -> Result<u64, Memory>
    requires { at + events_length (renamed_rows names.now rows.now) < 2 ^ 32 }
    ensures next { IfOk result (λ next. next ≡ at + events_length (renamed_rows names.now rows.now)) }
    ensures ok { OnOk result (into.new ≡ into.old ++ laid at seconds (renamed_rows names.now rows.now)) }
    ensures kept { take (length into.old) into.new ≡ into.old }
{
    let mut next = at;
    let mut left = rows.rows();
    'rows: while let Some(row) = left.next() {
        let _bytes = row.bytes();
        next = put_row(&row, names, seconds, next, into)?;
    }
    Ok(next)
}

/// How many bytes a row's event has, its table renamed; 2^64 - 1 where there are more than that.
pub(crate) fn renamed_row_length(row: &RowView<'_>, names: &Names) -> u64
    requires { IsRow row.now }
    ensures { result ≡ min (row_length (row.now.0, renamed names.now row.now.1)) (2 ^ 64 - 1) }
{
    let length = (HEADER_LENGTH + row.bytes().len()) as u64;
    if row.kind() != kind::TABLE_MAP {
        return length;
    }
    match renamed_view_length(&map_view(row), names) {
        Some(renamed) => renamed.saturating_add(HEADER_LENGTH as u64),
        None => length,
    }
}

// Appends the rows of a branch, unless it has a statement.
fn put_branch(
    branch: &Branch,
    names: &Names,
    seconds: u32,
    at: u64,
    into: &mut Buffer,
) -> Result<u64, Memory>
    requires { at + events_length (branch_events names.now branch.now) < 2 ^ 32 }
    ensures next { IfOk result (λ next. next ≡ at + events_length (branch_events names.now branch.now)) }
    ensures ok { OnOk result (into.new ≡ into.old ++ laid at seconds (branch_events names.now branch.now)) }
    ensures kept { take (length into.old) into.new ≡ into.old }
{
    match statement_of(&branch.rows) {
        Some(_) => Ok(at),
        None => put_rows(&branch.rows, names, seconds, at, into),
    }
}

/// Appends the rows of all branches without a statement, and answers the offset behind them.
pub(crate) fn put_branches(
    branches: &[Branch],
    names: &Names,
    seconds: u32,
    at: u64,
    into: &mut Buffer,
) -> Result<u64, Memory>
    requires { at + events_length (row_events names.now (without_statement branches.now)) < 2 ^ 32 }
    ensures next { IfOk result (λ next. next ≡ at + events_length (row_events names.now (without_statement branches.now))) }
    ensures ok { OnOk result (into.new ≡ into.old ++ laid at seconds (row_events names.now (without_statement branches.now))) }
    ensures kept { take (length into.old) into.new ≡ into.old }
{
    let mut next = at;
    for branch in branches {
        next = put_branch(branch, names, seconds, next, into)?;
    }
    Ok(next)
}
