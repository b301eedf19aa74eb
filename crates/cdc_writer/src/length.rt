//! The length of a transaction's print, counted up to 2^64 - 1.

ghost use Rattle.std.specs.Prelude.{◌≡◌, ◌+◌, ◌-◌, ◌^◌, min, is_some, true};
ghost use Rattle.std.specs.List.{list_any};
ghost use Rattle.cdc_model.specs.Print.{branch_statement, distinct, statements_of, row_events, without_statement, printed_length};
ghost use Rattle.cdc_writer.specs.Events.{events_length, renamed_rows};
ghost use Rattle.cdc_writer.specs.Statements.{branch_events, statement_events, all_statement_events, told};
ghost use Rattle.cdc_writer.specs.Parts.{alone_events, marked_events, behind_events};

use crate::different::{Told, told_length};
use crate::mark::mark_length;
use crate::rows::renamed_row_length;
use crate::statement::{is_among, some_rows, some_statement, statement_of};
use cdc_model::{Branch, RowList, Txn};
use cdc_rename::Names;

/// The bytes of BEGIN and XID.
const FRAME_LENGTH: u64 = 65;

/// The bytes of a statement's event beside its database and its text.
const STATEMENT_LENGTH: u64 = 33;

// Under rules table maps are looked into; without any no row is.
fn rows_length(rows: &RowList, names: &Names) -> u64
    ensures { result ≡ min (events_length (renamed_rows names.now rows.now)) (2 ^ 64 - 1) }
{
    if names.is_empty() {
        return rows.events_length();
    }
    let mut total: u64 = 0;
    let mut left = rows.rows();
    'rows: while let Some(row) = left.next() {
        let _bytes = row.bytes();
        total = total.saturating_add(renamed_row_length(&row, names));
    }
    total
}

fn branch_length(branch: &Branch, names: &Names) -> u64
    ensures { result ≡ min (events_length (branch_events names.now branch.now)) (2 ^ 64 - 1) }
{
    match statement_of(&branch.rows) {
        Some(_) => 0,
        None => rows_length(&branch.rows, names),
    }
}

// The rows of all branches without a statement.
fn branches_length(branches: &[Branch], names: &Names) -> u64
    ensures { result ≡ min (events_length (row_events names.now (without_statement branches.now))) (2 ^ 64 - 1) }
{
    let mut total: u64 = 0;
    for branch in branches {
        total = total.saturating_add(branch_length(branch, names));
    }
    total
}

// A branch's statement, unless a branch before it has it too.
fn statement_length(before: &[Branch], branch: &Branch) -> u64
    ensures { result ≡ min (events_length (statement_events before.now branch.now)) (2 ^ 64 - 1) }
{
    let Some(statement) = statement_of(&branch.rows) else {
        return 0;
    };
    if is_among(before, &statement) {
        return 0;
    }
    STATEMENT_LENGTH
        .saturating_add(statement.database.len() as u64)
        .saturating_add(statement.text.len() as u64)
}

// The branches' statements, each statement once.
fn statements_length(branches: &[Branch]) -> u64
    ensures { result ≡ min (events_length (all_statement_events branches.now)) (2 ^ 64 - 1) }
{
    let mut total: u64 = 0;
    for (index, branch) in branches.iter().enumerate() {
        let (before, _) = branches.split_at(index);
        total = total.saturating_add(statement_length(before, branch));
    }
    total
}

fn alone_length(txn: &Txn, names: &Names) -> u64
    ensures { result ≡ min (events_length (alone_events names.now txn.now)) (2 ^ 64 - 1) }
{
    branches_length(txn.branches.as_slice(), names).saturating_add(
        FRAME_LENGTH + mark_length(&txn.key),
    )
}

fn marked_length(txn: &Txn) -> u64
    ensures { result ≡ min (events_length (marked_events txn.now)) (2 ^ 64 - 1) }
{
    statements_length(txn.branches.as_slice()).saturating_add(mark_length(&txn.key))
}

fn behind_length(txn: &Txn, names: &Names) -> u64
    ensures { result ≡ min (events_length (behind_events names.now txn.now)) (2 ^ 64 - 1) }
{
    branches_length(txn.branches.as_slice(), names).saturating_add(FRAME_LENGTH)
}

// The mark and the statements, whose length is given, and the rows behind them.
fn with_rows_behind(marked: u64, txn: &Txn, names: &Names) -> u64
    requires some { list_any (λ branch. is_some (branch_statement branch.rows)) txn.now.branches ≡ true }
    requires marked { marked ≡ min (events_length (marked_events txn.now)) (2 ^ 64 - 1) }
    ensures { result ≡ min (printed_length names.now txn.now) (2 ^ 64 - 1) }
{
    if some_rows(txn.branches.as_slice()) {
        marked.saturating_add(behind_length(txn, names))
    } else {
        marked
    }
}

/// How many bytes a transaction's print has, whose different statements are given; 2^64 - 1 where there are more than
/// that.
pub(crate) fn length_with(statements: &[Told<'_>], txn: &Txn, names: &Names) -> u64
    requires { told statements.now ≡ distinct (statements_of txn.now.branches) }
    ensures { result ≡ min (printed_length names.now txn.now) (2 ^ 64 - 1) }
{
    if statements.is_empty() {
        return alone_length(txn, names);
    }
    let marked = told_length(statements).saturating_add(mark_length(&txn.key));
    with_rows_behind(marked, txn, names)
}

/// How many bytes a transaction's print has, wherever it stands; 2^64 - 1 where there are more than that.
/// Takes no memory. Its time is that of the branches, and under rules that of their rows; where branches have
/// statements, at most that of each pair of them, since no set can be kept without memory: `print` and `unit` keep one.
pub fn print_length(txn: &Txn, names: &Names) -> u64
    ensures { result ≡ min (printed_length names.now txn.now) (2 ^ 64 - 1) }
{
    if !some_statement(txn.branches.as_slice()) {
        return alone_length(txn, names);
    }
    with_rows_behind(marked_length(txn), txn, names)
}
