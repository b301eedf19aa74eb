//! Statements of the whole database.

ghost use Rattle.std.specs.Prelude.{◌≡◌, is_some, is_none};
ghost use Rattle.std.specs.List.{list_any};
ghost use Rattle.std.specs.Option.{option_map};
ghost use Rattle.cdc_model.specs.Print.{row_statement, branch_statement};
ghost use Rattle.cdc_writer.specs.Statements.{is_statement};

use cdc_event::kind;
use cdc_model::{Branch, RowList, RowView, Statement, statement_in};

// The statement of a row of type 29, whose text stands behind one byte.
#[tactic(auto, using(crate::proofs::RowViews::marked_some, crate::proofs::RowViews::marked_statement))]
fn row_statement<'a>(row: &RowView<'a>) -> Option<Statement<'a>>
    requires { row.now.0 ≡ 29 }
    ensures { option_map (λ s. (s.database.now, s.text.now)) result ≡ row_statement row.now.1 }
{
    let (_, text) = row.bytes().split_at(1);
    statement_in(text)
}

/// The statement of a branch, whose one row is of type 29 and spells it.
#[tactic(auto, using(crate::proofs::RowViews::one_marked, crate::proofs::RowViews::one_other, crate::proofs::RowViews::not_one))]
pub(crate) fn statement_of(rows: &RowList) -> Option<Statement<'_>>
    ensures { option_map (λ s. (s.database.now, s.text.now)) result ≡ branch_statement rows.now }
{
    let mut left = rows.rows();
    let Some(row) = left.next() else {
        return None;
    };
    if rows.len() != 1 || row.kind() != kind::ROWS_QUERY {
        return None;
    }
    row_statement(&row)
}

// Whether a branch has this statement.
fn is_of(branch: &Branch, statement: &Statement<'_>) -> bool
    ensures { result ≡ is_statement (statement.now.database.now, statement.now.text.now) (branch_statement branch.now.rows) }
{
    match statement_of(&branch.rows) {
        Some(other) => other.database == statement.database && other.text == statement.text,
        None => false,
    }
}

/// Whether a branch among these has this statement.
pub(crate) fn is_among(branches: &[Branch], statement: &Statement<'_>) -> bool
    ensures { result ≡ list_any (λ branch. is_statement (statement.now.database.now, statement.now.text.now) (branch_statement branch.rows)) branches.now }
{
    branches.iter().any(|branch| is_of(branch, statement))
}

/// Whether a branch among these has a statement.
pub(crate) fn some_statement(branches: &[Branch]) -> bool
    ensures { result ≡ list_any (λ branch. is_some (branch_statement branch.rows)) branches.now }
{
    branches
        .iter()
        .any(|branch| statement_of(&branch.rows).is_some())
}

/// Whether a branch among these has none.
pub(crate) fn some_rows(branches: &[Branch]) -> bool
    ensures { result ≡ list_any (λ branch. is_none (branch_statement branch.rows)) branches.now }
{
    branches
        .iter()
        .any(|branch| statement_of(&branch.rows).is_none())
}
