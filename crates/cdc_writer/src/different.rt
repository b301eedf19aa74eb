//! The different statements of a transaction's branches, each found by a set and not by a look at all before it.

ghost use Rattle.std.specs.Prelude.{◌≡◌, ◌^◌, ◌-◌, ◌+◌, min, map, length, IfOk, OnOk};
ghost use Rattle.std.specs.List.{AllByRecursion};
ghost use Rattle.cdc_model.specs.Print.{branch_statement, distinct, statements_of, statement_event};
ghost use Rattle.cdc_writer.specs.Events.{events_length};
ghost use Rattle.cdc_writer.specs.Statements.{IsShort, told, with_statement};

use crate::statement::statement_of;
use cdc_base::Memory;
use cdc_model::Branch;
use indexmap::IndexSet;
use std::alloc::Global;

/// The bytes of a statement's event beside its database and its text.
const STATEMENT_LENGTH: u64 = 33;

/// A statement as a set keeps it: its database and its text.
pub(crate) type Told<'a> = (&'a [u8], &'a [u8]);

// Adds a branch's statement, where it has one that isn't there.
fn add_statement<'a>(branch: &'a Branch, into: &mut IndexSet<Told<'a>>) -> Result<(), Memory>
    ensures ok { OnOk result (told into.new.keys ≡ with_statement (branch_statement branch.now.rows) (told into.old.keys)) }
    ensures short { OnOk result (AllByRecursion IsShort (told into.old.keys) → AllByRecursion IsShort (told into.new.keys)) }
{
    if let Some(statement) = statement_of(&branch.rows) {
        into.insert((statement.database, statement.text))?;
    }
    Ok(())
}

/// The different statements of branches, each once, in the order in which they first come.
pub(crate) fn different<'a>(
    alloc: Global,
    branches: &'a [Branch],
) -> Result<IndexSet<Told<'a>>, Memory>
    ensures statements { IfOk result (λ set. told set.keys ≡ distinct (statements_of branches.now)) }
    ensures short { IfOk result (λ set. AllByRecursion IsShort (told set.keys)) }
{
    let mut statements = IndexSet::new(alloc);
    for branch in branches {
        add_statement(branch, &mut statements)?;
    }
    Ok(statements)
}

fn one_length(statement: &Told<'_>) -> u64
    ensures { result ≡ min (33 + length statement.now.0.now + length statement.now.1.now) (2 ^ 64 - 1) }
{
    let (database, text) = *statement;
    STATEMENT_LENGTH
        .saturating_add(database.len() as u64)
        .saturating_add(text.len() as u64)
}

/// How many bytes the events of statements have, up to 2^64 - 1.
pub(crate) fn told_length(statements: &[Told<'_>]) -> u64
    ensures { result ≡ min (events_length (map statement_event (told statements.now))) (2 ^ 64 - 1) }
{
    let mut total: u64 = 0;
    for statement in statements {
        total = total.saturating_add(one_length(statement));
    }
    total
}
