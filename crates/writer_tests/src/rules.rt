//! Renaming rules.

ghost use Rattle.std.specs.Prelude.{IsTrue};
ghost use Rattle.cdc_rename.specs.Names.{IsName};

use cdc_base::{Memory, Rename};
use cdc_rename::Names;
use cdc_samples::rules::rule;
use std::alloc::Global;
use std::process::Abort;
use std::test::Fail;

const LONGEST: &str = "0123456789012345678901234567890123456789012345678901234567890123";

// Whether this can be a name.
fn is_name(text: &str) -> bool
    ensures { IsTrue result → IsName text.now }
{
    !text.is_empty() && text.len() <= 64
}

// Whether a rule for a table was added.
fn is_added(
    alloc: Global,
    names: &mut Names,
    db: &str,
    table: &str,
    to_table: &str,
) -> Result<bool, Memory> {
    if !is_name(db) || !is_name(table) || !is_name(to_table) {
        return Ok(false);
    }
    let rule = rule(alloc, db, table, "all", to_table)?;
    Ok(names.add(rule).is_ok())
}

// Whether a table has this new name in the database `all`.
fn is_named(names: &Names, db: &str, table: &str, to_table: &str) -> bool {
    let found: Option<&Rename> = names.find(db.as_bytes(), table.as_bytes());
    match found {
        Some(rule) => rule.to_db.bytes() == b"all".as_slice()
            && rule.to_table.bytes() == to_table.as_bytes(),
        None => false,
    }
}

// Whether a table keeps its name.
fn is_kept(names: &Names, db: &str, table: &str) -> bool {
    names.find(db.as_bytes(), table.as_bytes()).is_none()
}

// Adds the rules of tables t0, t1, .. of a database, in an order that isn't theirs; whether all were added.
fn add_many(alloc: Global, names: &mut Names, db: &str) -> Result<bool, Memory> {
    let mut all = true;
    for number in 0u32..300 {
        let table = format!(in alloc; "t{}", number * 7 % 300)?;
        all = is_added(alloc, names, db, table.as_str(), table.as_str())? && all;
    }
    Ok(all)
}

/// A database, a table and its new name, and whether the rule is added behind those above.
const ADDED: [(&str, &str, &str, bool); 5] = [
    ("d1", "t1", "b", true),
    ("d1", "t1", "d", false),
    ("d1", "t2", "f", true),
    ("d2", "t1", "h", true),
    (LONGEST, LONGEST, "i", true),
];

/// A database, a table, and its new name; none where it keeps its name.
const FEW: [(&str, &str, &str); 7] = [
    ("d1", "t1", "b"),
    ("d1", "t2", "f"),
    ("d2", "t1", "h"),
    (LONGEST, LONGEST, "i"),
    ("d2", "t2", ""),
    ("D1", "t1", ""),
    ("", "", ""),
];

const MANY: [(&str, &str, &str); 7] = [
    ("d1", "t0", "t0"),
    ("d1", "t10", "t10"),
    ("d1", "t299", "t299"),
    ("d2", "t1", "t1"),
    ("d2", "t150", "t150"),
    ("d1", "t300", ""),
    ("d", "t1", ""),
];

// Whether a table has this new name, or keeps its own where none is given.
fn is_as(names: &Names, db: &str, table: &str, to_table: &str) -> bool {
    if to_table.is_empty() {
        is_kept(names, db, table)
    } else {
        is_named(names, db, table, to_table)
    }
}

#[test]
fn a_table_has_one_rule(rt: HostRuntime) -> Result<(), Fail> {
    let mut names = Names::new(rt.alloc());
    for (db, table, to_table, want) in ADDED {
        let added = is_added(rt.alloc(), &mut names, db, table, to_table)?;
        assert!(rt; added == want, "{db}.{table} to {to_table}");
    }
    for (db, table, to_table) in FEW {
        assert!(rt; is_as(&names, db, table, to_table), "{db}.{table}");
    }
    Ok(())
}

#[test]
fn a_rule_is_found_among_many(rt: HostRuntime) -> Result<(), Fail> {
    let mut names = Names::new(rt.alloc());
    for db in ["d2", "d1"] {
        let added = add_many(rt.alloc(), &mut names, db)?;
        assert!(rt; added, "{db}");
    }
    for (db, table, to_table) in MANY {
        assert!(rt; is_as(&names, db, table, to_table), "{db}.{table}");
    }
    Ok(())
}
